//! The closed declared types that a program reaches.

ghost use Rattle.std.specs.Prelude.{◌≡◌, IfOk, None, map};
ghost use Rattle.au_type_texts.specs.Keys as keys;
ghost use Rattle.au_closed_trees.specs.Occurring.{follows};
ghost use Rattle.au_closed_trees.specs.Telling.{type_one};
ghost use Rattle.au_type_texts.specs.Same.{same};
ghost use Rattle.au_type_texts.specs.Types.{ClosedType};
ghost use Rattle.au_type_texts.specs.Views.{closed_meaning};
ghost use Rattle.au_modules.specs.Slots as slots;
ghost use Rattle.au_graphs.specs.Finding.{found_in};
ghost use Rattle.au_graphs.specs.Reached.{Lists};

use crate::cases::cases_of;
use crate::occurring::add_in_cases;
use au_base::{Limit, LimitKind, Memory};
use au_graphs::{Finds, Ground, reach};
use au_imports::Resolved;
use au_type_texts::{Closed, add_key};
use std::alloc::Global;

/// The most closed types of a program: one more has no number.
const MOST_TYPES: usize = 4_294_967_295;

/// The closed types of a program, over those that occur in their fields.
#[derive(Clone, Copy)]
struct Types<'a> {
    program: &'a Resolved,
}

/// The key of a closed type.
pub(crate) fn key_of(alloc: Global, of: &Closed) -> Result<Vec<u32>, Memory>
    ensures { IfOk result (λ key. key.items ≡ keys.key_of (closed_meaning of.now)) }
{
    let mut key = Vec::new(alloc);
    add_key(&mut key, of)?;
    Ok(key)
}

/// The declared types that occur in the fields of a closed type, outside boxes and buffers.
fn types_in_fields(alloc: Global, program: &Resolved, of: &Closed) -> Result<Vec<Closed>, Memory>
    ensures { IfOk result (λ made.
        map closed_meaning made.items ≡ follows (slots.modules program.now) (closed_meaning of.now)) }
{
    let cases = cases_of(alloc, program, of)?;
    let mut found = Vec::new(alloc);
    add_in_cases(alloc, program.heads_ref(), &cases, &mut found)?;
    Ok(found)
}

impl<'a> Ground for Types<'a> {
    type Item = Closed;

    ghost Seen = { ClosedType };

    ghost see = { closed_meaning };

    ghost key_of = { keys.key_of };

    ghost told_of = { λ _. None };

    ghost next_of = { λ ground. follows (slots.modules ground.program.now) };

    fn key(alloc: Global, of: &Closed) -> Result<Vec<u32>, Memory>
        ensures { IfOk result (λ key. key.items ≡ keys.key_of (closed_meaning of.now)) }
    {
        key_of(alloc, of)
    }

    fn told(_of: &Closed) -> Option<Limit>
        ensures { result ≡ None }
    {
        None
    }

    fn next(&self, alloc: Global, of: &Closed) -> Result<Vec<Closed>, Memory> {
        types_in_fields(alloc, self.program, of)
    }

    ghost tells = { type_one };
}

/// The closed declared types that are reached from some: these, and those that occur in the fields of what is
/// reached, outside boxes and buffers, each once.
///
/// # Errors
///
/// Only for want of memory. It is also what is answered where there are more than 2^32 - 1.
pub fn types_reached(
    alloc: Global,
    program: &Resolved,
    starts: Vec<Closed>,
) -> Result<Finds<Closed>, Memory>
    ensures { IfOk result (λ found.
        Lists same (follows (slots.modules program.now)) (map closed_meaning starts.items)
        (found_in closed_meaning found)) }
{
    let ground = Types { program };
    // what is told of one type more is want of memory, whatever stands here
    let full = Limit {
        kind: LimitKind::TypeNodes,
        count: 0,
        most: 0,
    };
    match reach(alloc, &ground, starts, full, MOST_TYPES) {
        Ok(found) => Ok(found),
        Err(_) => Err(Memory),
    }
}
