//! The entry of a program.

ghost use Rattle.std.specs.Prelude.{◌≡◌, ◌<◌, Some, length};
ghost use Rattle.au_closing.specs.Entries as spec;
ghost use Rattle.au_closing.specs.declared.entries.EntryFault.TheVariants as fault;
ghost use Rattle.au_closing.specs.Views.{Answers, function_said};
ghost use Rattle.au_modules.specs.Slots as slots;
ghost use Rattle.au_names.specs.HeadsOf.{heads_of};

use crate::finding::{Candidate, function_at, place_of};
use crate::forms::{Place, form_of};
use au_base::{Memory, Name, Pos};
use au_imports::Resolved;
use au_names::{PartNames, Target};
use au_syntax::Part;
use std::alloc::Global;
use thiserror::Error;

/// The function at which a program begins.
#[derive(Drop)]
pub struct Begin {
    /// What its name means in the body of its module.
    pub of: Target,
    /// Whether it takes the root.
    pub root: bool,
}

/// Why there is no entry.
#[derive(Clone, Copy, Debug, PartialEq, Eq, Error)]
pub enum EntryFault {
    /// No module of the name has a body with a function of the name.
    #[error("there is no such entry")]
    NoEntry,
    /// The function at this place hasn't the form of an entry.
    #[error("a function of another form can't be the entry")]
    BadEntry(Pos),
    /// Memory ran out.
    #[error("memory ran out")]
    Memory,
}

impl From<Memory> for EntryFault {
    ghost from_gives = { λ _ e. e ≡ fault.Memory };

    fn from(_fault: Memory) -> EntryFault {
        EntryFault::Memory
    }
}

/// What a function is as an entry, which is found in the body of the module at a place and means this there.
fn formed(
    alloc: Global,
    program: &Resolved,
    names: &PartNames,
    found: &Candidate,
    target: &Target,
) -> Result<Begin, EntryFault>
    ensures { Answers result (spec.formed found.now.at target.now
        (spec.form_of names.now.types (heads_of (slots.modules program.now))
        (function_said found.now).generics (function_said found.now).header)) }
{
    let place = Place {
        names: &names.types,
        heads: program.heads_ref(),
    };
    match form_of(alloc, &place, found.generics, found.signature)? {
        None => Err(EntryFault::BadEntry(found.at)),
        Some(root) => {
            let of = target.copy(alloc)?;
            Ok(Begin { of, root })
        }
    }
}

/// The function of a name in the body of the module at a place as an entry.
fn found_at(
    alloc: Global,
    program: &Resolved,
    place: usize,
    name: &Name,
) -> Result<Begin, EntryFault>
    requires { place < length (slots.modules program.now) }
    ensures { Answers result (spec.found_in (slots.modules program.now) name.now (Some place)) }
{
    let Some(found) = function_at(program, place, name) else {
        return Err(EntryFault::NoEntry);
    };
    let names = program.names(place, Part::Body);
    match names.callables.get(name.as_bytes()) {
        None => Err(EntryFault::NoEntry),
        Some(target) => formed(alloc, program, names, &found, target),
    }
}

/// The function at which a program begins, by the name of its module and its own.
///
/// # Errors
///
/// `NoEntry` exactly where no module of the first name has a body with a function of the other; `BadEntry`,
/// at that function, exactly where it hasn't the form of an entry: no type parameters, `RootCapability` or
/// nothing as its parameters, and `ExitCode` as its result; `Memory` when memory runs out.
pub fn entry_of(
    alloc: Global,
    program: &Resolved,
    owner: &Name,
    name: &Name,
) -> Result<Begin, EntryFault>
    ensures { Answers result (spec.entry_of (slots.modules program.now) owner.now name.now) }
{
    match place_of(program, owner) {
        None => Err(EntryFault::NoEntry),
        Some(place) => found_at(alloc, program, place, name),
    }
}
