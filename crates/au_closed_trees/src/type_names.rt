//! Type parameters that stand for types, and what is given for those of a declared type.

ghost use Rattle.std.specs.Prelude.{◌≡◌, [], ◌++◌, ◌∷◌, IfOk, OnOk, map};
ghost use Rattle.au_closed_trees.specs.TypeNames as spec;
ghost use Rattle.au_type_texts.specs.Views.{closed_meaning};
ghost use Rattle.au_type_texts.specs.GivenViews.{given_said};

use au_base::{Memory, Name};
use au_syntax::Universe;
use au_type_texts::{Closed, GivenType, copy_closed};
use au_types::Params;
use std::alloc::Global;

/// Whether a type parameter of a universe is a region.
pub fn is_region(universe: Universe) -> bool
    ensures { result ≡ spec.is_region universe }
{
    match universe {
        Universe::Free => false,
        Universe::Linear => false,
        Universe::AnyType => false,
        Universe::Region => true,
    }
}

/// Puts what is given for a name behind others.
///
/// # Errors
///
/// Only for want of memory.
pub fn push_given(list: &mut Vec<GivenType>, name: Name, of: Closed) -> Result<(), Memory>
    ensures { OnOk result (given_said list.new.items
        ≡ given_said list.old.items ++ (name, closed_meaning of) ∷ []) }
{
    list.push(GivenType { name, of })?;
    Ok(())
}

/// Puts a copy of a closed type behind others, for a name.
fn push_copy(
    alloc: Global,
    list: &mut Vec<GivenType>,
    name: &Name,
    of: &Closed,
) -> Result<(), Memory>
    ensures { OnOk result (given_said list.new.items
        ≡ given_said list.old.items ++ (name.now, closed_meaning of.now) ∷ []) }
{
    let of = copy_closed(alloc, of)?;
    push_given(list, name.copy(alloc)?, of)
}

/// The type parameters that aren't regions, each with the closed type in its place.
pub(crate) fn given_over(
    alloc: Global,
    params: &Params,
    args: &[Closed],
) -> Result<Vec<GivenType>, Memory>
    ensures { IfOk result (λ made.
        given_said made.items ≡ spec.given_over (spec.type_names params.now) (map closed_meaning args.now)) }
{
    let mut made = Vec::new(alloc);
    let mut at = 0;
    for index in 0..params.len() {
        let one = params.at(index);
        if is_region(one.universe) {
            continue;
        }
        if at >= args.len() {
            return Ok(made);
        }
        push_copy(alloc, &mut made, &one.name, &args[at])?;
        at += 1;
    }
    Ok(made)
}
