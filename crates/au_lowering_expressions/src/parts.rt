//! Parts of variables.

ghost use Rattle.std.specs.Prelude.{◌≡◌, IfOk, Some, map};
ghost use Rattle.std.specs.Option.{option_copied, option_map};
ghost use Rattle.au_closed_trees.specs.contracts.phase.ClosedTreesPhase.TheImpl.{ghosts as closed};
ghost use Rattle.au_type_texts.specs.Views.{closed_meaning};
ghost use Rattle.au_closed_meanings.specs.Surroundings.{view_in};
ghost use Rattle.au_lowered.specs.Expressions.{numbers_along};
ghost use Rattle.au_lowering_expressions.specs.Parts as spec;
ghost use Rattle.au_lowering_expressions.specs.Views.{part_said, scope_said};
ghost use Rattle.au_meaning.specs.Expressions.{names_of};
ghost use Rattle.au_meaning.specs.Names.{variable_of};
ghost use Rattle.au_syntax.specs.Views.{placed};

use crate::locals::Locals;
use crate::types::target_behind;
use au_base::{Memory, Name, Sequence};
use au_closed_meanings::Lookup;
use au_closed_trees::ClosedTrees;
use au_syntax::Ident;
use au_type_texts::Closed;
use std::alloc::Global;

/// A part of a variable: its slot, and the numbers of the fields along a path.
#[derive(Drop)]
pub struct Part {
    /// The slot.
    pub slot: u32,
    /// The numbers.
    pub path: Sequence<u32>,
}

/// The numbers of the fields along a path from a record of a type.
fn numbers_from<'a, R: Lookup>(
    alloc: Global,
    lookup: &'a R,
    from: &'a Closed,
    names: &Vec<Ident<ClosedTrees>>,
) -> Result<Option<Sequence<u32>>, Memory>
    ensures { IfOk result (λ made. made
        ≡ numbers_along (view_in (R.round lookup.now)) (Some (closed_meaning from.now))
        (names_of (map (placed closed) names.now.items))) }
{
    let mut numbers = Vec::new(alloc);
    let mut at = from;
    for one in names {
        let Some(found) = lookup.field(at, 0, &one.name) else {
            return Ok(None);
        };
        numbers.push(found.number)?;
        at = found.of;
    }
    Ok(Some(Sequence::from_vec(numbers)))
}

/// The same, where the type may not be known.
fn numbers_of<'a, R: Lookup>(
    alloc: Global,
    lookup: &'a R,
    from: Option<&'a Closed>,
    names: &Vec<Ident<ClosedTrees>>,
) -> Result<Option<Sequence<u32>>, Memory>
    ensures { IfOk result (λ made. made
        ≡ numbers_along (view_in (R.round lookup.now)) (option_map closed_meaning (option_copied from.entry))
        (names_of (map (placed closed) names.now.items))) }
{
    match from {
        Some(of) => numbers_from(alloc, lookup, of, names),
        None => {
            if names.is_empty() {
                Ok(Some(Sequence::new(alloc)))
            } else {
                Ok(None)
            }
        }
    }
}

/// A slot with a path, where the path is there.
fn with_path(slot: u32, path: Option<Sequence<u32>>) -> Option<Part>
    ensures { option_map part_said result ≡ spec.with_path slot path }
{
    match path {
        None => None,
        Some(path) => Some(Part { slot, path }),
    }
}

/// The part of a variable at the end of a path.
///
/// # Errors
///
/// Only for want of memory.
pub fn part_of<R: Lookup>(
    alloc: Global,
    lookup: &R,
    scope: &Locals,
    name: &Name,
    path: &Vec<Ident<ClosedTrees>>,
) -> Result<Option<Part>, Memory>
    ensures { IfOk result (λ made. option_map part_said made
        ≡ spec.part_in (view_in (R.round lookup.now)) (variable_of (scope_said scope.now) name.now)
        (names_of (map (placed closed) path.now.items))) }
{
    match scope.find(name) {
        None => Ok(None),
        Some(found) => {
            let numbers = numbers_of(alloc, lookup, found.of.as_ref(), path)?;
            Ok(with_path(found.slot, numbers))
        }
    }
}

/// The part of what a variable refers to at the end of a path.
///
/// # Errors
///
/// Only for want of memory.
pub fn part_past<R: Lookup>(
    alloc: Global,
    lookup: &R,
    scope: &Locals,
    name: &Name,
    path: &Vec<Ident<ClosedTrees>>,
) -> Result<Option<Part>, Memory>
    ensures { IfOk result (λ made. option_map part_said made
        ≡ spec.part_past (view_in (R.round lookup.now)) (variable_of (scope_said scope.now) name.now)
        (names_of (map (placed closed) path.now.items))) }
{
    match scope.find(name) {
        None => Ok(None),
        Some(found) => {
            let numbers = numbers_of(alloc, lookup, target_behind(&found.of), path)?;
            Ok(with_path(found.slot, numbers))
        }
    }
}
