//! What is written in a declaration and isn't well formed.

ghost use Rattle.std.specs.Prelude.{◌≡◌, IfOk};
ghost use Rattle.au_formed.specs.Malformed as spec;
ghost use Rattle.au_formed.specs.Said.{name_said, writing_said, writings_said};
ghost use Rattle.au_formed.specs.Writings as writing;
ghost use Rattle.au_names.specs.Walks as walks;
ghost use Rattle.au_judged_types.specs.Views.{judged_in};
ghost use Rattle.au_syntax.specs.Plain.{Bytes};
ghost use Rattle.au_syntax.specs.Views.{written};
ghost use Rattle.au_matching.specs.Forming as forming;
ghost use Rattle.au_types.specs.WrittenViews.{said, sense_in};
ghost use Rattle.std.specs.Prelude.{Some, not};

use crate::listing::writings_of;
use crate::writings::{Writing, place_of};
use au_base::{Memory, Name, Pos};
use au_judged_types::{Judged, judge_type};
use au_syntax::{Decl, Parsed, TypeText, Universe};
use au_types::{Scope, Sense, sense_of};
use std::alloc::Global;

/// Whether a written type isn't well formed.
fn is_failure(alloc: Global, scope: &Scope, of: &TypeText) -> Result<bool, Memory>
    ensures { IfOk result (λ ill. ill ≡ spec.is_failure (judged_in scope.now (written of.now))) }
{
    match judge_type(alloc, scope, of)? {
        Judged::Means(_) => Ok(false),
        Judged::Fails(_) => Ok(true),
    }
}

/// Whether a sense is that of a class.
fn is_class(sense: &Sense) -> bool
    ensures { (name : Bytes) → result ≡ spec.is_class (Some (said name sense.now)) }
{
    match sense {
        Sense::Unit => false,
        Sense::Bool => false,
        Sense::Int(_) => false,
        Sense::Param => false,
        Sense::Span => false,
        Sense::Static => false,
        Sense::Region => false,
        Sense::Declared(_, _) => false,
        Sense::Class(_) => true,
    }
}

/// Whether a name means no class.
fn is_no_class(scope: &Scope, name: &Name) -> bool
    ensures { result ≡ not (spec.is_class (sense_in scope.now name.now)) }
{
    match sense_of(scope, name) {
        Some(sense) => !is_class(&sense),
        None => true,
    }
}

/// Whether a universe is that of regions.
fn is_region(universe: Universe) -> bool
    ensures { result ≡ forming.wants_region universe }
{
    match universe {
        Universe::Free => false,
        Universe::Linear => false,
        Universe::AnyType => false,
        Universe::Region => true,
    }
}

/// Whether something that is written isn't well formed.
fn is_ill(alloc: Global, scope: &Scope, one: &Writing) -> Result<bool, Memory>
    ensures { IfOk result
        (λ ill. ill ≡ spec.is_ill (judged_in scope.now) (sense_in scope.now) (writing_said one.now)) }
{
    match one {
        Writing::Type(of) => is_failure(alloc, scope, of),
        Writing::Class(name) => Ok(is_no_class(scope, &name.name)),
        Writing::InUniverse(_, universe) => Ok(is_region(*universe)),
    }
}

/// The place of the first that isn't well formed.
fn first_ill(alloc: Global, scope: &Scope, list: &Vec<Writing>) -> Result<Option<Pos>, Memory>
    ensures { IfOk result
        (λ found. found ≡ spec.malformed (judged_in scope.now) (sense_in scope.now)
        (writings_said list.now.items)) }
{
    for one in list {
        if is_ill(alloc, scope, one)? {
            return Ok(Some(place_of(one)));
        }
    }
    Ok(None)
}

/// The place of the first thing that is written in a declaration and isn't well formed in a scope.
///
/// # Errors
///
/// Only for want of memory.
pub fn malformed(alloc: Global, scope: &Scope, decl: &Decl<Parsed>) -> Result<Option<Pos>, Memory>
    ensures { IfOk result
        (λ found. found ≡ spec.malformed (judged_in scope.now) (sense_in scope.now)
        (writing.writings (walks.written decl.now))) }
{
    let list = writings_of(alloc, decl)?;
    first_ill(alloc, scope, &list)
}
