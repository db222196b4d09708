//! What a type asks of the life of a variable.

ghost use Rattle.std.specs.Prelude.{◌≡◌, IfOk};
ghost use Rattle.std.specs.Option.{option_copied};
ghost use Rattle.au_lives.specs.Paths.{access_of};
ghost use Rattle.au_program_lives.specs.Scopes.{scope_said};
ghost use Rattle.au_program_lives.specs.Sorts as spec;
ghost use Rattle.au_syntax.specs.Views.{written};
ghost use Rattle.au_types.specs.Views.{meaning};

use crate::scopes::TypeScope;
use au_base::{Memory, Name};
use au_judged_types::{Judged, judge_type};
use au_lives::lives::Sort;
use au_matching::{takes, universe_of};
use au_syntax::{Access, BorrowMode, TypeText, Universe};
use au_types::Ty;
use std::alloc::Global;

/// What a type asks that isn't Free.
#[tactic(auto, using(au_types::proofs::TypeLemmas::type_steps))]
fn held_sort(of: &Ty) -> Sort
    ensures { result ≡ spec.held_sort (meaning of.now) }
{
    match of {
        Ty::Write { .. } => Sort::WriteReference,
        Ty::Read { .. } => Sort::Linear,
        Ty::Unit => Sort::Linear,
        Ty::Bool => Sort::Linear,
        Ty::Int(_) => Sort::Linear,
        Ty::Text => Sort::Linear,
        Ty::Param(_) => Sort::Linear,
        Ty::Named { .. } => Sort::Linear,
    }
}

/// Whether a type is Free in a scope.
fn is_free_in(scope: &TypeScope, of: &Ty) -> bool
    ensures { result ≡ spec.is_free_in (scope_said scope.now) (meaning of.now) }
{
    takes(Universe::Free, universe_of(scope.heads, scope.params, of))
}

/// What a type asks in a scope.
fn sort_of(scope: &TypeScope, of: &Ty) -> Sort
    ensures { result ≡ spec.sort_of (scope_said scope.now) (meaning of.now) }
{
    if is_free_in(scope, of) {
        Sort::Free
    } else {
        held_sort(of)
    }
}

/// What a written type asks in a scope.
///
/// # Errors
///
/// Only for want of memory.
pub(crate) fn written_sort(
    alloc: Global,
    scope: &TypeScope,
    text: &TypeText,
) -> Result<Sort, Memory>
    ensures { IfOk result (λ sort. sort ≡ spec.written_sort (scope_said scope.now) (written text.now)) }
{
    match judge_type(alloc, &scope.written(), text)? {
        Judged::Means(of) => Ok(sort_of(scope, &of)),
        Judged::Fails(_) => Ok(Sort::Linear),
    }
}

/// What a reference asks.
pub(crate) fn reference_sort(access: Access) -> Sort
    ensures { result ≡ spec.reference_sort access }
{
    match access {
        Access::Read => Sort::Free,
        Access::Write => Sort::WriteReference,
    }
}

/// What the reference of a borrow asks.
pub(crate) fn borrow_sort(mode: BorrowMode) -> Sort
    ensures { result ≡ spec.reference_sort (access_of mode) }
{
    match mode {
        BorrowMode::Read => Sort::Free,
        BorrowMode::Write => Sort::WriteReference,
        BorrowMode::Reborrow => Sort::WriteReference,
    }
}

/// The region of a written reference, if it is one.
#[tactic(auto, using(au_syntax::proofs::TypeLemmas::type_steps))]
pub(crate) fn region_written(text: &TypeText) -> Option<&Name>
    ensures { option_copied result ≡ spec.region_written (written text.now) }
{
    match text {
        TypeText::Reference(_, _, _, region) => Some(&region.name),
        TypeText::Named(_, _) => None,
    }
}
