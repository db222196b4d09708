//! What borrow statements borrow, and the references that they give.

ghost use Rattle.std.specs.Prelude.{◌≡◌, IfOk};
ghost use Rattle.std.specs.Option.{option_copied, option_map};
ghost use Rattle.au_typing.specs.Parts as parts;
ghost use Rattle.au_typing.specs.DerivationSearch as spec;
ghost use Rattle.au_judged_types.specs.Judging as judging;
ghost use Rattle.au_judgements.specs.Said.{reference_said};
ghost use Rattle.au_judgements.specs.Steps as steps;
ghost use Rattle.au_noting.specs.Giving.{Gives, Stops};
ghost use Rattle.au_noting.specs.Scopes.{scope_said};
ghost use Rattle.au_syntax.specs.Views.{written};
ghost use Rattle.au_types.specs.declared.types.Region.TheVariants.{Named};
ghost use Rattle.au_types.specs.Views.{meaning};
ghost use Rattle.au_typing.specs.Faults as faults;

use au_base::{Memory, Name};
use au_noting::faults::{other_form, unknown};
use au_noting::lookups::{variable_of, written_type};
use au_noting::nodes::of_one_type;
use au_noting::{Fault, Scope};
use au_sights::Form;
use au_syntax::{Access, BorrowMode, TypeName, TypeText};
use au_types::{Region, Ty, copy_type};
use std::alloc::Global;

/// The access that a borrow gives: `&` reads, `&!` and `&~` write.
pub fn access_of(mode: BorrowMode) -> Access
    ensures { result ≡ parts.access_of mode }
{
    match mode {
        BorrowMode::Read => Access::Read,
        BorrowMode::Write => Access::Write,
        BorrowMode::Reborrow => Access::Write,
    }
}

/// How a borrow statement without a written type borrows: `borrow` reads and `borrow!` writes.
pub fn mode_for(access: Access) -> BorrowMode
    ensures { result ≡ parts.mode_for access }
{
    match access {
        Access::Read => BorrowMode::Read,
        Access::Write => BorrowMode::Write,
    }
}

/// The type that is borrowed of a variable of a type: its own, and for `&~` the one behind a write reference.
pub fn lent(mode: BorrowMode, of: &Ty) -> Option<&Ty>
    ensures { option_map meaning (option_copied result) ≡ parts.lent mode (meaning of.now) }
{
    match mode {
        BorrowMode::Read => Some(of),
        BorrowMode::Write => Some(of),
        BorrowMode::Reborrow => lent_again(of),
    }
}

/// The type that `&~` borrows of a variable of a type: the one behind a write reference.
#[tactic(auto, using(au_types::proofs::TypeLemmas::type_steps))]
fn lent_again(of: &Ty) -> Option<&Ty>
    ensures { option_map meaning (option_copied result) ≡ parts.lent BorrowMode.Reborrow (meaning of.now) }
{
    match of {
        Ty::Write { to, .. } => Some(to),
        Ty::Unit => None,
        Ty::Bool => None,
        Ty::Int(_) => None,
        Ty::Text => None,
        Ty::Param(_) => None,
        Ty::Named { .. } => None,
        Ty::Read { .. } => None,
    }
}

/// The type that is borrowed of the variable of a name.
///
/// # Errors
///
/// That no variable has the name, or that a write reference is wanted.
pub fn judge_lent(alloc: Global, scope: &Scope, mode: BorrowMode, name: &Name) -> Result<Ty, Fault>
    ensures { Gives meaning result (spec.judge_lent (scope_said scope.now) mode name.now) }
{
    match variable_of(scope, name) {
        Some(one) => known_lent(alloc, mode, &one.of),
        None => Err(unknown(alloc, name)),
    }
}

/// The type that is borrowed of a variable of a type.
fn known_lent(alloc: Global, mode: BorrowMode, of: &Ty) -> Result<Ty, Fault>
    ensures { Gives meaning result
        (faults.known_or (faults.shape faults.write_reference_wanted) (parts.lent mode (meaning of.now))) }
{
    match lent(mode, of) {
        Some(lends) => Ok(copy_type(alloc, lends)?),
        None => Err(other_form(Form::WriteReference)),
    }
}

/// A reference to a type in a region.
#[tactic(auto, using(au_types::proofs::TypeLemmas::type_steps))]
pub(crate) fn refers(alloc: Global, access: Access, to: Ty, region: Region) -> Result<Ty, Memory>
    ensures { IfOk result (λ made. meaning made ≡ judging.refers access (meaning to) region) }
{
    let to = Box::new(alloc, to)?;
    match access {
        Access::Read => Ok(Ty::Read { to, region }),
        Access::Write => Ok(Ty::Write { to, region }),
    }
}

/// A reference to a type in the region of a name.
fn refers_in(alloc: Global, access: Access, to: Ty, region: &Name) -> Result<Ty, Memory>
    ensures { IfOk result (λ made. meaning made ≡ judging.refers access (meaning to) (Named region.now)) }
{
    let name = region.copy(alloc)?;
    refers(alloc, access, to, Region::Named(name))
}

/// The type of a borrow into a region of what is borrowed.
///
/// # Errors
///
/// Only for want of memory.
pub fn borrow_type(alloc: Global, mode: BorrowMode, region: &Name, of: &Ty) -> Result<Ty, Memory>
    ensures { IfOk result (λ made. meaning made ≡ parts.borrow_type mode region.now (meaning of.now)) }
{
    let to = copy_type(alloc, of)?;
    refers_in(alloc, access_of(mode), to, region)
}

/// The region and the type of a reference that is written into a region, which isn't in scope in the type
/// behind it.
///
/// # Errors
///
/// That a reference is wanted, or why a written type isn't well formed.
pub fn judge_reference(alloc: Global, scope: &Scope, text: &TypeText) -> Result<(Name, Ty), Fault>
    ensures { Gives reference_said result (spec.judge_reference (scope_said scope.now) (written text.now)) }
{
    match text {
        TypeText::Reference(_, access, target, region) => {
            reference_into(alloc, scope, *access, target, region)
        }
        TypeText::Named(_, _) => Err(no_reference(alloc, scope, text)),
    }
}

/// The region and the type of a reference to a written type.
fn reference_into(
    alloc: Global,
    scope: &Scope,
    access: Access,
    target: &TypeText,
    region: &TypeName,
) -> Result<(Name, Ty), Fault>
    ensures { Gives reference_said result
        (steps.reference_into (scope_said scope.now) access (written target.now) region.now.name) }
{
    let to = written_type(alloc, scope, target)?;
    Ok(with_region(alloc, access, to, &region.name)?)
}

/// A region, and a reference to a type in it.
fn with_region(alloc: Global, access: Access, to: Ty, region: &Name) -> Result<(Name, Ty), Memory>
    ensures { IfOk result (λ into. reference_said into
        ≡ (region.now, judging.refers access (meaning to) (Named region.now))) }
{
    let of = refers_in(alloc, access, to, region)?;
    let name = region.copy(alloc)?;
    Ok((name, of))
}

/// Why a written type that is no reference isn't one.
fn no_reference(alloc: Global, scope: &Scope, text: &TypeText) -> Fault
    ensures { Stops result (steps.no_reference (scope_said scope.now) (written text.now)) }
{
    match written_type(alloc, scope, text) {
        Ok(_) => other_form(Form::Reference),
        Err(fault) => fault,
    }
}

/// A written reference into a region, where it is the type of the borrow there.
///
/// # Errors
///
/// That another type is wanted.
pub fn is_of_borrow(
    alloc: Global,
    mode: BorrowMode,
    lends: &Ty,
    into: (Name, Ty),
) -> Result<(Name, Ty), Fault>
    ensures { Gives reference_said result (spec.is_of_borrow mode (meaning lends.now) (reference_said into)) }
{
    judge_same(alloc, mode, lends, &into.0, &into.1)?;
    Ok(into)
}

/// That a type is that of the borrow into a region of what is borrowed.
fn judge_same(
    alloc: Global,
    mode: BorrowMode,
    lends: &Ty,
    region: &Name,
    of: &Ty,
) -> Result<(), Fault>
    ensures { Gives (λ _. tt) result
        (steps.judge_same mode region.now (meaning lends.now) (meaning of.now)) }
{
    let goal = borrow_type(alloc, mode, region, lends)?;
    of_one_type(alloc, &goal, of)
}

/// The region and the type of a borrow statement with a written type.
///
/// # Errors
///
/// The clause that fails: what is borrowed is judged first, then the written type, then that it is the type
/// of the borrow.
pub fn judge_borrow(
    alloc: Global,
    scope: &Scope,
    text: &TypeText,
    mode: BorrowMode,
    name: &Name,
) -> Result<(Name, Ty), Fault>
    ensures { Gives reference_said result
        (spec.judge_borrow (scope_said scope.now) (written text.now) mode name.now) }
{
    let lends = judge_lent(alloc, scope, mode, name)?;
    judge_into(alloc, scope, text, mode, &lends)
}

/// The region and the type of a borrow statement with a written type, of what is borrowed.
fn judge_into(
    alloc: Global,
    scope: &Scope,
    text: &TypeText,
    mode: BorrowMode,
    lends: &Ty,
) -> Result<(Name, Ty), Fault>
    ensures { Gives reference_said result
        (steps.judge_into (scope_said scope.now) (written text.now) mode (meaning lends.now)) }
{
    let into = judge_reference(alloc, scope, text)?;
    is_of_borrow(alloc, mode, lends, into)
}
