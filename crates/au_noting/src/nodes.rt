//! The notes of single nodes.

ghost use Rattle.std.specs.Prelude.{◌≡◌, IfOk, neg_ℤ};
ghost use Rattle.au_ints.specs.Ranges.{is_of_kind};
ghost use Rattle.au_sights.specs.Views.{note};
ghost use Rattle.au_noting.specs.Giving.{Gives, Lets};
ghost use Rattle.au_noting.specs.Modes.{wanted};
ghost use Rattle.au_noting.specs.Nodes as node;
ghost use Rattle.au_noting.specs.Said.{fields_said};
ghost use Rattle.au_noting.specs.Scopes.{scope_said};
ghost use Rattle.au_types.specs.Same.{same};
ghost use Rattle.au_types.specs.Types.{integer, reads, writes};
ghost use Rattle.au_types.specs.declared.types.Region.TheVariants.{Anonymous};
ghost use Rattle.au_types.specs.Views.{meaning};
ghost use Rattle.au_typing.specs.Faults as faults;
ghost use Rattle.au_typing.specs.Rules as rules;
ghost use Rattle.au_typing.specs.Search as spec;

use crate::faults::{Fault, different, not_free, other_form};
use crate::lookups::{is_free_in, known_behind, record_part};
use crate::rules::{is_compared, is_integer, limit_among, literal_kind, noted, wanted_note};
use crate::scopes::Scope;
use au_base::{IntKind, Memory};
use au_ints::convert;
use au_sights::{Form, Notes};
use au_syntax::{BinaryOperator, BorrowMode, Ident, Parsed};
use au_types::{Region, Ty, copy_region, copy_type, is_same};
use std::alloc::Global;

/// The note of an integer literal: that an integer is wanted is judged before the range.
///
/// # Errors
///
/// The limit or the clause that fails.
pub fn literal_note(alloc: Global, mode: Option<&Ty>, value: i128) -> Result<Notes, Fault>
    ensures { Gives note result (spec.literal_note (wanted mode.entry) value) }
{
    let kind = literal_kind(mode);
    let made = kind_note(alloc, mode, kind)?;
    if is_in_range(kind, value) {
        Ok(made)
    } else {
        Err(other_form(Form::Range(kind)))
    }
}

/// The note of an integer of a kind.
fn kind_note(alloc: Global, mode: Option<&Ty>, kind: IntKind) -> Result<Notes, Fault>
    ensures { Gives note result (rules.noted (wanted mode.entry) (integer kind)) }
{
    noted(alloc, mode, &Ty::Int(kind))
}

/// Whether a number lies in the range of a kind.
fn is_in_range(kind: IntKind, value: i128) -> bool
    ensures { result ≡ is_of_kind kind value }
{
    convert(kind, value).is_some()
}

/// The note of an integer literal behind a sign.
///
/// # Errors
///
/// The limit or the clause that fails.
pub fn negative_note(alloc: Global, mode: Option<&Ty>, value: i128) -> Result<Notes, Fault>
    ensures { Gives note result (spec.literal_note (wanted mode.entry) (neg_ℤ value)) }
{
    if value == i128::MIN {
        return literal_note(alloc, mode, i128::MAX);
    }
    literal_note(alloc, mode, -value)
}

/// The note of `+ - * /` of operands of a type.
///
/// # Errors
///
/// The limit or the clause that fails.
pub fn arithmetic_note(alloc: Global, mode: Option<&Ty>, of: &Ty) -> Result<Notes, Fault>
    ensures { Gives note result (spec.arithmetic_note (wanted mode.entry) (meaning of.now)) }
{
    if let Some(limit) = limit_among(mode, of, &[]) {
        return Err(Fault::Limit(limit));
    }
    if is_integer(of) {
        wanted_note(alloc, mode, of)
    } else {
        Err(other_form(Form::Integer))
    }
}

/// That two operands have one type.
///
/// # Errors
///
/// That the second has another type.
pub fn of_one_type(alloc: Global, first: &Ty, second: &Ty) -> Result<(), Fault>
    ensures { Lets result (same (meaning first.now) (meaning second.now))
        (faults.different (meaning first.now) (meaning second.now)) }
{
    if is_same(first, second) {
        Ok(())
    } else {
        Err(different(alloc, first, second))
    }
}

/// The note of a comparison of two operands of these types.
///
/// # Errors
///
/// The limit or the clause that fails.
pub fn comparison_note(
    alloc: Global,
    op: BinaryOperator,
    mode: Option<&Ty>,
    first: &Ty,
    second: &Ty,
) -> Result<Notes, Fault>
    ensures { Gives note result
        (node.compared_note op (wanted mode.entry) (meaning first.now) (meaning second.now)) }
{
    if let Some(limit) = limit_among(mode, &Ty::Bool, &[]) {
        return Err(Fault::Limit(limit));
    }
    if is_same(first, second) {
        comparable_note(alloc, op, mode, first)
    } else {
        Err(different(alloc, first, second))
    }
}

/// The note of a comparison of two operands of one type.
fn comparable_note(
    alloc: Global,
    op: BinaryOperator,
    mode: Option<&Ty>,
    of: &Ty,
) -> Result<Notes, Fault>
    ensures { Gives note result (node.comparable_note op (wanted mode.entry) (meaning of.now)) }
{
    if is_compared(op, of) {
        wanted_note(alloc, mode, &Ty::Bool)
    } else {
        Err(other_form(Form::Integer))
    }
}

/// The type of what `&`, `&!` or `&~` gives of a variable of a type.
///
/// # Errors
///
/// That a write reference is wanted.
pub fn borrowed(alloc: Global, kind: BorrowMode, of: &Ty) -> Result<Ty, Fault>
    ensures { Gives meaning result (spec.borrowed kind (meaning of.now)) }
{
    match kind {
        BorrowMode::Read => Ok(reference(alloc, copy_type(alloc, of)?, Region::Anonymous)?),
        BorrowMode::Write => Ok(write_reference(alloc, of)?),
        BorrowMode::Reborrow => borrowed_again(alloc, of),
    }
}

/// A reference that reads.
#[tactic(auto, using(au_types::proofs::TypeLemmas::type_steps))]
fn reference(alloc: Global, to: Ty, region: Region) -> Result<Ty, Memory>
    ensures { IfOk result (λ made. meaning made ≡ reads (meaning to) region) }
{
    let to = Box::new(alloc, to)?;
    Ok(Ty::Read { to, region })
}

/// A write reference to a type, for the statement alone.
#[tactic(auto, using(au_types::proofs::TypeLemmas::type_steps))]
fn write_reference(alloc: Global, of: &Ty) -> Result<Ty, Memory>
    ensures { IfOk result (λ made. meaning made ≡ writes (meaning of.now) Anonymous) }
{
    let to = Box::new(alloc, copy_type(alloc, of)?)?;
    Ok(Ty::Write {
        to,
        region: Region::Anonymous,
    })
}

/// The type of what `&~` gives of a variable of a type.
#[tactic(auto, using(au_types::proofs::TypeLemmas::type_steps))]
fn borrowed_again(alloc: Global, of: &Ty) -> Result<Ty, Fault>
    ensures { Gives meaning result (spec.borrowed_again (meaning of.now)) }
{
    match of {
        Ty::Write { to, .. } => Ok(write_reference(alloc, to)?),
        Ty::Unit => Err(other_form(Form::WriteReference)),
        Ty::Bool => Err(other_form(Form::WriteReference)),
        Ty::Int(_) => Err(other_form(Form::WriteReference)),
        Ty::Text => Err(other_form(Form::WriteReference)),
        Ty::Param(_) => Err(other_form(Form::WriteReference)),
        Ty::Named { .. } => Err(other_form(Form::WriteReference)),
        Ty::Read { .. } => Err(other_form(Form::WriteReference)),
    }
}

/// The note of what is read, of this type.
///
/// # Errors
///
/// The limit or the clause that fails.
pub fn read_note(alloc: Global, scope: &Scope, mode: Option<&Ty>, of: &Ty) -> Result<Notes, Fault>
    ensures { Gives note result (spec.read_note (scope_said scope.now) (wanted mode.entry) (meaning of.now)) }
{
    if let Some(limit) = limit_among(mode, of, &[]) {
        return Err(Fault::Limit(limit));
    }
    if is_free_in(scope, of) {
        wanted_note(alloc, mode, of)
    } else {
        Err(not_free(alloc, of))
    }
}

/// The note of a part of a record that is read.
///
/// # Errors
///
/// The limit or the clause that fails.
pub fn part_note(
    alloc: Global,
    scope: &Scope,
    mode: Option<&Ty>,
    of: &Ty,
    path: &[Ident<Parsed>],
) -> Result<Notes, Fault>
    ensures { Gives note result (spec.part_note (scope_said scope.now)
        (wanted mode.entry) (meaning of.now) (fields_said path.now)) }
{
    let part = record_part(alloc, scope, of, path)?;
    read_note(alloc, scope, mode, &part)
}

/// The note of a name of a type, or of a part of it.
///
/// # Errors
///
/// The limit or the clause that fails.
pub fn path_note(
    alloc: Global,
    scope: &Scope,
    mode: Option<&Ty>,
    path: &[Ident<Parsed>],
    of: &Ty,
) -> Result<Notes, Fault>
    ensures { Gives note result (spec.path_note (scope_said scope.now)
        (wanted mode.entry) (fields_said path.now) (meaning of.now)) }
{
    if path.is_empty() {
        noted(alloc, mode, of)
    } else {
        part_note(alloc, scope, mode, of, path)
    }
}

/// The note of a part behind a reference of a type.
///
/// # Errors
///
/// The limit or the clause that fails.
pub fn arrow_note(
    alloc: Global,
    scope: &Scope,
    mode: Option<&Ty>,
    path: &[Ident<Parsed>],
    of: &Ty,
) -> Result<Notes, Fault>
    ensures { Gives note result (spec.arrow_note (scope_said scope.now)
        (wanted mode.entry) (fields_said path.now) (meaning of.now)) }
{
    let target = known_behind(of)?;
    part_note(alloc, scope, mode, target, path)
}

/// The note of what is copied from behind a reference of a type.
///
/// # Errors
///
/// The limit or the clause that fails.
pub fn dereference_note(
    alloc: Global,
    scope: &Scope,
    mode: Option<&Ty>,
    of: &Ty,
) -> Result<Notes, Fault>
    ensures { Gives note result
        (spec.dereference_note (scope_said scope.now) (wanted mode.entry) (meaning of.now)) }
{
    let target = known_behind(of)?;
    read_note(alloc, scope, mode, target)
}

/// The note of a reference to a part, from a reference of a type.
///
/// # Errors
///
/// The limit or the clause that fails.
#[tactic(auto, using(au_types::proofs::TypeLemmas::type_steps))]
pub fn borrow_part_note(
    alloc: Global,
    scope: &Scope,
    mode: Option<&Ty>,
    path: &[Ident<Parsed>],
    of: &Ty,
) -> Result<Notes, Fault>
    ensures { Gives note result (spec.borrow_part_note (scope_said scope.now)
        (wanted mode.entry) (fields_said path.now) (meaning of.now)) }
{
    match of {
        Ty::Read { to, region } => {
            let part = record_part(alloc, scope, to, path)?;
            noted_reference(alloc, mode, part, region)
        }
        Ty::Unit => Err(other_form(Form::Reference)),
        Ty::Bool => Err(other_form(Form::Reference)),
        Ty::Int(_) => Err(other_form(Form::Reference)),
        Ty::Text => Err(other_form(Form::Reference)),
        Ty::Param(_) => Err(other_form(Form::Reference)),
        Ty::Named { .. } => Err(other_form(Form::Reference)),
        Ty::Write { .. } => Err(other_form(Form::Reference)),
    }
}

/// The note of a reference that reads, where it passes no limit and is the wanted one.
fn noted_reference(
    alloc: Global,
    mode: Option<&Ty>,
    to: Ty,
    region: &Region,
) -> Result<Notes, Fault>
    ensures { Gives note result (rules.noted (wanted mode.entry) (reads (meaning to) region.now)) }
{
    let region = copy_region(alloc, region)?;
    let of = reference(alloc, to, region)?;
    noted(alloc, mode, &of)
}
