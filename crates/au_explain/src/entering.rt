//! The types of the variables of `for` and of borrow statements.

ghost use Rattle.std.specs.Prelude.{◌≡◌, IfOk, Ok};
ghost use Rattle.std.specs.Option.{option_map};
ghost use Rattle.au_typing.specs.DerivationSearch as search;
ghost use Rattle.au_judgements.specs.Said.{reference_said};
ghost use Rattle.au_explain.specs.Said.{expression_said, name_said};
ghost use Rattle.au_explain.specs.Variables.{bounds_type, told};
ghost use Rattle.au_noting.specs.Giving.{Gives};
ghost use Rattle.au_noting.specs.Scopes.{scope_said};
ghost use Rattle.au_noting_programs.specs.Entering as entering;
ghost use Rattle.au_syntax.specs.Views.{written};
ghost use Rattle.au_types.specs.Views.{meaning};
ghost use Rattle.au_typing.specs.Faults as faults;
ghost use Rattle.au_typing.specs.Rules as rules;

use au_base::{Memory, Name};
use au_judgements::borrowing::{borrow_type, judge_borrow, judge_lent, mode_for};
use au_noting::faults::other_form;
use au_noting::nodes::of_one_type;
use au_noting::rules::is_integer;
use au_noting::{Fault, Scope};
use au_noting_programs::{paired, type_of};
use au_sights::Form;
use au_syntax::{Access, BorrowMode, BorrowNames, Expr, Ident, Parsed, TypeText};
use au_types::{Ty, copy_type};
use std::alloc::Global;

/// The type of the bounds of a `for`.
fn bounds_type_or(
    alloc: Global,
    scope: &Scope,
    first: &Expr<Parsed>,
    last: &Expr<Parsed>,
) -> Result<Ty, Fault>
    ensures { Gives meaning result
        (bounds_type (scope_said scope.now) (expression_said first.now) (expression_said last.now)) }
{
    let (first, last) = paired(alloc, scope, None, first, last)?;
    of_one_type(alloc, type_of(&first), type_of(&last))?;
    integer_type(alloc, type_of(&first))
}

/// A type, which is one of integers.
fn integer_type(alloc: Global, of: &Ty) -> Result<Ty, Fault>
    ensures { Gives meaning result (faults.check (rules.is_integer (meaning of.now))
        (faults.shape faults.integer_wanted) (Ok (meaning of.now))) }
{
    if is_integer(of) {
        Ok(copy_type(alloc, of)?)
    } else {
        Err(other_form(Form::Integer))
    }
}

/// The type of the bounds of a `for`, if they are well typed.
pub(crate) fn bounds_type(
    alloc: Global,
    scope: &Scope,
    first: &Expr<Parsed>,
    last: &Expr<Parsed>,
) -> Result<Option<Ty>, Memory>
    ensures { IfOk result (λ found. option_map meaning found
        ≡ told (bounds_type (scope_said scope.now) (expression_said first.now) (expression_said last.now))) }
{
    match bounds_type_or(alloc, scope, first, last) {
        Ok(of) => Ok(Some(of)),
        Err(Fault::Why(_)) => Ok(None),
        Err(Fault::Limit(_)) => Ok(None),
        Err(Fault::Memory) => Err(Memory),
    }
}

/// The type of the reference of a borrow statement without a written type.
fn lent_reference_or(
    alloc: Global,
    scope: &Scope,
    kind: Access,
    names: &BorrowNames<Parsed>,
) -> Result<Ty, Fault>
    ensures { Gives meaning result (entering.lent_reference (scope_said scope.now) kind
        (name_said names.now.variable).name (name_said names.now.region).name) }
{
    let mode = mode_for(kind);
    let lends = judge_lent(alloc, scope, mode, &names.variable.name)?;
    Ok(borrow_type(alloc, mode, &names.region.name, &lends)?)
}

/// The type of the reference of a borrow statement without a written type, if it is well typed.
pub(crate) fn lent_reference(
    alloc: Global,
    scope: &Scope,
    kind: Access,
    names: &BorrowNames<Parsed>,
) -> Result<Option<Ty>, Memory>
    ensures { IfOk result (λ found. option_map meaning found
        ≡ told (entering.lent_reference (scope_said scope.now) kind
        (name_said names.now.variable).name (name_said names.now.region).name)) }
{
    match lent_reference_or(alloc, scope, kind, names) {
        Ok(of) => Ok(Some(of)),
        Err(Fault::Why(_)) => Ok(None),
        Err(Fault::Limit(_)) => Ok(None),
        Err(Fault::Memory) => Err(Memory),
    }
}

/// The region and the type of the reference of a borrow statement with a written type, if it is well typed.
pub(crate) fn typed_reference(
    alloc: Global,
    scope: &Scope,
    text: &TypeText,
    mode: BorrowMode,
    of: &Ident<Parsed>,
) -> Result<Option<(Name, Ty)>, Memory>
    ensures { IfOk result (λ found. option_map reference_said found
        ≡ told (search.judge_borrow (scope_said scope.now) (written text.now) mode (name_said of.now).name)) }
{
    match judge_borrow(alloc, scope, text, mode, &of.name) {
        Ok(into) => Ok(Some(into)),
        Err(Fault::Why(_)) => Ok(None),
        Err(Fault::Limit(_)) => Ok(None),
        Err(Fault::Memory) => Err(Memory),
    }
}
