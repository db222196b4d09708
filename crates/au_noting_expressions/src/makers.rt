//! What is made of noted operands.

ghost use Rattle.au_noting.specs.Giving.{Gives};
ghost use Rattle.au_noting.specs.Modes.{wanted};
ghost use Rattle.au_noting.specs.Scopes.{scope_said};
ghost use Rattle.au_noting_expressions.specs.Made as spec;
ghost use Rattle.au_sights.specs.contracts.noted.NotedPhase.TheImpl.{ghosts as noted};
ghost use Rattle.au_syntax.specs.contracts.parsed.ParsedPhase.TheImpl.{ghosts as parsed};
ghost use Rattle.au_syntax.specs.Views.{expression, node, written};
ghost use Rattle.au_types.specs.Views.{meaning};

use crate::fixed::truth_note;
use crate::operands::{noted_site, type_of};
use au_noting::nodes::{arithmetic_note, comparison_note, dereference_note, of_one_type};
use au_noting::rules::noted;
use au_noting::{Fault, Scope};
use au_sights::{Noted, copy_text_of_type};
use au_syntax::{BinaryOperator, Expr, Parsed, Site, TypeText};
use au_types::Ty;
use std::alloc::Global;

/// A noted expression in parentheses.
///
/// # Errors
///
/// The limit or the clause that fails.
pub fn make_parenthesized(
    alloc: Global,
    mode: Option<&Ty>,
    site: &Site<Parsed>,
    inner: Box<Expr<Noted>>,
) -> Result<Expr<Noted>, Fault>
    ensures { Gives (expression noted) result (spec.parenthesized_made
        (node parsed site.now) (wanted mode.entry) (expression noted inner.value)) }
{
    let note = noted(alloc, mode, type_of(&inner))?;
    Ok(Expr::Parenthesized(noted_site(site, note), inner))
}

/// What is copied from behind a noted reference.
///
/// # Errors
///
/// The limit or the clause that fails.
pub fn make_dereference(
    alloc: Global,
    scope: &Scope,
    mode: Option<&Ty>,
    site: &Site<Parsed>,
    inner: Box<Expr<Noted>>,
) -> Result<Expr<Noted>, Fault>
    ensures { Gives (expression noted) result (spec.dereference_made (scope_said scope.now)
        (node parsed site.now) (wanted mode.entry) (expression noted inner.value)) }
{
    let note = dereference_note(alloc, scope, mode, type_of(&inner))?;
    Ok(Expr::Dereference(noted_site(site, note), inner))
}

/// `+ - * /` of two noted operands.
///
/// # Errors
///
/// The limit or the clause that fails.
pub fn make_arithmetic(
    alloc: Global,
    mode: Option<&Ty>,
    site: &Site<Parsed>,
    op: BinaryOperator,
    first: Box<Expr<Noted>>,
    second: Box<Expr<Noted>>,
) -> Result<Expr<Noted>, Fault>
    ensures { Gives (expression noted) result (spec.arithmetic_made (node parsed site.now) op
        (wanted mode.entry) (expression noted first.value, expression noted second.value)) }
{
    of_one_type(alloc, type_of(&first), type_of(&second))?;
    let note = arithmetic_note(alloc, mode, type_of(&first))?;
    Ok(Expr::Binary(noted_site(site, note), op, first, second))
}

/// `and` or `or` of two noted operands, which are Bools.
///
/// # Errors
///
/// The limit or the clause that fails.
pub fn make_logical(
    alloc: Global,
    mode: Option<&Ty>,
    site: &Site<Parsed>,
    op: BinaryOperator,
    first: Box<Expr<Noted>>,
    second: Box<Expr<Noted>>,
) -> Result<Expr<Noted>, Fault>
    ensures { Gives (expression noted) result (spec.logical_made (node parsed site.now) op
        (wanted mode.entry) (expression noted first.value) (expression noted second.value)) }
{
    let note = truth_note(alloc, mode)?;
    Ok(Expr::Binary(noted_site(site, note), op, first, second))
}

/// A comparison of two noted operands.
///
/// # Errors
///
/// The limit or the clause that fails.
pub fn make_comparison(
    alloc: Global,
    mode: Option<&Ty>,
    site: &Site<Parsed>,
    op: BinaryOperator,
    first: Box<Expr<Noted>>,
    second: Box<Expr<Noted>>,
) -> Result<Expr<Noted>, Fault>
    ensures { Gives (expression noted) result (spec.comparison_made (node parsed site.now) op
        (wanted mode.entry) (expression noted first.value, expression noted second.value)) }
{
    let note = comparison_note(alloc, op, mode, type_of(&first), type_of(&second))?;
    Ok(Expr::Binary(noted_site(site, note), op, first, second))
}

/// `not` of a noted operand, which is a Bool.
///
/// # Errors
///
/// The limit or the clause that fails.
pub fn make_negation(
    alloc: Global,
    mode: Option<&Ty>,
    site: &Site<Parsed>,
    inner: Box<Expr<Noted>>,
) -> Result<Expr<Noted>, Fault>
    ensures { Gives (expression noted) result (spec.negation_made
        (node parsed site.now) (wanted mode.entry) (expression noted inner.value)) }
{
    let note = truth_note(alloc, mode)?;
    Ok(Expr::Not(noted_site(site, note), inner))
}

/// A noted operand with its written type, which means `of`.
///
/// # Errors
///
/// The limit or the clause that fails.
pub fn make_typed(
    alloc: Global,
    mode: Option<&Ty>,
    site: &Site<Parsed>,
    inner: Box<Expr<Noted>>,
    text: &TypeText,
    of: &Ty,
) -> Result<Expr<Noted>, Fault>
    ensures { Gives (expression noted) result (spec.typed_made (node parsed site.now)
        (wanted mode.entry) (written text.now) (meaning of.now) (expression noted inner.value)) }
{
    let note = noted(alloc, mode, of)?;
    let text = copy_text_of_type(alloc, text)?;
    Ok(Expr::Typed(noted_site(site, note), inner, text))
}

/// One of two noted operands, by a noted test.
///
/// # Errors
///
/// The limit or the clause that fails.
pub fn make_choice(
    alloc: Global,
    mode: Option<&Ty>,
    site: &Site<Parsed>,
    test: Box<Expr<Noted>>,
    then: Box<Expr<Noted>>,
    otherwise: Box<Expr<Noted>>,
) -> Result<Expr<Noted>, Fault>
    ensures { Gives (expression noted) result (spec.choice_made (node parsed site.now)
        (wanted mode.entry) (expression noted test.value)
        (expression noted then.value, expression noted otherwise.value)) }
{
    of_one_type(alloc, type_of(&then), type_of(&otherwise))?;
    let note = noted(alloc, mode, type_of(&then))?;
    Ok(Expr::If(noted_site(site, note), test, then, otherwise))
}
