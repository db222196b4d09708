//! Expressions without operands and names.

ghost use Rattle.au_noting.specs.Giving.{Gives};
ghost use Rattle.au_noting.specs.Modes.{wanted};
ghost use Rattle.au_noting_expressions.specs.Leaves.{negative_noted, nil_noted, number_noted, text_noted};
ghost use Rattle.au_noting_expressions.specs.Leaves.{truth_noted};
ghost use Rattle.au_sights.specs.contracts.noted.NotedPhase.TheImpl.{ghosts as noted};
ghost use Rattle.au_syntax.specs.contracts.parsed.ParsedPhase.TheImpl.{ghosts as parsed};
ghost use Rattle.au_syntax.specs.Views.{expression, node};

use crate::fixed::{text_note, truth_note, unit_note};
use crate::operands::noted_site;
use au_base::Text;
use au_noting::Fault;
use au_noting::nodes::{literal_note, negative_note};
use au_sights::Noted;
use au_syntax::{Expr, Literal, Parsed, Site};
use au_types::Ty;
use std::alloc::Global;

/// An integer literal.
///
/// # Errors
///
/// The limit or the clause that fails.
pub fn note_number(
    alloc: Global,
    mode: Option<&Ty>,
    site: &Site<Parsed>,
    literal: &Literal,
) -> Result<Expr<Noted>, Fault>
    ensures { Gives (expression noted) result
        (number_noted (node parsed site.now) literal.now (wanted mode.entry)) }
{
    let note = literal_note(alloc, mode, literal.value)?;
    Ok(Expr::Number(noted_site(site, note), *literal))
}

/// An integer literal behind a sign.
///
/// # Errors
///
/// The limit or the clause that fails.
pub fn note_negative(
    alloc: Global,
    mode: Option<&Ty>,
    site: &Site<Parsed>,
    literal: &Literal,
) -> Result<Expr<Noted>, Fault>
    ensures { Gives (expression noted) result
        (negative_noted (node parsed site.now) literal.now (wanted mode.entry)) }
{
    let note = negative_note(alloc, mode, literal.value)?;
    Ok(Expr::Negative(noted_site(site, note), *literal))
}

/// A text.
///
/// # Errors
///
/// The limit or the clause that fails.
pub fn note_text(
    alloc: Global,
    mode: Option<&Ty>,
    site: &Site<Parsed>,
    text: &Text,
) -> Result<Expr<Noted>, Fault>
    ensures { Gives (expression noted) result
        (text_noted (node parsed site.now) text.now (wanted mode.entry)) }
{
    let note = text_note(alloc, mode)?;
    let text = text.copy(alloc)?;
    Ok(Expr::Text(noted_site(site, note), text))
}

/// `true` or `false`.
///
/// # Errors
///
/// The limit or the clause that fails.
pub fn note_truth(
    alloc: Global,
    mode: Option<&Ty>,
    site: &Site<Parsed>,
    truth: bool,
) -> Result<Expr<Noted>, Fault>
    ensures { Gives (expression noted) result
        (truth_noted (node parsed site.now) truth (wanted mode.entry)) }
{
    let note = truth_note(alloc, mode)?;
    Ok(Expr::Bool(noted_site(site, note), truth))
}

/// `nil`.
///
/// # Errors
///
/// The limit or the clause that fails.
pub fn note_nil(alloc: Global, mode: Option<&Ty>, site: &Site<Parsed>) -> Result<Expr<Noted>, Fault>
    ensures { Gives (expression noted) result (nil_noted (node parsed site.now) (wanted mode.entry)) }
{
    let note = unit_note(alloc, mode)?;
    Ok(Expr::Nil(noted_site(site, note)))
}
