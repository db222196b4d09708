//! Noted operands: their types, and what is wanted of them.

ghost use Rattle.std.specs.Prelude.{◌≡◌, IfOk};
ghost use Rattle.au_sights.specs.contracts.noted.NotedPhase.TheImpl.{ghosts as noted};
ghost use Rattle.au_sights.specs.Views.{note};
ghost use Rattle.au_syntax.specs.contracts.parsed.ParsedPhase.TheImpl.{ghosts as parsed};
ghost use Rattle.au_syntax.specs.Views.{expression, node};
ghost use Rattle.au_types.specs.Types as mean;
ghost use Rattle.au_types.specs.Views.{meaning};
ghost use Rattle.au_typing.specs.Notes as spec;

use au_base::Memory;
use au_sights::{Noted, Notes};
use au_syntax::{Expr, Parsed, Site};
use au_types::Ty;
use std::alloc::Global;

/// The place and the note of a noted expression.
#[tactic(auto, using(au_syntax::proofs::ExpressionLemmas::expression_steps))]
fn site_of(of: &Expr<Noted>) -> &Site<Noted>
    ensures { node noted result.now ≡ spec.node_of (expression noted of.now) }
{
    match of {
        Expr::Number(site, _) => site,
        Expr::Negative(site, _) => site,
        Expr::Text(site, _) => site,
        Expr::Bool(site, _) => site,
        Expr::Nil(site) => site,
        Expr::Path(site, _, _) => site,
        Expr::Arrow(site, _, _) => site,
        Expr::Call(site, _, _, _) => site,
        Expr::NamedCall(site, _, _, _) => site,
        Expr::Parenthesized(site, _) => site,
        Expr::Dereference(site, _) => site,
        Expr::Borrow(site, _, _) => site,
        Expr::BorrowPart(site, _, _) => site,
        Expr::Binary(site, _, _, _) => site,
        Expr::Not(site, _) => site,
        Expr::Typed(site, _, _) => site,
        Expr::If(site, _, _, _) => site,
    }
}

/// The type that is noted at an expression.
pub fn type_of(of: &Expr<Noted>) -> &Ty
    ensures { meaning result.now ≡ spec.type_of (expression noted of.now) }
{
    &site_of(of).note.of
}

/// The type `Bool`, which is wanted of a test.
pub fn truth() -> Ty
    ensures { meaning result ≡ mean.truth }
{
    Ty::Bool
}

/// A noted expression in a box.
///
/// # Errors
///
/// Only for want of memory.
pub fn boxed(alloc: Global, of: Expr<Noted>) -> Result<Box<Expr<Noted>>, Memory>
    ensures { IfOk result (λ made. expression noted made.value ≡ expression noted of) }
{
    Ok(Box::new(alloc, of)?)
}

/// A note at the place of an expression.
pub(crate) fn noted_site(site: &Site<Parsed>, notes: Notes) -> Site<Noted>
    ensures { node noted result ≡ spec.noted_at (node parsed site.now) (note notes) }
{
    Site {
        at: site.at,
        note: notes,
    }
}
