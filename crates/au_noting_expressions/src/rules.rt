//! What noting an expression answers, in the words of the rules.

ghost use Rattle.std.specs.Prelude.{◌≡◌, IfOk, MatchResult};
ghost use Rattle.au_noting.specs.declared.faults.Fault.TheVariants.{Memory};
ghost use Rattle.au_noting.specs.Giving.{Gives};
ghost use Rattle.au_noting.specs.Modes.{wanted};
ghost use Rattle.au_noting.specs.Scopes.{scope_said};
ghost use Rattle.au_sights.specs.contracts.noted.NotedPhase.TheImpl.{ghosts as noted};
ghost use Rattle.au_syntax.specs.contracts.parsed.ParsedPhase.TheImpl.{ghosts as parsed};
ghost use Rattle.au_syntax.specs.Views.{expression};
ghost use Rattle.au_typing.specs.Good.{IsNoting};
ghost use Rattle.au_typing.specs.Notes.{NotedExpression};
ghost use Rattle.au_typing.specs.Search.{note_expression};

use crate::noting::note;
use au_noting::{Fault, Scope};
use au_sights::Noted;
use au_syntax::{Expr, Parsed};
use au_types::Ty;
use std::alloc::Global;

/// The one good noting of an expression in a scope, where a type is wanted of it or none is.
///
/// # Errors
///
/// The limit or the clause that fails first; unless memory runs out, there is no good noting then.
pub fn note_well(
    alloc: Global,
    scope: &Scope,
    mode: Option<&Ty>,
    e: &Expr<Parsed>,
) -> Result<Expr<Noted>, Fault>
    ensures good { IfOk result (λ made. IsNoting (scope_said scope.now) (expression parsed e.now)
        (wanted mode.entry) (expression noted made)) }
    ensures only { (a : NotedExpression)
        → IsNoting (scope_said scope.now) (expression parsed e.now) (wanted mode.entry) a
        → MatchResult result (λ made. expression noted made ≡ a) (λ fault. fault ≡ Memory) }
    ensures gives { Gives (expression noted) result
        (note_expression (scope_said scope.now) (expression parsed e.now) (wanted mode.entry)) }
{
    note(alloc, scope, mode, e)
}
