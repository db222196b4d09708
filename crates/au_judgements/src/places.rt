//! The places of statements, and what may not follow a statement.

ghost use Rattle.std.specs.Prelude.{◌≡◌, true};
ghost use Rattle.au_typing.specs.DerivationSearch as spec;
ghost use Rattle.au_judgements.specs.Refusing.{Judges};
ghost use Rattle.au_syntax.specs.contracts.parsed.ParsedPhase.TheImpl.{ghosts as parsed};
ghost use Rattle.au_syntax.specs.Views.{statement, statement_all};

use crate::refusals::Refused;
use au_base::Pos;
use au_sights::Why;
use au_syntax::{Parsed, Phase, Stmt};

/// The place of a statement's first token.
pub fn place_of<P: Phase>(stmt: &Stmt<P>) -> Pos
    ensures { result ≡ spec.place_of (statement P.Phase stmt.now) }
{
    match stmt {
        Stmt::Skip(at) => *at,
        Stmt::Let(at, _, _, _, _) => *at,
        Stmt::Destructure(at, _, _) => *at,
        Stmt::Assign(at, _, _, _) => *at,
        Stmt::AssignThrough(at, _, _, _) => *at,
        Stmt::If(at, _) => *at,
        Stmt::IfElse(at, _, _) => *at,
        Stmt::Case(at, _, _) => *at,
        Stmt::While(at, _, _) => *at,
        Stmt::For(at, _, _, _, _) => *at,
        Stmt::Borrow(at, _, _, _, _) => *at,
        Stmt::BorrowTyped(at, _, _, _, _, _, _) => *at,
        Stmt::Call(at, _) => *at,
        Stmt::Return(at, _) => *at,
    }
}

/// That nothing follows a statement that returns on every path.
///
/// # Errors
///
/// That a statement follows one, with the place of what follows.
pub fn judge_next(has_returned: bool, rest: &[Stmt<Parsed>]) -> Result<(), Refused>
    ensures { Judges (λ _. tt) result (spec.judge_next has_returned (statement_all parsed rest.now)) }
{
    if has_returned {
        follows_nothing(rest)
    } else {
        Ok(())
    }
}

/// That no statement follows.
fn follows_nothing(rest: &[Stmt<Parsed>]) -> Result<(), Refused>
    ensures { Judges (λ _. tt) result (spec.judge_next true (statement_all parsed rest.now)) }
{
    match rest.first() {
        Some(next) => Err(Refused::Statement {
            at: place_of(next),
            cause: Why::AfterReturn,
        }),
        None => Ok(()),
    }
}
