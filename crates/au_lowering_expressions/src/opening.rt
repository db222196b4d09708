//! Whether an expression opens a borrow.

ghost use Rattle.std.specs.Prelude.{◌≡◌};
ghost use Rattle.au_closed_trees.specs.contracts.phase.ClosedTreesPhase.TheImpl.{ghosts as closed};
ghost use Rattle.au_lowered.specs.Expressions as spec;
ghost use Rattle.au_syntax.specs.Views.{argument_all, expression, expression_all};

use au_closed_trees::ClosedTrees;
use au_syntax::{Argument, Expr};

/// Whether a part of an expression opens a borrow.
#[tactic(auto, using(au_syntax::proofs::ExpressionLemmas::expression_steps))]
#[cycle(opens)]
pub fn opens(of: &Expr<ClosedTrees>) -> bool
    ensures { result ≡ spec.opens (expression closed of.now) }
{
    match of {
        Expr::Number(_, _) => false,
        Expr::Negative(_, _) => false,
        Expr::Text(_, _) => false,
        Expr::Bool(_, _) => false,
        Expr::Nil(_) => false,
        Expr::Path(_, _, _) => false,
        Expr::Arrow(_, _, _) => false,
        Expr::Call(_, _, arguments, _) => one_opens(arguments),
        Expr::NamedCall(_, _, arguments, _) => one_opens_named(arguments),
        Expr::Parenthesized(_, inner) => opens(inner),
        Expr::Dereference(_, inner) => opens(inner),
        Expr::Borrow(_, _, _) => true,
        Expr::BorrowPart(_, _, _) => false,
        Expr::Binary(_, _, left, right) => opens(left) || opens(right),
        Expr::Not(_, inner) => opens(inner),
        Expr::Typed(_, inner, _) => opens(inner),
        Expr::If(_, test, then, otherwise) => opens(test) || (opens(then) || opens(otherwise)),
    }
}

/// Whether one of some expressions does.
#[cycle(opens)]
fn one_opens(all: &Vec<Expr<ClosedTrees>>) -> bool
    ensures { result ≡ spec.one_opens (expression_all closed all.now.items) }
{
    for one in all {
        if opens(one) {
            return true;
        }
    }
    false
}

/// Whether a named argument does.
#[cycle(opens)]
fn argument_opens(of: &Argument<ClosedTrees>) -> bool
    ensures { result ≡ spec.opens (expression closed of.now.value) }
{
    opens(&of.value)
}

/// Whether one of some named arguments does.
#[cycle(opens)]
fn one_opens_named(all: &Vec<Argument<ClosedTrees>>) -> bool
    ensures { result ≡ spec.one_opens_named (argument_all closed all.now.items) }
{
    for one in all {
        if argument_opens(one) {
            return true;
        }
    }
    false
}
