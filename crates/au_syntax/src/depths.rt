//! How deep expressions are nested. A deeper one than can be counted is counted up to 2^32 - 1.

ghost use Rattle.std.specs.Prelude.{◌≡◌, ◌+◌, max};
ghost use Rattle.au_syntax.specs.Views.{expression, expression_all, argument_all};
ghost use Rattle.au_syntax.specs.Plain.{plain_expression, plain_expressions, plain_arguments};
ghost use Rattle.au_syntax.specs.Depths as spec;
ghost use Rattle.au_syntax.specs.Depths.{counted};

use crate::expressions::{Argument, Expr};
use crate::phases::Phase;

/// One more.
fn one_more(depth: u32) -> u32
    ensures { result ≡ counted (1 + depth) }
{
    depth.saturating_add(1)
}

/// The greater of two.
fn deeper(one: u32, other: u32) -> u32
    ensures { result ≡ max one other }
{
    if one < other { other } else { one }
}

/// The nesting of an expression.
#[tactic(auto, using(crate::proofs::ExpressionLemmas::expression_steps, std::proofs::lemmas::Grind::common_steps))]
#[cycle(expression_depth)]
pub fn expression_depth<P: Phase>(expr: &Expr<P>) -> u32
    ensures { result ≡ counted (spec.expression_depth
        (plain_expression P.name_bytes (expression P.Phase expr.now))) }
{
    match expr {
        Expr::Number(_, _) => 1,
        Expr::Negative(_, _) => 1,
        Expr::Text(_, _) => 1,
        Expr::Bool(_, _) => 1,
        Expr::Nil(_) => 1,
        Expr::Path(_, _, _) => 1,
        Expr::Arrow(_, _, _) => 1,
        Expr::Borrow(_, _, _) => 1,
        Expr::BorrowPart(_, _, _) => 1,
        Expr::Call(_, _, arguments, _) => one_more(expressions_depth(arguments)),
        Expr::NamedCall(_, _, arguments, _) => one_more(arguments_depth(arguments)),
        Expr::Parenthesized(_, inner) => one_more(expression_depth(inner)),
        Expr::Dereference(_, inner) => one_more(expression_depth(inner)),
        Expr::Not(_, inner) => one_more(expression_depth(inner)),
        Expr::Typed(_, inner, _) => one_more(expression_depth(inner)),
        Expr::Binary(_, _, first, second) => {
            one_more(deeper(expression_depth(first), expression_depth(second)))
        }
        Expr::If(_, test, first, second) => {
            let branches = deeper(expression_depth(first), expression_depth(second));
            one_more(deeper(expression_depth(test), branches))
        }
    }
}

/// The nesting of the deepest of some expressions, 0 where there is none.
#[tactic(auto, using(crate::proofs::ExpressionLemmas::expression_steps))]
#[cycle(expression_depth)]
fn expressions_depth<P: Phase>(exprs: &Vec<Expr<P>>) -> u32
    ensures { result ≡ counted (spec.expressions_depth
        (plain_expressions P.name_bytes (expression_all P.Phase exprs.now.items))) }
{
    let mut deepest = 0;
    for one in exprs {
        let depth = expression_depth(one);
        deepest = deeper(deepest, depth);
    }
    deepest
}

/// The nesting of the deepest of some named arguments.
#[tactic(auto, using(crate::proofs::ExpressionLemmas::expression_steps))]
#[cycle(expression_depth)]
fn arguments_depth<P: Phase>(arguments: &Vec<Argument<P>>) -> u32
    ensures { result ≡ counted (spec.arguments_depth
        (plain_arguments P.name_bytes (argument_all P.Phase arguments.now.items))) }
{
    let mut deepest = 0;
    for one in arguments {
        let depth = argument_depth(one);
        deepest = deeper(deepest, depth);
    }
    deepest
}

/// The nesting of a named argument.
#[cycle(expression_depth)]
fn argument_depth<P: Phase>(argument: &Argument<P>) -> u32
    ensures { result ≡ counted (spec.expression_depth
        (plain_expression P.name_bytes (expression P.Phase argument.now.value))) }
{
    expression_depth(&argument.value)
}
