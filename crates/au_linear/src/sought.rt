//! Where an expression consumes a variable first.

ghost use Rattle.std.specs.Prelude.{◌≡◌, map, [], if◌then◌else◌};
ghost use Rattle.std.specs.Str.{bytes_eq};
ghost use Rattle.au_syntax.specs.Views.{placed};
ghost use Rattle.au_syntax.specs.Plain.{plain_name};
ghost use Rattle.au_lives.specs.Mentions as mentions;
ghost use Rattle.au_lives.specs.Places.{place_of, consumed_at, consumed_at_all, consumed_at_arguments};
ghost use Rattle.au_lives.specs.Places.{parted_at, parted_at_all, parted_at_arguments};
ghost use Rattle.au_paths.specs.Seen.{seen_name, seen_expression, seen_expressions, seen_arguments};
ghost use Rattle.au_paths.specs.Standing.{hold_of};
ghost use Rattle.au_linear.specs.Firsts.{first_of, sought_at};

use au_base::{Name, Pos};
use au_lives::is_variable;
use au_lives::lives::Sort;
use au_paths::{Hold, is_free, is_named};
use au_syntax::{Argument, BinaryOperator, Expr, Ident, Phase};

/// Which consumptions of a variable are sought.
#[derive(Clone, Copy)]
pub enum Sought {
    /// All.
    Consumption,
    /// Those in a branch of a conditional expression or in the right side of `and` or `or`.
    Parting,
}

/// The first place where an expression consumes a variable, by whether the variable's type is Free.
#[tactic(auto, using(crate::proofs::FirstLemmas::first_steps, au_syntax::proofs::ExpressionLemmas::expression_steps))]
#[cycle(consumed)]
fn first_consumed<P: Phase>(x: &Name, free: bool, e: &Expr<P>) -> Option<Pos>
    ensures { result ≡ first_of (consumed_at x.now free (seen_expression P.Phase e.now)) }
{
    match e {
        Expr::Path(site, name, fields) => place_of_path(x, free, site.at, name, fields),
        Expr::Call(_, _, arguments, _) => first_consumed_of_all(x, free, arguments),
        Expr::NamedCall(_, _, arguments, _) => first_consumed_of_arguments(x, free, arguments),
        Expr::Parenthesized(_, inner) => first_consumed(x, free, inner),
        Expr::Dereference(_, inner) => first_consumed(x, free || is_variable(inner), inner),
        Expr::Not(_, inner) => first_consumed(x, free, inner),
        Expr::Typed(_, inner, _) => first_consumed(x, free, inner),
        Expr::Binary(_, _, first, second) => match first_consumed(x, free, first) {
            Some(at) => Some(at),
            None => first_consumed(x, free, second),
        },
        Expr::If(_, test, first, second) => match first_consumed(x, free, test) {
            Some(at) => Some(at),
            None => match first_consumed(x, free, first) {
                Some(at) => Some(at),
                None => first_consumed(x, free, second),
            },
        },
        Expr::Number(_, _) => None,
        Expr::Negative(_, _) => None,
        Expr::Text(_, _) => None,
        Expr::Bool(_, _) => None,
        Expr::Nil(_) => None,
        Expr::Arrow(_, _, _) => None,
        Expr::Borrow(_, _, _) => None,
        Expr::BorrowPart(_, _, _) => None,
    }
}

/// The first place where some expressions consume a variable.
#[cycle(consumed)]
fn first_consumed_of_all<P: Phase>(x: &Name, free: bool, exprs: &Vec<Expr<P>>) -> Option<Pos>
    ensures { result ≡ first_of (consumed_at_all x.now free (seen_expressions P.Phase exprs.now.items)) }
{
    for one in exprs {
        if let Some(at) = first_consumed(x, free, one) {
            return Some(at);
        }
    }
    None
}

/// The first place where some named arguments consume a variable.
#[cycle(consumed)]
fn first_consumed_of_arguments<P: Phase>(
    x: &Name,
    free: bool,
    arguments: &Vec<Argument<P>>,
) -> Option<Pos>
    ensures { result
        ≡ first_of (consumed_at_arguments x.now free (seen_arguments P.Phase arguments.now.items)) }
{
    for one in arguments {
        if let Some(at) = first_consumed_of_argument(x, free, one) {
            return Some(at);
        }
    }
    None
}

/// The first place where a named argument consumes a variable.
#[cycle(consumed)]
fn first_consumed_of_argument<P: Phase>(x: &Name, free: bool, argument: &Argument<P>) -> Option<Pos>
    ensures { result ≡ first_of (consumed_at x.now free (seen_expression P.Phase argument.now.value)) }
{
    first_consumed(x, free, &argument.value)
}

/// The place of a path, where it consumes the variable.
fn place_of_path<P: Phase>(
    x: &Name,
    free: bool,
    at: Pos,
    name: &Ident<P>,
    fields: &Vec<Ident<P>>,
) -> Option<Pos>
    ensures { result ≡ first_of (if bytes_eq (seen_name P.Phase name.now).name x.now
        then place_of free at (map (plain_name P.name_bytes) (map (placed P.Phase) fields.now.items))
        else []) }
{
    if !free && fields.is_empty() && is_named(x, name) {
        Some(at)
    } else {
        None
    }
}

/// Whether the operator may leave out its right side.
fn may_skip(operator: BinaryOperator) -> bool
    ensures { result ≡ mentions.may_skip operator }
{
    matches!(operator, BinaryOperator::And | BinaryOperator::Or)
}

/// The first place where an expression consumes a variable and may leave out to look, by whether the
/// variable's type is Free.
#[tactic(auto, using(crate::proofs::FirstLemmas::first_steps, au_syntax::proofs::ExpressionLemmas::expression_steps))]
#[cycle(parted)]
fn first_parted<P: Phase>(x: &Name, free: bool, e: &Expr<P>) -> Option<Pos>
    ensures { result ≡ first_of (parted_at x.now free (seen_expression P.Phase e.now)) }
{
    match e {
        Expr::Call(_, _, arguments, _) => first_parted_of_all(x, free, arguments),
        Expr::NamedCall(_, _, arguments, _) => first_parted_of_arguments(x, free, arguments),
        Expr::Parenthesized(_, inner) => first_parted(x, free, inner),
        Expr::Dereference(_, inner) => first_parted(x, free, inner),
        Expr::Not(_, inner) => first_parted(x, free, inner),
        Expr::Typed(_, inner, _) => first_parted(x, free, inner),
        Expr::Binary(_, operator, first, second) => match first_parted(x, free, first) {
            Some(at) => Some(at),
            None => first_on_right(x, free, *operator, second),
        },
        Expr::If(_, test, first, second) => match first_parted(x, free, test) {
            Some(at) => Some(at),
            None => match first_consumed(x, free, first) {
                Some(at) => Some(at),
                None => first_consumed(x, free, second),
            },
        },
        Expr::Path(_, _, _) => None,
        Expr::Number(_, _) => None,
        Expr::Negative(_, _) => None,
        Expr::Text(_, _) => None,
        Expr::Bool(_, _) => None,
        Expr::Nil(_) => None,
        Expr::Arrow(_, _, _) => None,
        Expr::Borrow(_, _, _) => None,
        Expr::BorrowPart(_, _, _) => None,
    }
}

/// The same in the right side of an operator.
#[cycle(parted)]
fn first_on_right<P: Phase>(
    x: &Name,
    free: bool,
    operator: BinaryOperator,
    e: &Expr<P>,
) -> Option<Pos>
    ensures { result ≡ first_of (if mentions.may_skip operator
        then consumed_at x.now free (seen_expression P.Phase e.now)
        else parted_at x.now free (seen_expression P.Phase e.now)) }
{
    if may_skip(operator) {
        first_consumed(x, free, e)
    } else {
        first_parted(x, free, e)
    }
}

/// The same in some expressions.
#[cycle(parted)]
fn first_parted_of_all<P: Phase>(x: &Name, free: bool, exprs: &Vec<Expr<P>>) -> Option<Pos>
    ensures { result ≡ first_of (parted_at_all x.now free (seen_expressions P.Phase exprs.now.items)) }
{
    for one in exprs {
        if let Some(at) = first_parted(x, free, one) {
            return Some(at);
        }
    }
    None
}

/// The same in some named arguments.
#[cycle(parted)]
fn first_parted_of_arguments<P: Phase>(
    x: &Name,
    free: bool,
    arguments: &Vec<Argument<P>>,
) -> Option<Pos>
    ensures { result
        ≡ first_of (parted_at_arguments x.now free (seen_arguments P.Phase arguments.now.items)) }
{
    for one in arguments {
        if let Some(at) = first_parted_of_argument(x, free, one) {
            return Some(at);
        }
    }
    None
}

/// The same in a named argument.
#[cycle(parted)]
fn first_parted_of_argument<P: Phase>(x: &Name, free: bool, argument: &Argument<P>) -> Option<Pos>
    ensures { result ≡ first_of (parted_at x.now free (seen_expression P.Phase argument.now.value)) }
{
    first_parted(x, free, &argument.value)
}

/// The first place that is sought, of an expression where the variable is held so.
pub(crate) fn first_sought<P: Phase>(
    sought: Sought,
    x: &Name,
    sort: Sort,
    hold: Hold,
    e: &Expr<P>,
) -> Option<Pos>
    ensures { result
        ≡ first_of (sought_at sought x.now sort (hold_of hold) (seen_expression P.Phase e.now)) }
{
    match (hold, sought) {
        (Hold::Hidden, _) => None,
        (_, Sought::Consumption) => first_consumed(x, is_free(sort), e),
        (_, Sought::Parting) => first_parted(x, is_free(sort), e),
    }
}
