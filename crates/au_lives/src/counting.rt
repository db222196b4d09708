//! How often an expression mentions a variable.

ghost use Rattle.std.specs.Prelude.{◌≡◌, ◌||◌, not, map, if◌then◌else◌};
ghost use Rattle.std.specs.Str.{bytes_eq};
ghost use Rattle.au_syntax.specs.Views.{placed, expression, expression_all, argument_all};
ghost use Rattle.au_syntax.specs.Plain.{plain_name, plain_expression, plain_expressions, plain_arguments};
ghost use Rattle.au_lives.specs.Mentions as spec;
ghost use Rattle.au_lives.specs.Mentions.{unmentioned, mentioned_with, borrowed_by, counts_in, counts_in_all};
ghost use Rattle.au_lives.specs.Mentions.{counts_in_arguments};
ghost use Rattle.au_lives.specs.Tallies.{tally_of};

use crate::tallies::{Few, Tally, tally_and};
use au_base::Name;
use au_syntax::{Argument, BorrowMode, Expr, Ident, Phase};

const NONE: Tally = Tally {
    consumed: Few::Zero,
    written: Few::Zero,
    read: Few::Zero,
    looked: Few::Zero,
};

/// How often an expression mentions a variable, by whether the variable's type is Free.
#[tactic(auto, using(crate::proofs::CountLemmas::count_steps, au_syntax::proofs::ExpressionLemmas::expression_steps))]
#[cycle(counts)]
pub fn counts<P: Phase>(x: &Name, free: bool, e: &Expr<P>) -> Tally
    ensures { result ≡ tally_of
        (counts_in x.now free (plain_expression P.name_bytes (expression P.Phase e.now))) }
{
    match e {
        Expr::Number(_, _) => NONE,
        Expr::Negative(_, _) => NONE,
        Expr::Text(_, _) => NONE,
        Expr::Bool(_, _) => NONE,
        Expr::Nil(_) => NONE,
        Expr::Path(_, name, fields) => where_named(x, name, mentioned_with(free, fields)),
        Expr::Arrow(_, name, _) => where_named(x, name, one_look()),
        Expr::Borrow(_, mode, name) => where_named(x, name, borrowed_by(*mode)),
        Expr::BorrowPart(_, name, _) => where_named(x, name, one_look()),
        Expr::Call(_, _, arguments, _) => counts_of_all(x, free, arguments),
        Expr::NamedCall(_, _, arguments, _) => counts_of_arguments(x, free, arguments),
        Expr::Parenthesized(_, inner) => counts(x, free, inner),
        Expr::Dereference(_, inner) => counts(x, free || is_variable(inner), inner),
        Expr::Not(_, inner) => counts(x, free, inner),
        Expr::Typed(_, inner, _) => counts(x, free, inner),
        Expr::Binary(_, _, first, second) => {
            tally_and(counts(x, free, first), counts(x, free, second))
        }
        Expr::If(_, test, first, second) => {
            let branches = tally_and(counts(x, free, first), counts(x, free, second));
            tally_and(counts(x, free, test), branches)
        }
    }
}

/// How often some expressions mention a variable.
#[cycle(counts)]
fn counts_of_all<P: Phase>(x: &Name, free: bool, exprs: &Vec<Expr<P>>) -> Tally
    ensures { result ≡ tally_of
        (counts_in_all x.now free
        (plain_expressions P.name_bytes (expression_all P.Phase exprs.now.items))) }
{
    let mut sum = NONE;
    for one in exprs {
        let part = counts(x, free, one);
        sum = tally_and(sum, part);
    }
    sum
}

/// How often some named arguments mention a variable.
#[cycle(counts)]
fn counts_of_arguments<P: Phase>(x: &Name, free: bool, arguments: &Vec<Argument<P>>) -> Tally
    ensures { result ≡ tally_of
        (counts_in_arguments x.now free
        (plain_arguments P.name_bytes (argument_all P.Phase arguments.now.items))) }
{
    let mut sum = NONE;
    for one in arguments {
        let part = counts_of_argument(x, free, one);
        sum = tally_and(sum, part);
    }
    sum
}

/// How often a named argument mentions a variable.
#[cycle(counts)]
fn counts_of_argument<P: Phase>(x: &Name, free: bool, argument: &Argument<P>) -> Tally
    ensures { result ≡ tally_of
        (counts_in x.now free (plain_expression P.name_bytes (expression P.Phase argument.now.value))) }
{
    counts(x, free, &argument.value)
}

/// Whether an expression is a variable or a constant alone, or that in parentheses.
pub fn is_variable<P: Phase>(e: &Expr<P>) -> bool
    ensures { result ≡ spec.is_variable (plain_expression P.name_bytes (expression P.Phase e.now)) }
{
    match e {
        Expr::Path(_, _, fields) => fields.is_empty(),
        Expr::Parenthesized(_, inner) => is_variable(inner),
        Expr::Number(_, _) => false,
        Expr::Negative(_, _) => false,
        Expr::Text(_, _) => false,
        Expr::Bool(_, _) => false,
        Expr::Nil(_) => false,
        Expr::Arrow(_, _, _) => false,
        Expr::Borrow(_, _, _) => false,
        Expr::BorrowPart(_, _, _) => false,
        Expr::Call(_, _, _, _) => false,
        Expr::NamedCall(_, _, _, _) => false,
        Expr::Dereference(_, _) => false,
        Expr::Not(_, _) => false,
        Expr::Typed(_, _, _) => false,
        Expr::Binary(_, _, _, _) => false,
        Expr::If(_, _, _, _) => false,
    }
}

/// A mention that counts only where it is one of the variable.
fn where_named<P: Phase>(x: &Name, name: &Ident<P>, one: Tally) -> Tally
    ensures { result
        ≡ (if bytes_eq (P.name_bytes (P.see_name name.now.name)) x.now then one else tally_of unmentioned) }
{
    if P::bytes_of(&name.name) == x.as_bytes() {
        one
    } else {
        NONE
    }
}

/// What a variable or its part counts as.
fn mentioned_with<P: Phase>(free: bool, fields: &Vec<Ident<P>>) -> Tally
    ensures { result
        ≡ tally_of (mentioned_with free
        (map (plain_name P.name_bytes) (map (placed P.Phase) fields.now.items))) }
{
    let items = fields.as_slice();
    let whole = items.is_empty();
    whole_or_part(free, whole)
}

/// What a variable as a whole or a part of one counts as.
fn whole_or_part(free: bool, whole: bool) -> Tally
    ensures { result ≡ tally_of (if free || not whole then spec.one_look else spec.one_consumption) }
{
    if free || !whole {
        one_look()
    } else {
        one_consumption()
    }
}

/// What a borrow counts as.
fn borrowed_by(mode: BorrowMode) -> Tally
    ensures { result ≡ tally_of (borrowed_by mode) }
{
    match mode {
        BorrowMode::Read => {
            Tally {
                consumed: Few::Zero,
                written: Few::Zero,
                read: Few::One,
                looked: Few::Zero,
            }
        }
        BorrowMode::Write => {
            Tally {
                consumed: Few::Zero,
                written: Few::One,
                read: Few::Zero,
                looked: Few::Zero,
            }
        }
        BorrowMode::Reborrow => {
            Tally {
                consumed: Few::Zero,
                written: Few::One,
                read: Few::Zero,
                looked: Few::Zero,
            }
        }
    }
}

/// One look.
fn one_look() -> Tally
    ensures { result ≡ tally_of spec.one_look }
{
    Tally {
        consumed: Few::Zero,
        written: Few::Zero,
        read: Few::Zero,
        looked: Few::One,
    }
}

/// One consumption.
fn one_consumption() -> Tally
    ensures { result ≡ tally_of spec.one_consumption }
{
    Tally {
        consumed: Few::One,
        written: Few::Zero,
        read: Few::Zero,
        looked: Few::Zero,
    }
}
