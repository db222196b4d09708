//! Expressions.

ghost use Rattle.std.specs.Prelude.{◌≡◌, ◌<◌, ◌∷◌, [], Some, None, true, false, drop, map};
ghost use Rattle.au_base.specs.declared.tokens.Keyword.TheVariants as keyword;
ghost use Rattle.au_base.specs.declared.tokens.Sign.TheVariants as sign;
ghost use Rattle.au_base.specs.declared.tokens.What.TheVariants as what;
ghost use Rattle.au_read_expressions.specs.Bounds.{usual};
ghost use Rattle.au_read_expressions.specs.Reading.{Gives, behind_tokens, built, closed, front, listed};
ghost use Rattle.au_read_expressions.specs.Arguments.{argument, called, called_by_name, called_in_order};
ghost use Rattle.au_read_expressions.specs.ExpressionReading as spec;
ghost use Rattle.au_read_expressions.specs.ExpressionReading.{atom_at, call_at, expression_at};
ghost use Rattle.au_syntax.specs.Views as views;

use crate::atoms::{
    arrow_atom, borrow_atom, borrow_part_atom, boxed, false_atom, negative_atom, nil_atom,
    number_atom, path_atom, site, text_atom, true_atom,
};
use crate::first::{
    begins_atom, begins_expression, begins_label, is_cut_short, is_within, operator, passed,
    too_deep,
};
use crate::{Expected, Stop, after, expect, is_sign, name, stop_before, written_type};
use au_base::{Keyword, Sign, Token, What};
use au_syntax::{Argument, BinaryOperator, BorrowMode, Expr, Ident, Parsed, Phase, Site};
use std::alloc::Global;

/// Reads an expression where so many levels of nesting are left.
///
/// # Errors
///
/// `Fault::Syntax` at the first token that continues no expression, and `Fault::Passed` where a limit
/// is passed.
#[cycle(expressions)]
pub fn expression(
    alloc: Global,
    levels: u32,
    tokens: &[Token],
) -> Result<(Expr<Parsed>, &[Token]), Stop>
    ensures { Gives (λ x. (views.expression ⟦<Parsed as Phase>⟧ x.0, x.1.now)) result
        (expression_at usual levels tokens.now) }
{
    let (made, rest) = nested(alloc, levels, tokens)?;
    Ok((Box::into_inner(made), rest))
}

/// Reads a call where so many levels of nesting are left.
///
/// # Errors
///
/// As those of `expression`; that there is a call is known at its parenthesis.
pub fn call(alloc: Global, levels: u32, tokens: &[Token]) -> Result<(Expr<Parsed>, &[Token]), Stop>
    ensures { Gives (λ x. (views.expression ⟦<Parsed as Phase>⟧ x.0, x.1.now)) result
        (call_at usual levels tokens.now) }
{
    let (made, rest) = nested_call(alloc, levels, tokens)?;
    Ok((Box::into_inner(made), rest))
}

/// Reads an expression where so many levels of nesting are left.
#[tactic(auto, using(crate::proofs::CodeLemmas::level_steps))]
#[cycle(expressions)]
fn nested(
    alloc: Global,
    levels: u32,
    tokens: &[Token],
) -> Result<(Box<Expr<Parsed>>, &[Token]), Stop>
    ensures { Gives (λ x. (views.expression ⟦<Parsed as Phase>⟧ x.0.value, x.1.now)) result
        (expression_at usual levels tokens.now) }
{
    if levels == 0 {
        return Err(too_deep(begins_expression(tokens), tokens));
    }
    expression_within(alloc, levels - 1, tokens)
}

/// Reads a call where so many levels of nesting are left.
#[tactic(auto, using(crate::proofs::CodeLemmas::level_steps))]
fn nested_call(
    alloc: Global,
    levels: u32,
    tokens: &[Token],
) -> Result<(Box<Expr<Parsed>>, &[Token]), Stop>
    ensures { Gives (λ x. (views.expression ⟦<Parsed as Phase>⟧ x.0.value, x.1.now)) result
        (call_at usual levels tokens.now) }
{
    if levels == 0 {
        let (_, rest) = name(alloc, tokens)?;
        return Err(too_deep(is_sign(Sign::LeftParenthesis, rest), rest));
    }
    call_within(alloc, levels - 1, tokens)
}

/// Reads an atom where so many levels of nesting are left.
#[tactic(auto, using(crate::proofs::CodeLemmas::level_steps))]
#[cycle(expressions)]
fn atom(alloc: Global, levels: u32, tokens: &[Token]) -> Result<(Box<Expr<Parsed>>, &[Token]), Stop>
    ensures { Gives (λ x. (views.expression ⟦<Parsed as Phase>⟧ x.0.value, x.1.now)) result
        (atom_at usual levels tokens.now) }
{
    if levels == 0 {
        return Err(too_deep(begins_atom(tokens), tokens));
    }
    atom_within(alloc, levels - 1, tokens)
}

/// Reads an expression, with so many levels left for what it holds.
#[tactic(auto, unfolding(crate::specs::ExpressionReading::expression_with))]
#[cycle(expressions)]
fn expression_within(
    alloc: Global,
    levels: u32,
    tokens: &[Token],
) -> Result<(Box<Expr<Parsed>>, &[Token]), Stop>
    requires { levels < 4294967295 }
    ensures { Gives (λ x. (views.expression ⟦<Parsed as Phase>⟧ x.0.value, x.1.now)) result
        (spec.expression_with (expression_at usual levels) (atom_at usual levels) usual levels tokens.now) }
{
    match tokens {
        [] => operation(alloc, levels, tokens),
        [first, ..] => match &first.what {
            What::Word(Keyword::KwNot) => negation(alloc, levels, tokens),
            What::Word(Keyword::KwIf) => choice(alloc, levels, tokens),
            _ => operation(alloc, levels, tokens),
        },
    }
}

/// Reads an atom and what stands behind it.
#[cycle(expressions)]
fn operation(
    alloc: Global,
    levels: u32,
    tokens: &[Token],
) -> Result<(Box<Expr<Parsed>>, &[Token]), Stop>
    requires { levels < 4294967295 }
    ensures { Gives (λ x. (views.expression ⟦<Parsed as Phase>⟧ x.0.value, x.1.now)) result
        (spec.expression_by (expression_at usual levels)
        (atom_at usual levels) usual levels None tokens.now) }
{
    let at = site(tokens);
    let (first, rest) = atom_within(alloc, levels, tokens)?;
    continued(alloc, levels, at, first, rest)
}

/// Reads `not` and its operand.
#[cycle(expressions)]
fn negation(
    alloc: Global,
    levels: u32,
    tokens: &[Token],
) -> Result<(Box<Expr<Parsed>>, &[Token]), Stop>
    ensures { Gives (λ x. (views.expression ⟦<Parsed as Phase>⟧ x.0.value, x.1.now)) result
        (built spec.negation_of (behind_tokens (what.Word keyword.KwNot ∷ []) (atom_at usual levels))
        tokens.now) }
{
    let at = site(tokens);
    let rest = expect(&[Expected::Word(Keyword::KwNot)], tokens)?;
    let (operand, rest) = atom(alloc, levels, rest)?;
    Ok((boxed(alloc, Expr::Not(at, operand))?, rest))
}

/// Reads `if .. then .. else ..`.
#[tactic(auto, unfolding(crate::specs::ExpressionReading::choice_with))]
#[cycle(expressions)]
fn choice(
    alloc: Global,
    levels: u32,
    tokens: &[Token],
) -> Result<(Box<Expr<Parsed>>, &[Token]), Stop>
    ensures { Gives (λ x. (views.expression ⟦<Parsed as Phase>⟧ x.0.value, x.1.now)) result
        (spec.choice_with (expression_at usual levels) (atom_at usual levels) tokens.now) }
{
    let at = site(tokens);
    let rest = expect(&[Expected::Word(Keyword::KwIf)], tokens)?;
    let (test, rest) = nested(alloc, levels, rest)?;
    let rest = expect(&[Expected::Word(Keyword::KwThen)], rest)?;
    let (yes, rest) = nested(alloc, levels, rest)?;
    let rest = expect(&[Expected::Word(Keyword::KwElse)], rest)?;
    let (no, rest) = nested(alloc, levels, rest)?;
    Ok((boxed(alloc, Expr::If(at, test, yes, no))?, rest))
}

/// Reads what stands behind an atom: an operator and another atom, a type, or nothing.
#[cycle(expressions)]
fn continued(
    alloc: Global,
    levels: u32,
    at: Site<Parsed>,
    first: Box<Expr<Parsed>>,
    tokens: &[Token],
) -> Result<(Box<Expr<Parsed>>, &[Token]), Stop>
    requires { levels < 4294967295 }
    ensures { Gives (λ x. (views.expression ⟦<Parsed as Phase>⟧ x.0.value, x.1.now)) result
        (spec.continued (expression_at usual levels) (atom_at usual levels) usual levels at.at
        (views.expression ⟦<Parsed as Phase>⟧ first.value, tokens.now)) }
{
    match operator(tokens) {
        Some(op) => binary(alloc, levels, at, op, first, tokens),
        None => {
            if is_sign(Sign::Colon, tokens) {
                typed(alloc, levels, at, first, tokens)
            } else {
                Ok((first, tokens))
            }
        }
    }
}

/// Reads an operator and the second operand.
#[cycle(expressions)]
fn binary(
    alloc: Global,
    levels: u32,
    at: Site<Parsed>,
    op: BinaryOperator,
    first: Box<Expr<Parsed>>,
    tokens: &[Token],
) -> Result<(Box<Expr<Parsed>>, &[Token]), Stop>
    requires { levels < 4294967295 }
    ensures { Gives (λ x. (views.expression ⟦<Parsed as Phase>⟧ x.0.value, x.1.now)) result
        (spec.continued_by (expression_at usual levels) (atom_at usual levels) usual levels
        (Some op) false at.at (views.expression ⟦<Parsed as Phase>⟧ first.value, tokens.now)) }
{
    if !is_within(&first, levels) {
        return Err(passed(tokens));
    }
    let (second, rest) = atom(alloc, levels, after(tokens))?;
    Ok((boxed(alloc, Expr::Binary(at, op, first, second))?, rest))
}

/// Reads `:` and a type.
fn typed(
    alloc: Global,
    levels: u32,
    at: Site<Parsed>,
    first: Box<Expr<Parsed>>,
    tokens: &[Token],
) -> Result<(Box<Expr<Parsed>>, &[Token]), Stop>
    requires { levels < 4294967295 }
    ensures { Gives (λ x. (views.expression ⟦<Parsed as Phase>⟧ x.0.value, x.1.now)) result
        (spec.continued_by (expression_at usual levels) (atom_at usual levels) usual levels None true at.at
        (views.expression ⟦<Parsed as Phase>⟧ first.value, tokens.now)) }
{
    if !is_within(&first, levels) {
        return Err(passed(tokens));
    }
    let (of, rest) = written_type(alloc, after(tokens))?;
    Ok((boxed(alloc, Expr::Typed(at, first, of))?, rest))
}

/// Reads an atom, with so many levels left for what it holds.
#[tactic(auto, unfolding(crate::specs::ExpressionReading::atom_with))]
#[cycle(expressions)]
fn atom_within(
    alloc: Global,
    levels: u32,
    tokens: &[Token],
) -> Result<(Box<Expr<Parsed>>, &[Token]), Stop>
    ensures { Gives (λ x. (views.expression ⟦<Parsed as Phase>⟧ x.0.value, x.1.now)) result
        (spec.atom_with (expression_at usual levels) (atom_at usual levels) tokens.now) }
{
    match tokens {
        [] => Err(stop_before(tokens)),
        [first, ..] => match &first.what {
            What::Number { .. } => number_atom(alloc, tokens),
            What::Text(_) => text_atom(alloc, tokens),
            What::Name(_) => named(alloc, levels, tokens),
            What::Word(Keyword::KwTrue) => true_atom(alloc, tokens),
            What::Word(Keyword::KwFalse) => false_atom(alloc, tokens),
            What::Word(Keyword::KwNil) => nil_atom(alloc, tokens),
            What::Sign(Sign::Minus) => negative_atom(alloc, tokens),
            What::Sign(Sign::LeftParenthesis) => parenthesized(alloc, levels, tokens),
            What::Sign(Sign::Exclamation) => dereference(alloc, levels, tokens),
            What::Sign(Sign::ReadBorrow) => borrowed(alloc, levels, tokens),
            What::Sign(Sign::WriteBorrow) => {
                borrow_atom(alloc, Sign::WriteBorrow, BorrowMode::Write, tokens)
            }
            What::Sign(Sign::Reborrow) => {
                borrow_atom(alloc, Sign::Reborrow, BorrowMode::Reborrow, tokens)
            }
            _ => Err(stop_before(tokens)),
        },
    }
}

/// Reads an expression in parentheses.
#[cycle(expressions)]
fn parenthesized(
    alloc: Global,
    levels: u32,
    tokens: &[Token],
) -> Result<(Box<Expr<Parsed>>, &[Token]), Stop>
    ensures { Gives (λ x. (views.expression ⟦<Parsed as Phase>⟧ x.0.value, x.1.now)) result
        (built spec.parenthesized_of (behind_tokens (what.Sign sign.LeftParenthesis ∷ [])
        (closed (what.Sign sign.RightParenthesis ∷ []) (expression_at usual levels))) tokens.now) }
{
    let at = site(tokens);
    let rest = expect(&[Expected::Sign(Sign::LeftParenthesis)], tokens)?;
    let (of, rest) = nested(alloc, levels, rest)?;
    let rest = expect(&[Expected::Sign(Sign::RightParenthesis)], rest)?;
    Ok((boxed(alloc, Expr::Parenthesized(at, of))?, rest))
}

/// Reads `!` and an atom.
#[cycle(expressions)]
fn dereference(
    alloc: Global,
    levels: u32,
    tokens: &[Token],
) -> Result<(Box<Expr<Parsed>>, &[Token]), Stop>
    ensures { Gives (λ x. (views.expression ⟦<Parsed as Phase>⟧ x.0.value, x.1.now)) result
        (built spec.dereference_of (behind_tokens (what.Sign sign.Exclamation ∷ [])
        (atom_at usual levels)) tokens.now) }
{
    let at = site(tokens);
    let rest = expect(&[Expected::Sign(Sign::Exclamation)], tokens)?;
    let (of, rest) = atom(alloc, levels, rest)?;
    Ok((boxed(alloc, Expr::Dereference(at, of))?, rest))
}

/// Reads what begins with `&`.
fn borrowed(
    alloc: Global,
    _levels: u32,
    tokens: &[Token],
) -> Result<(Box<Expr<Parsed>>, &[Token]), Stop>
    ensures { Gives (λ x. (views.expression ⟦<Parsed as Phase>⟧ x.0.value, x.1.now)) result
        (spec.borrowed_by (expression_at usual _levels) (atom_at usual _levels)
        (front (drop 1 tokens.now)) tokens.now) }
{
    match after(tokens) {
        [] => borrow_atom(alloc, Sign::ReadBorrow, BorrowMode::Read, tokens),
        [second, ..] => match &second.what {
            What::Sign(Sign::LeftParenthesis) => borrow_part_atom(alloc, tokens),
            _ => borrow_atom(alloc, Sign::ReadBorrow, BorrowMode::Read, tokens),
        },
    }
}

/// Reads what begins with a name.
#[cycle(expressions)]
fn named(
    alloc: Global,
    levels: u32,
    tokens: &[Token],
) -> Result<(Box<Expr<Parsed>>, &[Token]), Stop>
    ensures { Gives (λ x. (views.expression ⟦<Parsed as Phase>⟧ x.0.value, x.1.now)) result
        (spec.named_by (expression_at usual levels) (atom_at usual levels)
        (front (drop 1 tokens.now)) tokens.now) }
{
    match after(tokens) {
        [] => path_atom(alloc, tokens),
        [second, ..] => match &second.what {
            What::Sign(Sign::LeftParenthesis) => call_within(alloc, levels, tokens),
            What::Sign(Sign::Arrow) => arrow_atom(alloc, tokens),
            _ => path_atom(alloc, tokens),
        },
    }
}

/// Reads a call, with so many levels left for its arguments.
#[tactic(auto, unfolding(crate::specs::ExpressionReading::call_with, crate::specs::Arguments::called))]
#[cycle(expressions)]
fn call_within(
    alloc: Global,
    levels: u32,
    tokens: &[Token],
) -> Result<(Box<Expr<Parsed>>, &[Token]), Stop>
    ensures { Gives (λ x. (views.expression ⟦<Parsed as Phase>⟧ x.0.value, x.1.now)) result
        (spec.call_with (expression_at usual levels) (atom_at usual levels) tokens.now) }
{
    let at = site(tokens);
    let (of, rest) = name(alloc, tokens)?;
    let rest = expect(&[Expected::Sign(Sign::LeftParenthesis)], rest)?;
    given(alloc, levels, at, of, rest)
}

/// Reads the arguments of a call, and the parenthesis behind them.
#[tactic(auto, using(crate::proofs::CodeLemmas::called_steps, au_syntax::proofs::ExpressionLemmas::expression_steps, std::proofs::lemmas::Grind::common_steps))]
#[cycle(expressions)]
fn given(
    alloc: Global,
    levels: u32,
    at: Site<Parsed>,
    of: Ident<Parsed>,
    tokens: &[Token],
) -> Result<(Box<Expr<Parsed>>, &[Token]), Stop>
    ensures { Gives (λ x. (views.expression ⟦<Parsed as Phase>⟧ x.0.value, x.1.now)) result
        (called (expression_at usual levels) (atom_at usual levels) at.at
        (views.placed ⟦<Parsed as Phase>⟧ of) tokens.now) }
{
    if is_sign(Sign::RightParenthesis, tokens) {
        let made = boxed(alloc, Expr::Call(at, of, Vec::new(alloc), ()))?;
        return Ok((made, after(tokens)));
    }
    if begins_label(tokens) {
        return given_by_name(alloc, levels, at, of, tokens);
    }
    if is_cut_short(tokens) {
        return Err(stop_before(after(tokens)));
    }
    given_in_order(alloc, levels, at, of, tokens)
}

/// Reads the arguments of a call by the names of parameters, and the parenthesis behind them.
#[tactic(auto, unfolding(crate::specs::Arguments::called_by_name))]
#[cycle(expressions)]
fn given_by_name(
    alloc: Global,
    levels: u32,
    at: Site<Parsed>,
    of: Ident<Parsed>,
    tokens: &[Token],
) -> Result<(Box<Expr<Parsed>>, &[Token]), Stop>
    ensures { Gives (λ x. (views.expression ⟦<Parsed as Phase>⟧ x.0.value, x.1.now)) result
        (called_by_name (expression_at usual levels) (atom_at usual levels) at.at
        (views.placed ⟦<Parsed as Phase>⟧ of) tokens.now) }
{
    let (arguments, rest) = labelled_list(alloc, levels, tokens)?;
    let rest = expect(&[Expected::Sign(Sign::RightParenthesis)], rest)?;
    Ok((boxed(alloc, Expr::NamedCall(at, of, arguments, ()))?, rest))
}

/// Reads the arguments of a call in order, and the parenthesis behind them.
#[tactic(auto, unfolding(crate::specs::Arguments::called_in_order))]
#[cycle(expressions)]
fn given_in_order(
    alloc: Global,
    levels: u32,
    at: Site<Parsed>,
    of: Ident<Parsed>,
    tokens: &[Token],
) -> Result<(Box<Expr<Parsed>>, &[Token]), Stop>
    ensures { Gives (λ x. (views.expression ⟦<Parsed as Phase>⟧ x.0.value, x.1.now)) result
        (called_in_order (expression_at usual levels) (atom_at usual levels) at.at
        (views.placed ⟦<Parsed as Phase>⟧ of) tokens.now) }
{
    let (arguments, rest) = expression_list(alloc, levels, tokens)?;
    let rest = expect(&[Expected::Sign(Sign::RightParenthesis)], rest)?;
    Ok((boxed(alloc, Expr::Call(at, of, arguments, ()))?, rest))
}

/// Reads one or more expressions with commas between.
#[cycle(expressions)]
fn expression_list(
    alloc: Global,
    levels: u32,
    tokens: &[Token],
) -> Result<(Vec<Expr<Parsed>>, &[Token]), Stop>
    ensures { Gives (λ x. (map (views.expression ⟦<Parsed as Phase>⟧) x.0.items, x.1.now)) result
        (listed (expression_at usual levels) tokens.now) }
{
    let mut exprs = Vec::new(alloc);
    let mut rest = tokens;
    for _ in 0..tokens.len() {
        let (one, next) = expression(alloc, levels, rest)?;
        exprs.push(one)?;
        if !is_sign(Sign::Comma, next) {
            return Ok((exprs, next));
        }
        rest = after(next);
    }
    Err(stop_before(rest))
}

/// Reads one or more arguments, each by the name of its parameter, with commas between.
#[cycle(expressions)]
fn labelled_list(
    alloc: Global,
    levels: u32,
    tokens: &[Token],
) -> Result<(Vec<Argument<Parsed>>, &[Token]), Stop>
    ensures { Gives (λ x. (map (argument ⟦<Parsed as Phase>⟧) x.0.items, x.1.now)) result
        (listed (spec.labelled (expression_at usual levels) (atom_at usual levels)) tokens.now) }
{
    let mut arguments = Vec::new(alloc);
    let mut rest = tokens;
    for _ in 0..tokens.len() {
        let (one, next) = labelled(alloc, levels, rest)?;
        arguments.push(one)?;
        if !is_sign(Sign::Comma, next) {
            return Ok((arguments, next));
        }
        rest = after(next);
    }
    Err(stop_before(rest))
}

/// Reads an argument by the name of its parameter.
#[cycle(expressions)]
fn labelled(
    alloc: Global,
    levels: u32,
    tokens: &[Token],
) -> Result<(Argument<Parsed>, &[Token]), Stop>
    ensures { Gives (λ x. (argument ⟦<Parsed as Phase>⟧ x.0, x.1.now)) result
        (spec.labelled (expression_at usual levels) (atom_at usual levels) tokens.now) }
{
    let (label, rest) = name(alloc, tokens)?;
    let rest = expect(&[Expected::Sign(Sign::FatArrow)], rest)?;
    let (value, rest) = expression(alloc, levels, rest)?;
    Ok((Argument { label, value }, rest))
}
