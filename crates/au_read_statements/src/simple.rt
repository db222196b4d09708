//! Statements that hold no block.

ghost use Rattle.std.specs.Prelude.{◌≡◌, ◌∷◌, [], drop, map};
ghost use Rattle.au_base.specs.declared.tokens.Keyword.TheVariants as keyword;
ghost use Rattle.au_base.specs.declared.tokens.Sign.TheVariants as sign;
ghost use Rattle.au_base.specs.declared.tokens.What.TheVariants as what;
ghost use Rattle.au_read_expressions.specs.ExpressionReading as spelled;
ghost use Rattle.au_read_statements.specs.StatementReading as spec;
ghost use Rattle.au_read_expressions.specs.Bounds.{usual};
ghost use Rattle.au_read_expressions.specs.TypeReading.{type_at};
ghost use Rattle.au_read_expressions.specs.Reading.{Gives, behind_tokens, built, closed};
ghost use Rattle.au_read_expressions.specs.Reading.{dotted_at, exactly, fields_at};
ghost use Rattle.au_read_expressions.specs.Reading.{front, name_at, pair};
ghost use Rattle.au_syntax.specs.Views as views;

use crate::parts::BoundPart;
use au_base::{Keyword, Sign, Token, What};
use au_read_expressions::{
    Expected, Stop, after, call, dotted, expect, expression, fields, listed, name, place,
    written_type,
};
use au_syntax::{Binding, Expr, Ident, Parsed, Phase, Stmt, TypeText};
use std::alloc::Global;

/// Reads an expression.
pub(crate) fn boxed(
    alloc: Global,
    levels: u32,
    tokens: &[Token],
) -> Result<(Box<Expr<Parsed>>, &[Token]), Stop>
    ensures { Gives (λ x. (views.expression ⟦<Parsed as Phase>⟧ x.0.value, x.1.now)) result
        (spelled.expression_at usual levels tokens.now) }
{
    let (value, rest) = expression(alloc, levels, tokens)?;
    let value = Box::new(alloc, value)?;
    Ok((value, rest))
}

/// Reads an expression, and `;` behind it.
fn ended(
    alloc: Global,
    levels: u32,
    tokens: &[Token],
) -> Result<(Box<Expr<Parsed>>, &[Token]), Stop>
    ensures { Gives (λ x. (views.expression ⟦<Parsed as Phase>⟧ x.0.value, x.1.now)) result
        (closed (what.Sign sign.Semicolon ∷ []) (spelled.expression_at usual levels) tokens.now) }
{
    let (value, rest) = boxed(alloc, levels, tokens)?;
    match expect(&[Expected::Sign(Sign::Semicolon)], rest) {
        Ok(rest) => Ok((value, rest)),
        Err(stop) => Err(stop),
    }
}

/// Reads `:=`, an expression and `;`.
fn assigned(
    alloc: Global,
    levels: u32,
    tokens: &[Token],
) -> Result<(Box<Expr<Parsed>>, &[Token]), Stop>
    ensures { Gives (λ x. (views.expression ⟦<Parsed as Phase>⟧ x.0.value, x.1.now)) result
        (behind_tokens (what.Sign sign.Assign ∷ [])
        (closed (what.Sign sign.Semicolon ∷ []) (spelled.expression_at usual levels)) tokens.now) }
{
    let rest = expect(&[Expected::Sign(Sign::Assign)], tokens)?;
    ended(alloc, levels, rest)
}

/// Reads `:`, a type and what is assigned.
fn typed_value(
    alloc: Global,
    levels: u32,
    tokens: &[Token],
) -> Result<(TypeText, Box<Expr<Parsed>>, &[Token]), Stop>
    ensures { Gives (λ x. ((views.written x.0, views.expression ⟦<Parsed as Phase>⟧ x.1.value), x.2.now))
        result
        (behind_tokens (what.Sign sign.Colon ∷ []) (pair (type_at usual)
        (behind_tokens (what.Sign sign.Assign ∷ [])
        (closed (what.Sign sign.Semicolon ∷ []) (spelled.expression_at usual levels)))) tokens.now) }
{
    let rest = expect(&[Expected::Sign(Sign::Colon)], tokens)?;
    let (of, rest) = written_type(alloc, rest)?;
    match assigned(alloc, levels, rest) {
        Ok((value, rest)) => Ok((of, value, rest)),
        Err(stop) => Err(stop),
    }
}

/// Reads `skip;`.
pub(crate) fn skip(tokens: &[Token]) -> Result<(Stmt<Parsed>, &[Token]), Stop>
    ensures { Gives (λ x. (views.statement ⟦<Parsed as Phase>⟧ x.0, x.1.now)) result
        (built spec.skip_of (exactly (what.Word keyword.KwSkip ∷ what.Sign sign.Semicolon ∷ [])) tokens.now) }
{
    let known = [
        Expected::Word(Keyword::KwSkip),
        Expected::Sign(Sign::Semicolon),
    ];
    let rest = expect(&known, tokens)?;
    Ok((Stmt::Skip(place(tokens)), rest))
}

/// Reads a declaration of a variable.
#[tactic(auto, unfolding(crate::specs::StatementReading::declare_with))]
pub(crate) fn declare(
    alloc: Global,
    levels: u32,
    word: Keyword,
    binding: Binding,
    tokens: &[Token],
) -> Result<(Stmt<Parsed>, &[Token]), Stop>
    ensures { Gives (λ x. (views.statement ⟦<Parsed as Phase>⟧ x.0, x.1.now)) result
        (spec.declare_with usual (spelled.expression_at usual levels) (spelled.call_at usual levels)
        (spec.block_at usual levels) word binding tokens.now) }
{
    let rest = expect(&[Expected::Word(word)], tokens)?;
    let (variable, rest) = name(alloc, rest)?;
    let at = place(tokens);
    match typed_value(alloc, levels, rest) {
        Ok((of, value, rest)) => Ok((Stmt::Let(at, binding, variable, of, value), rest)),
        Err(stop) => Err(stop),
    }
}

/// Reads `}`, `:=`, an expression and `;`.
fn value_of_fields(
    alloc: Global,
    levels: u32,
    tokens: &[Token],
) -> Result<(Box<Expr<Parsed>>, &[Token]), Stop>
    ensures { Gives (λ x. (views.expression ⟦<Parsed as Phase>⟧ x.0.value, x.1.now)) result
        (behind_tokens (what.Sign sign.RightBrace ∷ what.Sign sign.Assign ∷ [])
        (closed (what.Sign sign.Semicolon ∷ []) (spelled.expression_at usual levels)) tokens.now) }
{
    let closing = [
        Expected::Sign(Sign::RightBrace),
        Expected::Sign(Sign::Assign),
    ];
    let rest = expect(&closing, tokens)?;
    ended(alloc, levels, rest)
}

/// Reads a declaration of a variable for each field.
#[tactic(auto, unfolding(crate::specs::StatementReading::destructure_with))]
fn destructure(
    alloc: Global,
    levels: u32,
    tokens: &[Token],
) -> Result<(Stmt<Parsed>, &[Token]), Stop>
    ensures { Gives (λ x. (views.statement ⟦<Parsed as Phase>⟧ x.0, x.1.now)) result
        (spec.destructure_with usual (spelled.expression_at usual levels) (spelled.call_at usual levels)
        (spec.block_at usual levels) tokens.now) }
{
    let opening = [
        Expected::Word(Keyword::KwLet),
        Expected::Sign(Sign::LeftBrace),
    ];
    let rest = expect(&opening, tokens)?;
    let (binds, rest) = listed::<BoundPart>(alloc, rest)?;
    let at = place(tokens);
    match value_of_fields(alloc, levels, rest) {
        Ok((value, rest)) => Ok((Stmt::Destructure(at, binds, value), rest)),
        Err(stop) => Err(stop),
    }
}

/// Reads what begins with `let`.
pub(crate) fn let_statement(
    alloc: Global,
    levels: u32,
    tokens: &[Token],
) -> Result<(Stmt<Parsed>, &[Token]), Stop>
    ensures { Gives (λ x. (views.statement ⟦<Parsed as Phase>⟧ x.0, x.1.now)) result
        (spec.let_by usual (spelled.expression_at usual levels) (spelled.call_at usual levels)
        (spec.block_at usual levels) (front (drop 1 tokens.now)) tokens.now) }
{
    match after(tokens) {
        [] => declare(alloc, levels, Keyword::KwLet, Binding::Let, tokens),
        [second, ..] => match &second.what {
            What::Sign(Sign::LeftBrace) => destructure(alloc, levels, tokens),
            _ => declare(alloc, levels, Keyword::KwLet, Binding::Let, tokens),
        },
    }
}

/// Reads a variable and the fields behind it.
fn path(
    alloc: Global,
    tokens: &[Token],
) -> Result<(Ident<Parsed>, Vec<Ident<Parsed>>, &[Token]), Stop>
    ensures { Gives (λ x.
        ((views.placed ⟦<Parsed as Phase>⟧ x.0, map (views.placed ⟦<Parsed as Phase>⟧) x.1.items), x.2.now))
        result (pair name_at fields_at tokens.now) }
{
    let (variable, rest) = name(alloc, tokens)?;
    match fields(alloc, rest) {
        Ok((parts, rest)) => Ok((variable, parts, rest)),
        Err(stop) => Err(stop),
    }
}

/// Reads an assignment to a variable or to a part of it.
#[tactic(auto, unfolding(crate::specs::StatementReading::assign_with))]
fn assign(alloc: Global, levels: u32, tokens: &[Token]) -> Result<(Stmt<Parsed>, &[Token]), Stop>
    ensures { Gives (λ x. (views.statement ⟦<Parsed as Phase>⟧ x.0, x.1.now)) result
        (spec.assign_with usual (spelled.expression_at usual levels) (spelled.call_at usual levels)
        (spec.block_at usual levels) tokens.now) }
{
    let (variable, parts, rest) = path(alloc, tokens)?;
    let at = place(tokens);
    match assigned(alloc, levels, rest) {
        Ok((value, rest)) => Ok((Stmt::Assign(at, variable, parts, value), rest)),
        Err(stop) => Err(stop),
    }
}

/// Reads `->` and the fields behind it.
fn arrow_fields(alloc: Global, tokens: &[Token]) -> Result<(Vec<Ident<Parsed>>, &[Token]), Stop>
    ensures { Gives (λ x. (map (views.placed ⟦<Parsed as Phase>⟧) x.0.items, x.1.now)) result
        (behind_tokens (what.Sign sign.Arrow ∷ []) dotted_at tokens.now) }
{
    let rest = expect(&[Expected::Sign(Sign::Arrow)], tokens)?;
    dotted(alloc, rest)
}

/// Reads a variable, `->` and the fields behind it.
fn arrow_path(
    alloc: Global,
    tokens: &[Token],
) -> Result<(Ident<Parsed>, Vec<Ident<Parsed>>, &[Token]), Stop>
    ensures { Gives (λ x.
        ((views.placed ⟦<Parsed as Phase>⟧ x.0, map (views.placed ⟦<Parsed as Phase>⟧) x.1.items), x.2.now))
        result (spelled.arrow_parts tokens.now) }
{
    let (variable, rest) = name(alloc, tokens)?;
    match arrow_fields(alloc, rest) {
        Ok((parts, rest)) => Ok((variable, parts, rest)),
        Err(stop) => Err(stop),
    }
}

/// Reads an assignment to a part behind a reference.
#[tactic(auto, unfolding(crate::specs::StatementReading::assign_through_with))]
fn assign_through(
    alloc: Global,
    levels: u32,
    tokens: &[Token],
) -> Result<(Stmt<Parsed>, &[Token]), Stop>
    ensures { Gives (λ x. (views.statement ⟦<Parsed as Phase>⟧ x.0, x.1.now)) result
        (spec.assign_through_with usual (spelled.expression_at usual levels) (spelled.call_at usual levels)
        (spec.block_at usual levels) tokens.now) }
{
    let (variable, parts, rest) = arrow_path(alloc, tokens)?;
    let at = place(tokens);
    match assigned(alloc, levels, rest) {
        Ok((value, rest)) => Ok((Stmt::AssignThrough(at, variable, parts, value), rest)),
        Err(stop) => Err(stop),
    }
}

/// Reads a call.
fn boxed_call(
    alloc: Global,
    levels: u32,
    tokens: &[Token],
) -> Result<(Box<Expr<Parsed>>, &[Token]), Stop>
    ensures { Gives (λ x. (views.expression ⟦<Parsed as Phase>⟧ x.0.value, x.1.now)) result
        (spelled.call_at usual levels tokens.now) }
{
    let (value, rest) = call(alloc, levels, tokens)?;
    let value = Box::new(alloc, value)?;
    Ok((value, rest))
}

/// Reads a call whose result is discarded.
#[tactic(auto, unfolding(crate::specs::StatementReading::discard_with))]
fn discard(alloc: Global, levels: u32, tokens: &[Token]) -> Result<(Stmt<Parsed>, &[Token]), Stop>
    ensures { Gives (λ x. (views.statement ⟦<Parsed as Phase>⟧ x.0, x.1.now)) result
        (spec.discard_with usual (spelled.expression_at usual levels) (spelled.call_at usual levels)
        (spec.block_at usual levels) tokens.now) }
{
    let (value, rest) = boxed_call(alloc, levels, tokens)?;
    let at = place(tokens);
    match expect(&[Expected::Sign(Sign::Semicolon)], rest) {
        Ok(rest) => Ok((Stmt::Call(at, value), rest)),
        Err(stop) => Err(stop),
    }
}

/// Reads what begins with a name.
pub(crate) fn named_statement(
    alloc: Global,
    levels: u32,
    tokens: &[Token],
) -> Result<(Stmt<Parsed>, &[Token]), Stop>
    ensures { Gives (λ x. (views.statement ⟦<Parsed as Phase>⟧ x.0, x.1.now)) result
        (spec.named_by usual (spelled.expression_at usual levels) (spelled.call_at usual levels)
        (spec.block_at usual levels) (front (drop 1 tokens.now)) tokens.now) }
{
    match after(tokens) {
        [] => assign(alloc, levels, tokens),
        [second, ..] => match &second.what {
            What::Sign(Sign::LeftParenthesis) => discard(alloc, levels, tokens),
            What::Sign(Sign::Arrow) => assign_through(alloc, levels, tokens),
            _ => assign(alloc, levels, tokens),
        },
    }
}

/// Reads `return` and its expression.
#[tactic(auto, unfolding(crate::specs::StatementReading::return_with))]
pub(crate) fn return_statement(
    alloc: Global,
    levels: u32,
    tokens: &[Token],
) -> Result<(Stmt<Parsed>, &[Token]), Stop>
    ensures { Gives (λ x. (views.statement ⟦<Parsed as Phase>⟧ x.0, x.1.now)) result
        (spec.return_with usual (spelled.expression_at usual levels) (spelled.call_at usual levels)
        (spec.block_at usual levels) tokens.now) }
{
    let rest = expect(&[Expected::Word(Keyword::KwReturn)], tokens)?;
    let (value, rest) = ended(alloc, levels, rest)?;
    Ok((Stmt::Return(place(tokens), value), rest))
}
