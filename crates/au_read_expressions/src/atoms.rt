//! Atoms that hold no expressions.

ghost use Rattle.std.specs.Prelude.{◌≡◌, ◌∷◌, [], true, false, map, IfOk};
ghost use Rattle.au_base.specs.declared.tokens.Keyword.TheVariants as keyword;
ghost use Rattle.au_base.specs.declared.tokens.Sign.TheVariants as sign;
ghost use Rattle.au_base.specs.declared.tokens.What.TheVariants as what;
ghost use Rattle.au_read_expressions.specs.Reading.{Gives, place_of, name_at, number_at, text_at, fields_at};
ghost use Rattle.au_read_expressions.specs.Reading.{exactly, behind_tokens, closed, pair, built};
ghost use Rattle.au_read_expressions.specs.ExpressionReading as spec;
ghost use Rattle.au_syntax.specs.Views as views;

use crate::{Expected, Stop, dotted, expect, fields, name, number, place, text};
use au_base::{Keyword, Memory, Sign, Token};
use au_syntax::{BorrowMode, Expr, Ident, Parsed, Phase, Site};
use std::alloc::Global;

/// The place of the first token, without a note.
pub(crate) fn site(tokens: &[Token]) -> Site<Parsed>
    ensures node { views.node ⟦<Parsed as Phase>⟧ result ≡ spec.site (place_of tokens.now) }
    ensures place { result.at ≡ place_of tokens.now }
{
    Site {
        at: place(tokens),
        note: (),
    }
}

/// A box that holds an expression.
pub(crate) fn boxed(alloc: Global, expr: Expr<Parsed>) -> Result<Box<Expr<Parsed>>, Memory>
    ensures { IfOk result (λ made. made.value ≡ expr) }
{
    Ok(Box::new(alloc, expr)?)
}

/// Reads a number.
pub(crate) fn number_atom(
    alloc: Global,
    tokens: &[Token],
) -> Result<(Box<Expr<Parsed>>, &[Token]), Stop>
    ensures { Gives (λ x. (views.expression ⟦<Parsed as Phase>⟧ x.0.value, x.1.now)) result
        (built spec.number_of number_at tokens.now) }
{
    let at = site(tokens);
    let (literal, rest) = number(tokens)?;
    Ok((boxed(alloc, Expr::Number(at, literal))?, rest))
}

/// Reads a number behind `-`.
pub(crate) fn negative_atom(
    alloc: Global,
    tokens: &[Token],
) -> Result<(Box<Expr<Parsed>>, &[Token]), Stop>
    ensures { Gives (λ x. (views.expression ⟦<Parsed as Phase>⟧ x.0.value, x.1.now)) result
        (built spec.negative_of (behind_tokens (what.Sign sign.Minus ∷ []) number_at) tokens.now) }
{
    let at = site(tokens);
    let rest = expect(&[Expected::Sign(Sign::Minus)], tokens)?;
    let (literal, rest) = number(rest)?;
    Ok((boxed(alloc, Expr::Negative(at, literal))?, rest))
}

/// Reads a text.
pub(crate) fn text_atom(
    alloc: Global,
    tokens: &[Token],
) -> Result<(Box<Expr<Parsed>>, &[Token]), Stop>
    ensures { Gives (λ x. (views.expression ⟦<Parsed as Phase>⟧ x.0.value, x.1.now)) result
        (built spec.text_of text_at tokens.now) }
{
    let at = site(tokens);
    let (bytes, rest) = text(alloc, tokens)?;
    Ok((boxed(alloc, Expr::Text(at, bytes))?, rest))
}

/// Reads `true`.
pub(crate) fn true_atom(
    alloc: Global,
    tokens: &[Token],
) -> Result<(Box<Expr<Parsed>>, &[Token]), Stop>
    ensures { Gives (λ x. (views.expression ⟦<Parsed as Phase>⟧ x.0.value, x.1.now)) result
        (built (spec.truth_of true) (exactly (what.Word keyword.KwTrue ∷ [])) tokens.now) }
{
    let at = site(tokens);
    let rest = expect(&[Expected::Word(Keyword::KwTrue)], tokens)?;
    Ok((boxed(alloc, Expr::Bool(at, true))?, rest))
}

/// Reads `false`.
pub(crate) fn false_atom(
    alloc: Global,
    tokens: &[Token],
) -> Result<(Box<Expr<Parsed>>, &[Token]), Stop>
    ensures { Gives (λ x. (views.expression ⟦<Parsed as Phase>⟧ x.0.value, x.1.now)) result
        (built (spec.truth_of false) (exactly (what.Word keyword.KwFalse ∷ [])) tokens.now) }
{
    let at = site(tokens);
    let rest = expect(&[Expected::Word(Keyword::KwFalse)], tokens)?;
    Ok((boxed(alloc, Expr::Bool(at, false))?, rest))
}

/// Reads `nil`.
pub(crate) fn nil_atom(
    alloc: Global,
    tokens: &[Token],
) -> Result<(Box<Expr<Parsed>>, &[Token]), Stop>
    ensures { Gives (λ x. (views.expression ⟦<Parsed as Phase>⟧ x.0.value, x.1.now)) result
        (built spec.nil_of (exactly (what.Word keyword.KwNil ∷ [])) tokens.now) }
{
    let at = site(tokens);
    let rest = expect(&[Expected::Word(Keyword::KwNil)], tokens)?;
    Ok((boxed(alloc, Expr::Nil(at))?, rest))
}

/// Reads a name and the fields behind it.
pub(crate) fn path_atom(
    alloc: Global,
    tokens: &[Token],
) -> Result<(Box<Expr<Parsed>>, &[Token]), Stop>
    ensures { Gives (λ x. (views.expression ⟦<Parsed as Phase>⟧ x.0.value, x.1.now)) result
        (built spec.path_of (pair name_at fields_at) tokens.now) }
{
    let at = site(tokens);
    let (of, rest) = name(alloc, tokens)?;
    let (parts, rest) = fields(alloc, rest)?;
    Ok((boxed(alloc, Expr::Path(at, of, parts))?, rest))
}

/// Reads a name, `->` and the fields of a part behind it.
fn arrow_parts(
    alloc: Global,
    tokens: &[Token],
) -> Result<(Ident<Parsed>, Vec<Ident<Parsed>>, &[Token]), Stop>
    ensures { Gives (λ x. (
      (
        views.placed ⟦<Parsed as Phase>⟧ x.0,
        map (views.placed ⟦<Parsed as Phase>⟧) x.1.items,
      ),
      x.2.now,
    )) result (spec.arrow_parts tokens.now) }
{
    let (of, rest) = name(alloc, tokens)?;
    let rest = expect(&[Expected::Sign(Sign::Arrow)], rest)?;
    let (parts, rest) = dotted(alloc, rest)?;
    Ok((of, parts, rest))
}

/// Reads a part behind a reference.
pub(crate) fn arrow_atom(
    alloc: Global,
    tokens: &[Token],
) -> Result<(Box<Expr<Parsed>>, &[Token]), Stop>
    ensures { Gives (λ x. (views.expression ⟦<Parsed as Phase>⟧ x.0.value, x.1.now)) result
        (built spec.arrow_of spec.arrow_parts tokens.now) }
{
    let at = site(tokens);
    let (of, parts, rest) = arrow_parts(alloc, tokens)?;
    Ok((boxed(alloc, Expr::Arrow(at, of, parts))?, rest))
}

/// Reads a borrow of a variable, by the sign that stands first.
pub(crate) fn borrow_atom(
    alloc: Global,
    first: Sign,
    mode: BorrowMode,
    tokens: &[Token],
) -> Result<(Box<Expr<Parsed>>, &[Token]), Stop>
    ensures { Gives (λ x. (views.expression ⟦<Parsed as Phase>⟧ x.0.value, x.1.now)) result
        (built (spec.borrow_of mode) (behind_tokens (what.Sign first ∷ []) name_at) tokens.now) }
{
    let at = site(tokens);
    let rest = expect(&[Expected::Sign(first)], tokens)?;
    let (of, rest) = name(alloc, rest)?;
    Ok((boxed(alloc, Expr::Borrow(at, mode, of))?, rest))
}

/// Reads a reference to a part.
pub(crate) fn borrow_part_atom(
    alloc: Global,
    tokens: &[Token],
) -> Result<(Box<Expr<Parsed>>, &[Token]), Stop>
    ensures { Gives (λ x. (views.expression ⟦<Parsed as Phase>⟧ x.0.value, x.1.now)) result
        (built spec.borrow_part_of
        (behind_tokens (what.Sign sign.ReadBorrow ∷ what.Sign sign.LeftParenthesis ∷ [])
        (closed (what.Sign sign.RightParenthesis ∷ []) spec.arrow_parts)) tokens.now) }
{
    let at = site(tokens);
    let opening = [
        Expected::Sign(Sign::ReadBorrow),
        Expected::Sign(Sign::LeftParenthesis),
    ];
    let rest = expect(&opening, tokens)?;
    let (of, parts, rest) = arrow_parts(alloc, rest)?;
    let rest = expect(&[Expected::Sign(Sign::RightParenthesis)], rest)?;
    Ok((boxed(alloc, Expr::BorrowPart(at, of, parts))?, rest))
}
