//! Parts of statements.

ghost use Rattle.std.specs.Prelude.{◌≡◌, ◌∷◌, [], List, ℕ};
ghost use Rattle.au_base.specs.declared.tokens.Sign.TheVariants as sign;
ghost use Rattle.au_base.specs.declared.tokens.What.TheVariants as what;
ghost use Rattle.au_read_statements.specs.StatementReading as spec;
ghost use Rattle.au_read_expressions.specs.Bounds.{usual};
ghost use Rattle.au_read_expressions.specs.Reading.{Gives, behind_tokens};
ghost use Rattle.au_read_expressions.specs.TypeReading.{type_at};
ghost use Rattle.au_syntax.specs.Names.{Renaming};
ghost use Rattle.au_syntax.specs.Types.{Bound};
ghost use Rattle.au_syntax.specs.Views as views;

use au_base::{Keyword, Pos, Sign, Token, What};
use au_read_expressions::{
    Expected, Part, Stop, after, expect, is_word, name, place, stop_before, written_type,
};
use au_syntax::{Bind, BorrowMode, Parsed, Phase, Renamed, TypeText};
use std::alloc::Global;

/// Reads a name, and the name after `as` where that word follows.
///
/// # Errors
///
/// `Fault::Syntax` where a name is missing.
pub fn renaming(alloc: Global, tokens: &[Token]) -> Result<(Renamed<Parsed>, &[Token]), Stop>
    ensures { Gives (λ x. (views.renaming ⟦<Parsed as Phase>⟧ x.0, x.1.now)) result
        (spec.renaming_at tokens.now) }
{
    let (first, rest) = name(alloc, tokens)?;
    if !is_word(Keyword::KwAs, rest) {
        return Ok((
            Renamed {
                name: first,
                alias: None,
            },
            rest,
        ));
    }
    match name(alloc, after(rest)) {
        Ok((alias, rest)) => Ok((
            Renamed {
                name: first,
                alias: Some(alias),
            },
            rest,
        )),
        Err(stop) => Err(stop),
    }
}

/// A name in a list, with or without a name after `as`.
pub struct RenamingPart;

impl Part for RenamingPart {
    type Item = Renamed<Parsed>;

    ghost Seen = { Renaming (List ℕ) };

    ghost see = { views.renaming ⟦<Parsed as Phase>⟧ };

    ghost read_at = { spec.renaming_at };

    fn read(alloc: Global, tokens: &[Token]) -> Result<(Renamed<Parsed>, &[Token]), Stop> {
        renaming(alloc, tokens)
    }
}

/// Reads `:` and a type.
fn type_behind(alloc: Global, tokens: &[Token]) -> Result<(TypeText, &[Token]), Stop>
    ensures { Gives (λ x. (views.written x.0, x.1.now)) result
        (behind_tokens (what.Sign sign.Colon ∷ []) (type_at usual) tokens.now) }
{
    let rest = expect(&[Expected::Sign(Sign::Colon)], tokens)?;
    written_type(alloc, rest)
}

/// Reads a field that is bound.
fn bound(alloc: Global, tokens: &[Token]) -> Result<(Bind<Parsed>, &[Token]), Stop>
    ensures { Gives (λ x. (views.bound ⟦<Parsed as Phase>⟧ x.0, x.1.now)) result
        (spec.bound_at usual tokens.now) }
{
    let (name, rest) = renaming(alloc, tokens)?;
    match type_behind(alloc, rest) {
        Ok((of, rest)) => Ok((Bind { name, of }, rest)),
        Err(stop) => Err(stop),
    }
}

/// A field in a list of those that are bound.
pub struct BoundPart;

impl Part for BoundPart {
    type Item = Bind<Parsed>;

    ghost Seen = { Bound (List ℕ) };

    ghost see = { views.bound ⟦<Parsed as Phase>⟧ };

    ghost read_at = { spec.bound_at usual };

    fn read(alloc: Global, tokens: &[Token]) -> Result<(Bind<Parsed>, &[Token]), Stop> {
        bound(alloc, tokens)
    }
}

/// Reads `end`, and returns its place.
///
/// # Errors
///
/// `Fault::Syntax` where it is missing.
pub fn end_place(tokens: &[Token]) -> Result<(Pos, &[Token]), Stop>
    ensures { Gives (λ x. (x.0, x.1.now)) result (spec.end_place tokens.now) }
{
    let rest = expect(&[Expected::Word(Keyword::KwEnd)], tokens)?;
    Ok((place(tokens), rest))
}

/// Reads how a variable is borrowed.
pub(crate) fn mode(tokens: &[Token]) -> Result<(BorrowMode, &[Token]), Stop>
    ensures { Gives (λ x. (x.0, x.1.now)) result (spec.mode_at tokens.now) }
{
    match tokens {
        [] => Err(stop_before(tokens)),
        [first, rest @ ..] => match &first.what {
            What::Sign(Sign::ReadBorrow) => Ok((BorrowMode::Read, rest)),
            What::Sign(Sign::WriteBorrow) => Ok((BorrowMode::Write, rest)),
            What::Sign(Sign::Reborrow) => Ok((BorrowMode::Reborrow, rest)),
            _ => Err(stop_before(tokens)),
        },
    }
}
