//! Single tokens.

ghost use Rattle.std.specs.Prelude.{◌≡◌, drop, map, length, Some};
ghost use Rattle.std.specs.Option.{option_map};
ghost use Rattle.au_read_expressions.specs.Reading.{Gives, begins_with, expected_what, front, name_at};
ghost use Rattle.au_read_expressions.specs.Reading.{number_at};
ghost use Rattle.au_read_expressions.specs.Reading.{place_of, same_what, text_at, token_at, tokens_at};
ghost use Rattle.au_base.specs.declared.tokens.What.TheVariants as what;
ghost use Rattle.au_syntax.specs.Views.{placed};

use crate::faults::{Fault, Stop};
use au_base::{Keyword, Pos, Sign, Text, Token, What};
use au_syntax::{Ident, Literal, Parsed, Phase};
use std::alloc::Global;

/// A token that has to follow.
#[derive(Clone, Copy)]
pub enum Expected {
    /// A keyword.
    Word(Keyword),
    /// A sign.
    Sign(Sign),
    /// The name of these bytes.
    Name(&'static [u8]),
}

/// Reading stops before these tokens.
pub fn stop_before(tokens: &[Token]) -> Stop
    ensures { result ≡ Stop.Fault (Fault.Syntax (length tokens.now)) }
{
    Stop::Fault(Fault::Syntax(tokens.len()))
}

/// The place of the first token. Where there is none, it is line 0 of file 0.
pub fn place(tokens: &[Token]) -> Pos
    ensures { result ≡ place_of tokens.now }
{
    match tokens {
        [] => Pos {
            file: 0,
            line: 0,
            column: 0,
        },
        [first, ..] => first.at,
    }
}

/// The tokens behind the first.
pub fn after(tokens: &[Token]) -> &[Token]
    ensures { result.now ≡ drop 1 tokens.now }
{
    match tokens {
        [] => tokens,
        [_, rest @ ..] => rest,
    }
}

/// Whether the first token is this keyword.
pub fn is_word(word: Keyword, tokens: &[Token]) -> bool
    ensures { result ≡ begins_with (what.Word word) tokens.now }
{
    match tokens {
        [] => false,
        [first, ..] => fits(&first.what, Expected::Word(word)),
    }
}

/// Whether the first token is this sign.
pub fn is_sign(sign: Sign, tokens: &[Token]) -> bool
    ensures { result ≡ begins_with (what.Sign sign) tokens.now }
{
    match tokens {
        [] => false,
        [first, ..] => fits(&first.what, Expected::Sign(sign)),
    }
}

/// Whether a token is the one expected.
fn fits(what: &What, known: Expected) -> bool
    ensures { result ≡ same_what what.now (expected_what known) }
{
    match (what, known) {
        (What::Word(word), Expected::Word(wanted)) => *word == wanted,
        (What::Sign(sign), Expected::Sign(wanted)) => *sign == wanted,
        (What::Name(name), Expected::Name(wanted)) => name.as_bytes() == wanted,
        _ => false,
    }
}

/// Reads one token, and returns the tokens behind it.
fn expect_one(known: Expected, tokens: &[Token]) -> Result<&[Token], Stop>
    ensures { Gives (λ rest. rest.now) result (token_at (expected_what known) tokens.now) }
{
    match tokens {
        [] => Err(stop_before(tokens)),
        [first, rest @ ..] => {
            if fits(&first.what, known) {
                Ok(rest)
            } else {
                Err(stop_before(tokens))
            }
        }
    }
}

/// Reads these tokens, and returns the tokens behind them.
///
/// # Errors
///
/// `Fault::Syntax` at the first that doesn't stand.
pub fn expect<'a>(known: &[Expected], tokens: &'a [Token]) -> Result<&'a [Token], Stop>
    ensures { Gives (λ rest. rest.now) result (tokens_at (map expected_what known.now) tokens.now) }
{
    let mut rest = tokens;
    for one in known {
        rest = expect_one(*one, rest)?;
    }
    Ok(rest)
}

/// Reads a name.
///
/// # Errors
///
/// `Fault::Syntax` where none stands.
pub fn name(alloc: Global, tokens: &[Token]) -> Result<(Ident<Parsed>, &[Token]), Stop>
    ensures { Gives (λ x. (placed ⟦<Parsed as Phase>⟧ x.0, x.1.now)) result (name_at tokens.now) }
{
    match tokens {
        [] => Err(stop_before(tokens)),
        [first, rest @ ..] => match &first.what {
            What::Name(name) => {
                let name = name.copy(alloc)?;
                Ok((Ident { name, at: first.at }, rest))
            }
            _ => Err(stop_before(tokens)),
        },
    }
}

/// Reads a number.
///
/// # Errors
///
/// `Fault::Syntax` where none stands.
pub fn number(tokens: &[Token]) -> Result<(Literal, &[Token]), Stop>
    ensures { Gives (λ x. (x.0, x.1.now)) result (number_at tokens.now) }
{
    match tokens {
        [] => Err(stop_before(tokens)),
        [first, rest @ ..] => match &first.what {
            What::Number { value, digits } => Ok((
                Literal {
                    value: *value,
                    digits: *digits,
                },
                rest,
            )),
            _ => Err(stop_before(tokens)),
        },
    }
}

/// Reads a text.
///
/// # Errors
///
/// `Fault::Syntax` where none stands.
pub fn text(alloc: Global, tokens: &[Token]) -> Result<(Text, &[Token]), Stop>
    ensures { Gives (λ x. (x.0, x.1.now)) result (text_at tokens.now) }
{
    match tokens {
        [] => Err(stop_before(tokens)),
        [first, rest @ ..] => match &first.what {
            What::Text(text) => {
                let text = text.copy(alloc)?;
                Ok((text, rest))
            }
            _ => Err(stop_before(tokens)),
        },
    }
}
