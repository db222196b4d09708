//! The piece at the front of bytes: a blank, a comment or a token.

ghost use Rattle.std.specs.Prelude.{◌≡◌, ◌<◌, length, not, false};
ghost use Rattle.std.specs.List.{prefix_len};
ghost use Rattle.au_base.specs.Places.{is_newline};
ghost use Rattle.au_lexer.specs.Bytes as kinds;
ghost use Rattle.au_lexer.specs.Reading as read;
ghost use Rattle.au_lexer.specs.Reading.{Reads, FindsPiece, Front};
ghost use Rattle.au_lexer.specs.declared.pieces.Stop.TheVariants as stop;

use crate::bytes::{is_digit, is_letter, is_name_byte, is_space};
use crate::limits::{limit_above, passed};
use crate::numbers::{number_size, number_value};
use crate::spellings::{keyword, sign};
use crate::strings::{docstring_size, text, text_sizes};
use au_base::{
    Limit, LimitKind, MOST_LITERAL_DIGITS, MOST_NAME_BYTES, MOST_TEXT_BYTES, MOST_TOKENS, Memory,
    Name, What,
};
use std::alloc::Global;

/// A piece: how many bytes it takes, and its token if it is one.
#[derive(Drop)]
pub struct Found {
    /// How many bytes it takes, at least one.
    pub size: usize,
    /// Its token: none for a blank, a comment and a docstring.
    pub what: Option<What>,
}

/// Why there is no piece.
#[derive(Clone, Copy)]
pub enum Stop {
    /// The bytes begin with no piece.
    Stray,
    /// The bytes begin with a token that passes this limit.
    Passes(Limit),
    /// No memory was found.
    Memory,
}

impl From<Memory> for Stop {
    ghost from_gives = { λ _ s. s ≡ stop.Memory };

    fn from(_e: Memory) -> Stop {
        Stop::Memory
    }
}

/// How many bytes at the front belong to a word.
fn word_size(bytes: &[u8]) -> usize
    ensures { result ≡ prefix_len kinds.is_name_byte bytes.now }
{
    for (index, byte) in bytes.iter().enumerate() {
        if !is_name_byte(*byte) {
            return index;
        }
    }
    bytes.len()
}

/// How many bytes at the front belong to a line.
fn line_size(bytes: &[u8]) -> usize
    ensures { result ≡ prefix_len (λ byte. not (is_newline byte)) bytes.now }
{
    for (index, byte) in bytes.iter().enumerate() {
        if *byte == b'\n' {
            return index;
        }
    }
    bytes.len()
}

/// The word that the bytes begin with: a keyword or a name.
fn word(alloc: Global, bytes: &[u8]) -> Result<Found, Stop>
    requires { 0 < prefix_len kinds.is_name_byte bytes.now }
    ensures { Reads 0 result (read.word_front (read.word_at bytes.now)) }
{
    let size = word_size(bytes);
    let word = &bytes[..size];
    if let Some(keyword) = keyword(word) {
        return Ok(Found {
            size,
            what: Some(What::Word(keyword)),
        });
    }
    if let Some(limit) = passed(LimitKind::NameBytes, MOST_NAME_BYTES, size) {
        return Err(Stop::Passes(limit));
    }
    let name = Name::copy_of(alloc, word)?;
    Ok(Found {
        size,
        what: Some(What::Name(name)),
    })
}

/// The number that the bytes begin with.
fn number(bytes: &[u8]) -> Result<Found, Stop>
    requires { 0 < prefix_len kinds.is_digit bytes.now }
    ensures { Reads 0 result (read.number_front (read.digits_at bytes.now)) }
{
    let size = number_size(bytes);
    if let Some(limit) = passed(LimitKind::LiteralDigits, MOST_LITERAL_DIGITS, size) {
        return Err(Stop::Passes(limit));
    }
    let value = number_value(&bytes[..size]);
    let digits = size as u32;
    Ok(Found {
        size,
        what: Some(What::Number { value, digits }),
    })
}

/// The text whose first quote stands before `inside`.
fn quoted(alloc: Global, inside: &[u8]) -> Result<Found, Stop>
    ensures { Reads 0 result (read.text_front (read.text_at false inside.now)) }
{
    let Some((meant, _)) = text_sizes(inside) else {
        return Err(Stop::Stray);
    };
    if let Some(limit) = passed(LimitKind::TextBytes, MOST_TEXT_BYTES, meant) {
        return Err(Stop::Passes(limit));
    }
    match text(alloc, inside)? {
        Some((text, size)) => Ok(Found {
            size: size + 1,
            what: Some(What::Text(text)),
        }),
        None => Err(Stop::Stray),
    }
}

/// The docstring whose first three quotes stand before `inside`.
fn docstring(inside: &[u8]) -> Result<Found, Stop>
    ensures { Reads 0 result (read.docstring_front (read.docstring_size inside.now)) }
{
    match docstring_size(inside) {
        Some(size) => Ok(Found {
            size: size + 3,
            what: None,
        }),
        None => Err(Stop::Stray),
    }
}

/// The sign that the bytes begin with.
fn mark(bytes: &[u8]) -> Result<Found, Stop>
    ensures { Reads 0 result (read.sign_front (read.sign_of bytes.now)) }
{
    match sign(bytes) {
        Some(sign) => Ok(Found {
            size: sign.spelling().len(),
            what: Some(What::Sign(sign)),
        }),
        None => Err(Stop::Stray),
    }
}

/// The piece that the bytes begin with, the longest one, behind so many tokens.
pub fn piece(alloc: Global, before: usize, bytes: &[u8]) -> Result<Found, Stop>
    requires { 0 < length bytes.now }
    ensures { FindsPiece before result bytes.now }
{
    let answer = front_piece(alloc, bytes);
    behind(before, answer)
}

/// The piece that the bytes begin with, as it is read at the front of a file.
#[tactic(auto, unfolding(crate::specs::Reading::front))]
fn front_piece(alloc: Global, bytes: &[u8]) -> Result<Found, Stop>
    requires { 0 < length bytes.now }
    ensures { Reads 0 result (read.front bytes.now) }
{
    let first = bytes[0];
    if is_space(first) {
        Ok(Found {
            size: 1,
            what: None,
        })
    } else if is_letter(first) {
        word(alloc, bytes)
    } else if is_digit(first) {
        number(bytes)
    } else if bytes.starts_with(b"\"\"\"") {
        docstring(&bytes[3..])
    } else if first == b'"' {
        quoted(alloc, &bytes[1..])
    } else if bytes.starts_with(b"--") {
        Ok(Found {
            size: line_size(bytes),
            what: None,
        })
    } else {
        mark(bytes)
    }
}

/// What is read behind so many tokens: a token passes their limit where there may be no more of them.
fn behind(before: usize, answer: Result<Found, Stop>) -> Result<Found, Stop>
    ensures { (front : Front) → Reads 0 answer front → Reads before result front }
{
    if before < MOST_TOKENS {
        return answer;
    }
    match answer {
        Ok(Found { what: Some(_), .. }) | Err(Stop::Passes(_)) => {
            Err(Stop::Passes(limit_above(LimitKind::Tokens, MOST_TOKENS)))
        }
        other => other,
    }
}
