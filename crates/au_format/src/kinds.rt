//! What layout sees of pieces.

ghost use Rattle.std.specs.Prelude.{◌≡◌, ◌+◌, ◌^◌, ◌<◌, length};
ghost use Rattle.std.specs.List.{flat_map};
ghost use Rattle.au_lexer.specs.Pieces.{byte_spelling};
ghost use Rattle.au_format.specs.Kinds as spec;

use au_base::{Keyword, Sign, Token, What};

/// What layout sees of a token.
#[derive(Clone, Copy, Debug, PartialEq, Eq)]
pub enum Kind {
    /// A keyword.
    Word(Keyword),
    /// A sign.
    Sign(Sign),
    /// A name.
    Name,
    /// A number.
    Number,
    /// A text.
    Text,
}

/// The kind of a token.
pub fn kind_of(what: &What) -> Kind
    ensures { result ≡ spec.kind_of what.now }
{
    match what {
        What::Word(keyword) => Kind::Word(*keyword),
        What::Sign(sign) => Kind::Sign(*sign),
        What::Name(_) => Kind::Name,
        What::Number { .. } => Kind::Number,
        What::Text(_) => Kind::Text,
    }
}

/// The kind of the first of these tokens, if there is one.
pub fn first_kind(tokens: &[Token]) -> Option<Kind>
    ensures { result ≡ spec.first_kind tokens.now }
{
    match tokens {
        [] => None,
        [token, ..] => Some(kind_of(&token.what)),
    }
}

/// How many bytes a token is spelled with.
pub fn spelled_size(what: &What) -> usize
    requires { spec.spelled_size what.now < 2 ^ 64 }
    ensures { result ≡ spec.spelled_size what.now }
{
    match what {
        What::Word(keyword) => keyword.spelling().len(),
        What::Sign(sign) => sign.spelling().len(),
        What::Name(name) => name.as_bytes().len(),
        What::Number { digits, .. } => *digits as usize,
        What::Text(text) => written_size(text.as_bytes()) + 2,
    }
}

/// How many bytes a text is written with between its quotes.
#[tactic(auto, using(crate::proofs::SizeLemmas::one_more))]
fn written_size(text: &[u8]) -> usize
    requires { length (flat_map byte_spelling text.now) < 2 ^ 64 }
    ensures { result ≡ length (flat_map byte_spelling text.now) }
{
    let mut size = 0;
    for byte in text {
        size += byte_size(*byte);
    }
    size
}

/// How many bytes a byte of a text is written with: two for an escape.
fn byte_size(byte: u8) -> usize
    ensures { result ≡ length (byte_spelling byte) }
{
    match byte {
        b'\n' | b'\r' | b'\t' | b'"' | b'\\' => 2,
        _ => 1,
    }
}
