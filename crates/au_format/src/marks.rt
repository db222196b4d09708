//! What each token does to the layout.

ghost use Rattle.std.specs.Prelude.{◌≡◌, ◌+◌, ◌^◌, ◌<◌};
ghost use Rattle.au_format.specs.Marks as spec;

use crate::kinds::Kind;
use au_base::{Keyword, Sign};

/// Whether an `if` behind this token is one of a statement.
pub fn begins_behind(choices: usize, kind: Kind) -> bool
    ensures { result ≡ spec.begins_behind choices kind }
{
    match kind {
        Kind::Sign(Sign::Semicolon) => true,
        Kind::Word(Keyword::KwIs | Keyword::KwDo | Keyword::KwOf | Keyword::KwEnd) => true,
        Kind::Word(Keyword::KwThen | Keyword::KwElse) => choices == 0,
        _ => false,
    }
}

/// How many expressions have an `else` to come behind this token.
pub fn choices_behind(choices: usize, begins: bool, kind: Kind) -> usize
    requires { choices + 1 < 2 ^ 64 }
    ensures { result ≡ spec.choices_behind choices begins kind }
{
    match kind {
        Kind::Word(Keyword::KwIf) => choices + !begins as usize,
        Kind::Word(Keyword::KwElse) => choices.saturating_sub(1),
        _ => choices,
    }
}

/// Whether the last keyword through this token is the `is` of a union's case.
pub fn case_through(second: Option<Kind>, before: bool, kind: Kind) -> bool
    ensures { result ≡ spec.case_through second before kind }
{
    match kind {
        Kind::Word(Keyword::KwIs) => is_case(second),
        Kind::Word(_) => false,
        _ => before,
    }
}

/// Whether the last keyword through this token is `import`.
pub fn import_through(before: bool, kind: Kind) -> bool
    ensures { result ≡ spec.import_through before kind }
{
    match kind {
        Kind::Word(Keyword::KwImport) => true,
        Kind::Word(_) => false,
        _ => before,
    }
}

/// Whether this token opens a level.
pub fn opens(second: Option<Kind>, choices: usize, kind: Kind, next: Option<Kind>) -> bool
    ensures { result ≡ spec.opens second choices kind next }
{
    match kind {
        Kind::Word(Keyword::KwIs) => !is_case(second),
        Kind::Word(Keyword::KwDo | Keyword::KwOf) => true,
        Kind::Word(Keyword::KwThen) => choices == 0,
        Kind::Word(Keyword::KwElse) => choices == 0 && !is_if(next),
        _ => false,
    }
}

/// How many levels this token ends.
pub fn closes(last: Option<Kind>, choices: usize, kind: Kind, next: Option<Kind>) -> usize
    ensures { result ≡ spec.closes last choices kind next }
{
    match kind {
        Kind::Word(Keyword::KwEnd) => 1 + (is_case(next) && !is_of(last)) as usize,
        Kind::Word(Keyword::KwWhen) => !is_of(last) as usize,
        Kind::Word(Keyword::KwElse) => (choices == 0) as usize,
        _ => 0,
    }
}

/// Whether this token is a `;` that ends its line.
pub fn is_last_semicolon(in_case: bool, kind: Kind, next: Option<Kind>) -> bool
    ensures { result ≡ spec.is_last_semicolon in_case kind next }
{
    match kind {
        Kind::Sign(Sign::Semicolon) => !(in_case && is_name(next)),
        _ => false,
    }
}

/// Whether no blank stands behind this token.
pub fn hugs(last: Option<Kind>, kind: Kind, next: Option<Kind>) -> bool
    ensures { result ≡ spec.hugs last kind next }
{
    match kind {
        Kind::Sign(Sign::LeftParenthesis | Sign::LeftBracket | Sign::Dot) => true,
        Kind::Sign(Sign::Arrow | Sign::WriteBorrow | Sign::Reborrow) => true,
        Kind::Sign(Sign::Exclamation) => !is_borrow(last),
        Kind::Sign(Sign::Minus) => is_number(next) && !ends_atom(last),
        _ => false,
    }
}

/// Whether no blank stands before this token.
pub fn follows(last: Option<Kind>, in_import: bool, kind: Kind) -> bool
    ensures { result ≡ spec.follows last in_import kind }
{
    match kind {
        Kind::Sign(Sign::Semicolon | Sign::Comma | Sign::RightParenthesis) => true,
        Kind::Sign(Sign::RightBracket | Sign::Colon | Sign::Dot) => true,
        Kind::Sign(Sign::Arrow) => is_name(last),
        Kind::Sign(Sign::LeftParenthesis) => {
            !in_import && takes_list(last) || is_read_borrow(last)
        }
        Kind::Sign(Sign::LeftBracket) => takes_list(last) || is_read_borrow(last),
        Kind::Sign(Sign::Exclamation) => is_borrow(last),
        Kind::Name => is_read_borrow(last),
        _ => false,
    }
}

/// Whether a token is there and is `case`.
fn is_case(kind: Option<Kind>) -> bool
    ensures { result ≡ spec.is_case kind }
{
    matches!(kind, Some(Kind::Word(Keyword::KwCase)))
}

/// Whether a token is there and is `of`.
fn is_of(kind: Option<Kind>) -> bool
    ensures { result ≡ spec.is_of kind }
{
    matches!(kind, Some(Kind::Word(Keyword::KwOf)))
}

/// Whether a token is there and is `if`.
fn is_if(kind: Option<Kind>) -> bool
    ensures { result ≡ spec.is_if kind }
{
    matches!(kind, Some(Kind::Word(Keyword::KwIf)))
}

/// Whether a token is there and is `borrow`.
fn is_borrow(kind: Option<Kind>) -> bool
    ensures { result ≡ spec.is_borrow kind }
{
    matches!(kind, Some(Kind::Word(Keyword::KwBorrow)))
}

/// Whether a token is there and is a name.
fn is_name(kind: Option<Kind>) -> bool
    ensures { result ≡ spec.is_name kind }
{
    matches!(kind, Some(Kind::Name))
}

/// Whether a token is there and is a number.
fn is_number(kind: Option<Kind>) -> bool
    ensures { result ≡ spec.is_number kind }
{
    matches!(kind, Some(Kind::Number))
}

/// Whether a token is there and is `&`.
fn is_read_borrow(kind: Option<Kind>) -> bool
    ensures { result ≡ spec.is_read_borrow kind }
{
    matches!(kind, Some(Kind::Sign(Sign::ReadBorrow)))
}

/// Whether a token is the end of an atom.
fn ends_atom(kind: Option<Kind>) -> bool
    ensures { result ≡ spec.ends_atom kind }
{
    match kind {
        Some(Kind::Name | Kind::Number | Kind::Text) => true,
        Some(Kind::Sign(Sign::RightParenthesis)) => true,
        Some(Kind::Word(Keyword::KwTrue | Keyword::KwFalse | Keyword::KwNil)) => true,
        _ => false,
    }
}

/// Whether a token is a name or the word of a universe.
fn takes_list(kind: Option<Kind>) -> bool
    ensures { result ≡ spec.takes_list kind }
{
    match kind {
        Some(Kind::Name) => true,
        Some(Kind::Word(Keyword::KwFree | Keyword::KwLinear)) => true,
        Some(Kind::Word(Keyword::KwAnyUniverse | Keyword::KwRegion)) => true,
        _ => false,
    }
}
