//! Tokens, and how each is spelled.

ghost use Rattle.std.specs.Prelude.{◌≡◌};

use crate::names::Name;
use crate::places::Pos;
use crate::texts::Text;

/// A word that is no name. Each variant is its word behind `Kw`, and the universe `Type` is
/// `KwAnyUniverse`.
#[derive(Clone, Copy, Debug, PartialEq, Eq)]
pub enum Keyword {
    KwModule,
    KwBody,
    KwIs,
    KwEnd,
    KwImport,
    KwAs,
    KwPragma,
    KwConstant,
    KwType,
    KwRecord,
    KwUnion,
    KwCase,
    KwWhen,
    KwOf,
    KwDo,
    KwFunction,
    KwGeneric,
    KwTypeclass,
    KwInstance,
    KwMethod,
    KwLet,
    KwVar,
    KwIf,
    KwThen,
    KwElse,
    KwWhile,
    KwFor,
    KwFrom,
    KwTo,
    KwBorrow,
    KwIn,
    KwReturn,
    KwSkip,
    KwNil,
    KwTrue,
    KwFalse,
    KwAnd,
    KwOr,
    KwNot,
    KwFree,
    KwLinear,
    KwAnyUniverse,
    KwRegion,
}

impl Keyword {
    ghost use Rattle.au_base.specs.Tokens.{keyword_spelling};

    /// Every keyword.
    pub const ALL: [Keyword; 43] = [
        Keyword::KwModule,
        Keyword::KwBody,
        Keyword::KwIs,
        Keyword::KwEnd,
        Keyword::KwImport,
        Keyword::KwAs,
        Keyword::KwPragma,
        Keyword::KwConstant,
        Keyword::KwType,
        Keyword::KwRecord,
        Keyword::KwUnion,
        Keyword::KwCase,
        Keyword::KwWhen,
        Keyword::KwOf,
        Keyword::KwDo,
        Keyword::KwFunction,
        Keyword::KwGeneric,
        Keyword::KwTypeclass,
        Keyword::KwInstance,
        Keyword::KwMethod,
        Keyword::KwLet,
        Keyword::KwVar,
        Keyword::KwIf,
        Keyword::KwThen,
        Keyword::KwElse,
        Keyword::KwWhile,
        Keyword::KwFor,
        Keyword::KwFrom,
        Keyword::KwTo,
        Keyword::KwBorrow,
        Keyword::KwIn,
        Keyword::KwReturn,
        Keyword::KwSkip,
        Keyword::KwNil,
        Keyword::KwTrue,
        Keyword::KwFalse,
        Keyword::KwAnd,
        Keyword::KwOr,
        Keyword::KwNot,
        Keyword::KwFree,
        Keyword::KwLinear,
        Keyword::KwAnyUniverse,
        Keyword::KwRegion,
    ];

    /// The bytes of the word.
    pub fn spelling(self) -> &'static [u8]
        ensures { result.now ≡ keyword_spelling self }
    {
        match self {
            Keyword::KwModule => b"module",
            Keyword::KwBody => b"body",
            Keyword::KwIs => b"is",
            Keyword::KwEnd => b"end",
            Keyword::KwImport => b"import",
            Keyword::KwAs => b"as",
            Keyword::KwPragma => b"pragma",
            Keyword::KwConstant => b"constant",
            Keyword::KwType => b"type",
            Keyword::KwRecord => b"record",
            Keyword::KwUnion => b"union",
            Keyword::KwCase => b"case",
            Keyword::KwWhen => b"when",
            Keyword::KwOf => b"of",
            Keyword::KwDo => b"do",
            Keyword::KwFunction => b"function",
            Keyword::KwGeneric => b"generic",
            Keyword::KwTypeclass => b"typeclass",
            Keyword::KwInstance => b"instance",
            Keyword::KwMethod => b"method",
            Keyword::KwLet => b"let",
            Keyword::KwVar => b"var",
            Keyword::KwIf => b"if",
            Keyword::KwThen => b"then",
            Keyword::KwElse => b"else",
            Keyword::KwWhile => b"while",
            Keyword::KwFor => b"for",
            Keyword::KwFrom => b"from",
            Keyword::KwTo => b"to",
            Keyword::KwBorrow => b"borrow",
            Keyword::KwIn => b"in",
            Keyword::KwReturn => b"return",
            Keyword::KwSkip => b"skip",
            Keyword::KwNil => b"nil",
            Keyword::KwTrue => b"true",
            Keyword::KwFalse => b"false",
            Keyword::KwAnd => b"and",
            Keyword::KwOr => b"or",
            Keyword::KwNot => b"not",
            Keyword::KwFree => b"Free",
            Keyword::KwLinear => b"Linear",
            Keyword::KwAnyUniverse => b"Type",
            Keyword::KwRegion => b"Region",
        }
    }
}

/// A sign.
#[derive(Clone, Copy, Debug, PartialEq, Eq)]
pub enum Sign {
    /// `:=`
    Assign,
    /// `=>`
    FatArrow,
    /// `->`
    Arrow,
    /// `&!`
    WriteBorrow,
    /// `&~`
    Reborrow,
    /// `/=`
    NotEqual,
    /// `<=`
    LessEqual,
    /// `>=`
    GreaterEqual,
    /// `(`
    LeftParenthesis,
    /// `)`
    RightParenthesis,
    /// `[`
    LeftBracket,
    /// `]`
    RightBracket,
    /// `{`
    LeftBrace,
    /// `}`
    RightBrace,
    /// `,`
    Comma,
    /// `;`
    Semicolon,
    /// `:`
    Colon,
    /// `.`
    Dot,
    /// `&`
    ReadBorrow,
    /// `!`
    Exclamation,
    /// `+`
    Plus,
    /// `-`
    Minus,
    /// `*`
    Star,
    /// `/`
    Slash,
    /// `=`
    Equal,
    /// `<`
    Less,
    /// `>`
    Greater,
}

impl Sign {
    ghost use Rattle.au_base.specs.Tokens.{sign_spelling};

    /// Every sign, those of two bytes first.
    pub const ALL: [Sign; 27] = [
        Sign::Assign,
        Sign::FatArrow,
        Sign::Arrow,
        Sign::WriteBorrow,
        Sign::Reborrow,
        Sign::NotEqual,
        Sign::LessEqual,
        Sign::GreaterEqual,
        Sign::LeftParenthesis,
        Sign::RightParenthesis,
        Sign::LeftBracket,
        Sign::RightBracket,
        Sign::LeftBrace,
        Sign::RightBrace,
        Sign::Comma,
        Sign::Semicolon,
        Sign::Colon,
        Sign::Dot,
        Sign::ReadBorrow,
        Sign::Exclamation,
        Sign::Plus,
        Sign::Minus,
        Sign::Star,
        Sign::Slash,
        Sign::Equal,
        Sign::Less,
        Sign::Greater,
    ];

    /// The bytes of the sign.
    pub fn spelling(self) -> &'static [u8]
        ensures { result.now ≡ sign_spelling self }
    {
        match self {
            Sign::Assign => b":=",
            Sign::FatArrow => b"=>",
            Sign::Arrow => b"->",
            Sign::WriteBorrow => b"&!",
            Sign::Reborrow => b"&~",
            Sign::NotEqual => b"/=",
            Sign::LessEqual => b"<=",
            Sign::GreaterEqual => b">=",
            Sign::LeftParenthesis => b"(",
            Sign::RightParenthesis => b")",
            Sign::LeftBracket => b"[",
            Sign::RightBracket => b"]",
            Sign::LeftBrace => b"{",
            Sign::RightBrace => b"}",
            Sign::Comma => b",",
            Sign::Semicolon => b";",
            Sign::Colon => b":",
            Sign::Dot => b".",
            Sign::ReadBorrow => b"&",
            Sign::Exclamation => b"!",
            Sign::Plus => b"+",
            Sign::Minus => b"-",
            Sign::Star => b"*",
            Sign::Slash => b"/",
            Sign::Equal => b"=",
            Sign::Less => b"<",
            Sign::Greater => b">",
        }
    }
}

/// What a token is.
#[derive(Debug, Drop)]
pub enum What {
    /// A keyword.
    Word(Keyword),
    /// A sign.
    Sign(Sign),
    /// A name, by its bytes.
    Name(Name),
    /// A number: its value, and how many digits it is written with, leading zeros among them.
    Number { value: i128, digits: u32 },
    /// A text, by the bytes that it means.
    Text(Text),
}

/// A token, and the place of its first byte.
#[derive(Debug, Drop)]
pub struct Token {
    /// What it is.
    pub what: What,
    /// The place of its first byte.
    pub at: Pos,
}
