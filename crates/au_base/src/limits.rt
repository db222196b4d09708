//! What is counted, and how much of it there may be.

/// What a limit counts.
#[derive(Clone, Copy, Debug, PartialEq, Eq)]
pub enum LimitKind {
    /// The bytes of one file.
    FileBytes,
    /// The files of a program.
    Files,
    /// The tokens of one file.
    Tokens,
    /// The bytes of one name, a module's whole name among them.
    NameBytes,
    /// The digits of one number, leading zeros among them.
    LiteralDigits,
    /// The bytes that one text means.
    TextBytes,
    /// The expressions and statements on the way from a declaration down to one of them.
    Nesting,
    /// The depth of a type. A name alone is 1.
    TypeDepth,
    /// The names, `~`, `&` and `&!` in a type.
    TypeNodes,
    /// The parameters of a function or method.
    Parameters,
    /// The fields of a record or of a case.
    Fields,
    /// The cases of a union.
    Cases,
    /// The type parameters of a declaration.
    TypeParameters,
    /// The closed functions of a program.
    Instances,
    /// The instructions of all functions.
    Code,
}

/// A quantity that passes its limit: the first count that passes it, and the most that it may be.
/// For a file's bytes the count is always one more than the most.
#[derive(Clone, Copy, Debug, PartialEq, Eq)]
pub struct Limit {
    /// What is counted.
    pub kind: LimitKind,
    /// The count that passes the limit.
    pub count: u64,
    /// The most that the limit allows.
    pub most: u64,
}

/// The most bytes of a file.
pub const MOST_FILE_BYTES: usize = 1_048_576;

/// The most tokens of a file.
pub const MOST_TOKENS: usize = 262_144;

/// The most bytes of a name.
pub const MOST_NAME_BYTES: usize = 64;

/// The most digits of a number, leading zeros among them.
pub const MOST_LITERAL_DIGITS: usize = 38;

/// The most bytes that a text means.
pub const MOST_TEXT_BYTES: usize = 65_536;

/// The most expressions and statements on the way from a declaration down to one of them.
pub const MOST_NESTING: u32 = 100;

/// The greatest depth of a type.
pub const MOST_TYPE_DEPTH: u32 = 24;

/// The most nodes of a type.
pub const MOST_TYPE_NODES: u32 = 4_096;
