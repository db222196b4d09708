//! Lists of lives.

use au_base::{Name, Pos, Sequence, Text};

/// How a variable is mentioned.
#[derive(Clone, Copy)]
pub enum MentionKind {
    /// It is consumed.
    Consumed,
    /// It is borrowed for writing, or assigned to.
    Written,
    /// It is borrowed for reading.
    Read,
    /// It is looked at.
    Looked,
}

/// A mention of a variable.
#[derive(Clone, Copy)]
pub struct Mention {
    /// How it is mentioned.
    pub kind: MentionKind,
    /// The place of its name.
    pub at: Pos,
    /// Where this opens a borrow statement, the place of the statement's `end`.
    pub until: Option<Pos>,
}

/// The life of a variable whose type isn't Free.
#[derive(Drop)]
pub struct VariableLives {
    /// Its name.
    pub name: Name,
    /// Where it is declared.
    pub at: Pos,
    /// The text of its type.
    pub of: Text,
    /// Where it is mentioned, in the order of the text.
    pub mentions: Sequence<Mention>,
}

/// The lives of the variables of a function or method.
#[derive(Drop)]
pub struct FunctionLives {
    /// The name of its module, a colon and its own name.
    pub name: Text,
    /// Its variables whose types aren't Free, in the order in which they are declared.
    pub variables: Sequence<VariableLives>,
}

/// The lives of the variables of a program.
#[derive(Drop)]
pub struct Lives {
    /// The functions and methods with bodies: modules by their places, and each in the order of the text.
    pub functions: Sequence<FunctionLives>,
}
