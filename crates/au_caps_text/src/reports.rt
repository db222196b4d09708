//! Reports on capabilities.

use au_base::{Sequence, Text};

/// What a function or method can do with capabilities.
#[derive(Drop)]
pub struct Row {
    /// The name of its module, a colon and its own name.
    pub function: Text,
    /// What it can make, in the order of bytes and each once.
    pub makes: Sequence<Text>,
    /// What its variables can hold, likewise.
    pub holds: Sequence<Text>,
    /// What it can hand on, likewise.
    pub hands: Sequence<Text>,
}

/// What the functions and methods of a program can do with capabilities.
#[derive(Drop)]
pub struct Report {
    /// The functions and methods with bodies: modules by their places, and each in the order of the text.
    pub rows: Sequence<Row>,
}
