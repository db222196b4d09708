//! Closed programs.

use crate::functions::ClosedFunction;
use crate::rows::TypeRow;

/// A program as the list of its instances, from an entry.
#[derive(Drop)]
pub struct ClosedProgram {
    /// Its functions in the order of their numbers. The entry is the first.
    pub functions: Vec<ClosedFunction>,
    /// Its closed declared types in the order of their texts.
    pub types: Vec<TypeRow>,
    /// Whether the entry takes the root.
    pub root: bool,
}
