//! The code of a program.

use crate::instructions::Instr;
use au_base::{Name, Sequence, Text};

/// A closed type that the code names.
#[derive(Drop)]
pub struct LowType {
    /// Its text.
    pub text: Text,
    /// The name of the module that declares it.
    pub module: Name,
    /// Whether its values are linear.
    pub linear: bool,
}

/// A function.
#[derive(Drop)]
pub struct Function {
    /// How many parameters it has.
    pub params: u32,
    /// How many slots its frames have.
    pub slots: u32,
    /// Its instructions. A label is the number of one of them.
    pub code: Sequence<Instr>,
}

/// The code of a program. Its texts, types and functions are named by their numbers, and function 0 is the
/// entry.
#[derive(Drop)]
pub struct Code {
    /// The texts.
    pub texts: Sequence<Text>,
    /// The types.
    pub types: Sequence<LowType>,
    /// The functions.
    pub functions: Sequence<Function>,
    /// Whether the entry takes the root, whose type is then type 0.
    pub root: bool,
}
