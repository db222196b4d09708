//! The types that declarations mean, with no names left but those of parameters.

use au_base::{IntKind, Name};

/// Which declaration: the place of its module, and its own place in that module.
#[derive(Clone, Copy, Debug, PartialEq, Eq, Hash)]
pub struct DeclAt {
    /// The place of the module among the program's modules.
    pub module: u16,
    /// The place of the declaration among the module's.
    pub decl: u32,
}

/// How long what a reference reaches is kept.
#[derive(Drop)]
pub enum Region {
    /// For as long as the program runs.
    Static,
    /// For the borrow statement or the parameter that has this name.
    Named(Name),
    /// For the statement alone that the reference is written in.
    Anonymous,
}

/// A type.
#[cycle(types)]
#[derive(Drop)]
pub enum Ty {
    /// The type of `nil`.
    Unit,
    /// The two truth values.
    Bool,
    /// One of the nine kinds of integers.
    Int(IntKind),
    /// The texts that are written in a program, which are lists of bytes kept for as long as it runs.
    Text,
    /// A type parameter, by its name.
    Param(Name),
    /// A declared type with its arguments in declared order.
    Named {
        /// The declaration.
        of: DeclAt,
        /// An argument for each parameter.
        args: Vec<Arg>,
    },
    /// A reference that reads.
    Read {
        /// The type behind it.
        to: Box<Ty>,
        /// How long it is kept.
        region: Region,
    },
    /// A reference that reads and writes.
    Write {
        /// The type behind it.
        to: Box<Ty>,
        /// How long it is kept.
        region: Region,
    },
}

/// An argument of a declared type.
#[cycle(types)]
#[derive(Drop)]
pub enum Arg {
    /// A type.
    Of(Ty),
    /// A region.
    In(Region),
}
