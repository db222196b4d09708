//! Closed types.

use au_base::IntKind;
use au_types::DeclAt;

/// A closed type: one without type parameters, of which the regions are left out.
#[derive(Drop)]
pub enum Closed {
    /// The type of `nil`.
    Unit,
    /// The two truth values.
    Bool,
    /// One of the nine kinds of integers.
    Int(IntKind),
    /// The texts that are written in a program.
    Text,
    /// A declared type with those of its arguments that are types, in declared order.
    Named {
        /// The declaration.
        of: DeclAt,
        /// An argument for each parameter that isn't a region.
        args: Vec<Closed>,
    },
    /// A reference that reads, with the type behind it.
    Read(Box<Closed>),
    /// A reference that reads and writes, with the type behind it.
    Write(Box<Closed>),
}
