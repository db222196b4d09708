//! What is seen of a module.

use au_types::{DeclAt, Heads, Table};

/// What is seen of a module by which its two parts are compared.
#[derive(Clone, Copy)]
pub struct Sight<'a> {
    /// The names of types and classes that its interface sees.
    pub interface: &'a Table<DeclAt>,
    /// The names of types and classes that its body sees.
    pub body: &'a Table<DeclAt>,
    /// The rows of the declared types of the program.
    pub heads: &'a Heads,
}
