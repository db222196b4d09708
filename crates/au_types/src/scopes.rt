//! Scopes of written types.

use crate::{DeclAt, Heads, Params, Table};
use au_base::Name;

/// What stands at a place of a program for names in written types.
#[derive(Clone, Copy)]
pub struct Scope<'a> {
    /// The regions of the borrow statements that are open there.
    pub regions: &'a [Name],
    /// The type parameters there.
    pub params: &'a Params,
    /// The names of types and classes that are visible there.
    pub names: &'a Table<DeclAt>,
    /// The declared types of the program.
    pub heads: &'a Heads,
}
