//! Modules, as files hold them.

use crate::declarations::Decl;
use crate::names::{Ident, Renamed};
use crate::phases::Phase;
use au_base::Pos;

/// Which part of a module a file holds.
#[derive(Clone, Copy, Debug, PartialEq, Eq)]
pub enum Part {
    /// `module NAME is .. end module.`
    Interface,
    /// `module body NAME is .. end module body.`
    Body,
}

/// `import NAME.NAME (ITEM, ..);`. There is at least one name and one item.
#[derive(Drop)]
pub struct Import<P: Phase> {
    /// The place of `import`.
    pub at: Pos,
    /// The module's name, by its parts between the dots.
    pub module: Vec<Ident<P>>,
    /// What is imported.
    pub items: Vec<Renamed<P>>,
}

/// The module of a file: an interface or a body.
#[derive(Drop)]
pub struct Module<P: Phase> {
    /// The imports.
    pub imports: Vec<Import<P>>,
    /// The place of `module`.
    pub at: Pos,
    /// Which part of the module this is.
    pub part: Part,
    /// The module's name, by its parts between the dots, at least one.
    pub name: Vec<Ident<P>>,
    /// The place of `pragma`, where there is one.
    pub pragma: Option<Pos>,
    /// The declarations.
    pub declarations: Vec<Decl<P>>,
}
