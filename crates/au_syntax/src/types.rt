//! Written types.

use au_base::{Name, Pos};

/// Whether a reference reads or writes.
#[derive(Clone, Copy, Debug, PartialEq, Eq)]
pub enum Access {
    /// `&`
    Read,
    /// `&!`
    Write,
}

/// A name in a written type, and the place of its token.
#[derive(Drop)]
pub struct TypeName {
    /// The name.
    pub name: Name,
    /// The place of its token.
    pub at: Pos,
}

/// A type as it is written.
#[derive(Drop)]
pub enum TypeText {
    /// `NAME` or `NAME[TYPE, ..]`: a type's name and its arguments, none without brackets.
    Named(TypeName, Vec<TypeText>),
    /// `&[TYPE, REGION]` or `&![TYPE, REGION]`: the place of its sign, the type behind it and the region.
    Reference(Pos, Access, Box<TypeText>, TypeName),
}
