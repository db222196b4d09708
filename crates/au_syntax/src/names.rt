//! Names in trees.

use crate::phases::Phase;
use crate::types::TypeText;
use au_base::Pos;

/// A name, and the place of its token.
#[derive(Drop)]
pub struct Ident<P: Phase> {
    /// The name.
    pub name: P::Name,
    /// The place of its token.
    pub at: Pos,
}

/// `NAME` or `NAME as NAME`: a name from elsewhere, and the name that it has here.
#[derive(Drop)]
pub struct Renamed<P: Phase> {
    /// The name.
    pub name: Ident<P>,
    /// The name after `as`.
    pub alias: Option<Ident<P>>,
}

/// `NAME: TYPE`: a field or a parameter.
#[derive(Drop)]
pub struct Field<P: Phase> {
    /// Its name.
    pub name: Ident<P>,
    /// Its type.
    pub of: TypeText,
}

/// `NAME: TYPE` or `NAME as NAME: TYPE`: a field that is bound to a variable.
#[derive(Drop)]
pub struct Bind<P: Phase> {
    /// The field's name, and that of the variable.
    pub name: Renamed<P>,
    /// Its type.
    pub of: TypeText,
}

/// `NAME as NAME in NAME`: what a borrow statement names.
#[derive(Drop)]
pub struct BorrowNames<P: Phase> {
    /// What is borrowed.
    pub variable: Ident<P>,
    /// The reference to it.
    pub reference: Ident<P>,
    /// The region of the reference.
    pub region: Ident<P>,
}
