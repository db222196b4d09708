//! Expressions.

use crate::names::Ident;
use crate::phases::Phase;
use crate::types::TypeText;
use au_base::{Pos, Text};

/// A binary operator.
#[derive(Clone, Copy, Debug, PartialEq, Eq)]
pub enum BinaryOperator {
    /// `+`
    Add,
    /// `-`
    Subtract,
    /// `*`
    Multiply,
    /// `/`
    Divide,
    /// `=`
    Equal,
    /// `/=`
    NotEqual,
    /// `<`
    Less,
    /// `<=`
    LessEqual,
    /// `>`
    Greater,
    /// `>=`
    GreaterEqual,
    /// `and`
    And,
    /// `or`
    Or,
}

/// How a variable is borrowed.
#[derive(Clone, Copy, Debug, PartialEq, Eq)]
pub enum BorrowMode {
    /// `&`
    Read,
    /// `&!`
    Write,
    /// `&~`, which borrows again what a write reference refers to.
    Reborrow,
}

/// A number as it is written: its value, and with how many digits.
#[derive(Clone, Copy, Debug, PartialEq, Eq)]
pub struct Literal {
    /// The value, at least 0.
    pub value: i128,
    /// The digits, leading zeros among them.
    pub digits: u32,
}

/// The place of an expression's first token, and what the phase notes for it.
#[derive(Drop)]
pub struct Site<P: Phase> {
    /// The place of the first token.
    pub at: Pos,
    /// The note.
    pub note: P::TypeNote,
}

/// An expression.
#[cycle(expressions)]
#[derive(Drop)]
pub enum Expr<P: Phase> {
    /// `NUMBER`
    Number(Site<P>, Literal),
    /// `-NUMBER`
    Negative(Site<P>, Literal),
    /// `"TEXT"`, by the bytes that it means.
    Text(Site<P>, Text),
    /// `true` or `false`
    Bool(Site<P>, bool),
    /// `nil`
    Nil(Site<P>),
    /// `NAME` or `NAME.FIELD.FIELD`: a variable or constant, or a part of it.
    Path(Site<P>, Ident<P>, Vec<Ident<P>>),
    /// `NAME->FIELD.FIELD`: a part behind a reference. There is at least one field.
    Arrow(Site<P>, Ident<P>, Vec<Ident<P>>),
    /// `NAME(EXPRESSION, ..)`
    Call(Site<P>, Ident<P>, Vec<Expr<P>>, P::CallNote),
    /// `NAME(NAME => EXPRESSION, ..)`. There is at least one argument.
    NamedCall(Site<P>, Ident<P>, Vec<Argument<P>>, P::CallNote),
    /// `(EXPRESSION)`
    Parenthesized(Site<P>, Box<Expr<P>>),
    /// `!ATOM`: what a reference refers to.
    Dereference(Site<P>, Box<Expr<P>>),
    /// `&NAME`, `&!NAME` or `&~NAME`
    Borrow(Site<P>, BorrowMode, Ident<P>),
    /// `&(NAME->FIELD.FIELD)`: a reference to a part. There is at least one field.
    BorrowPart(Site<P>, Ident<P>, Vec<Ident<P>>),
    /// `ATOM OPERATOR ATOM`
    Binary(Site<P>, BinaryOperator, Box<Expr<P>>, Box<Expr<P>>),
    /// `not ATOM`
    Not(Site<P>, Box<Expr<P>>),
    /// `ATOM: TYPE`
    Typed(Site<P>, Box<Expr<P>>, TypeText),
    /// `if EXPRESSION then EXPRESSION else EXPRESSION`
    If(Site<P>, Box<Expr<P>>, Box<Expr<P>>, Box<Expr<P>>),
}

/// `NAME => EXPRESSION`: an argument by the name of its parameter.
#[cycle(expressions)]
#[derive(Drop)]
pub struct Argument<P: Phase> {
    /// The parameter's name.
    pub label: Ident<P>,
    /// The argument.
    pub value: Expr<P>,
}
