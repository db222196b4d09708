//! Statements.

use crate::expressions::{BorrowMode, Expr};
use crate::names::{Bind, BorrowNames, Ident};
use crate::phases::Phase;
use crate::types::{Access, TypeText};
use au_base::Pos;

/// Whether a declared variable can be assigned.
#[derive(Clone, Copy, Debug, PartialEq, Eq)]
pub enum Binding {
    /// `let`
    Let,
    /// `var`
    Var,
}

/// Statements, one after another.
#[cycle(statements)]
#[derive(Drop)]
pub struct Block<P: Phase> {
    /// The statements in order.
    pub statements: Vec<Stmt<P>>,
}

/// A statement. Each begins with the place of its first token.
#[cycle(statements)]
#[derive(Drop)]
pub enum Stmt<P: Phase> {
    /// `skip;`
    Skip(Pos),
    /// `let NAME: TYPE := EXPRESSION;` or with `var`
    Let(Pos, Binding, Ident<P>, TypeText, Box<Expr<P>>),
    /// `let { NAME as NAME: TYPE, .. } := EXPRESSION;`. There is at least one field.
    Destructure(Pos, Vec<Bind<P>>, Box<Expr<P>>),
    /// `NAME.FIELD.FIELD := EXPRESSION;`, a variable alone without fields.
    Assign(Pos, Ident<P>, Vec<Ident<P>>, Box<Expr<P>>),
    /// `NAME->FIELD.FIELD := EXPRESSION;`. There is at least one field.
    AssignThrough(Pos, Ident<P>, Vec<Ident<P>>, Box<Expr<P>>),
    /// `if EXPRESSION then BLOCK else if .. end if;`. There is at least one branch.
    If(Pos, Vec<Branch<P>>),
    /// `if EXPRESSION then BLOCK else if .. else BLOCK end if;`. There is at least one branch, and the
    /// last block doesn't begin with an `if`.
    IfElse(Pos, Vec<Branch<P>>, Block<P>),
    /// `case EXPRESSION of when .. end case;`
    Case(Pos, Box<Expr<P>>, Vec<Arm<P>>),
    /// `while EXPRESSION do BLOCK end while;`
    While(Pos, Box<Expr<P>>, Block<P>),
    /// `for NAME from EXPRESSION to EXPRESSION do BLOCK end for;`
    For(Pos, Ident<P>, Box<Expr<P>>, Box<Expr<P>>, Block<P>),
    /// `borrow NAME as NAME in NAME do BLOCK end borrow;` or with `borrow!`, with the place
    /// of its `end`
    Borrow(Pos, Access, BorrowNames<P>, Block<P>, Pos),
    /// `borrow NAME: TYPE := &NAME do BLOCK end borrow;` or with `&!` or `&~`: the reference, its
    /// type, the variable, the block, and the place of its `end`.
    BorrowTyped(Pos, Ident<P>, TypeText, BorrowMode, Ident<P>, Block<P>, Pos),
    /// `CALL;`
    Call(Pos, Box<Expr<P>>),
    /// `return EXPRESSION;`
    Return(Pos, Box<Expr<P>>),
}

/// `EXPRESSION then BLOCK`: a test and what is done where it holds.
#[cycle(statements)]
#[derive(Drop)]
pub struct Branch<P: Phase> {
    /// The test.
    pub test: Box<Expr<P>>,
    /// What is done.
    pub block: Block<P>,
}

/// `when NAME(NAME as NAME: TYPE, ..) do BLOCK`: what is done for a case. No field, no parentheses.
#[cycle(statements)]
#[derive(Drop)]
pub struct Arm<P: Phase> {
    /// The place of `when`.
    pub at: Pos,
    /// The case's name.
    pub case: Ident<P>,
    /// The fields that are bound.
    pub binds: Vec<Bind<P>>,
    /// What is done.
    pub block: Block<P>,
}
