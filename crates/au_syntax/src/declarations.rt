//! Declarations.

use crate::expressions::Expr;
use crate::names::{Field, Ident};
use crate::phases::Phase;
use crate::statements::Block;
use crate::types::TypeText;
use au_base::Pos;

/// A universe as it is written.
#[derive(Clone, Copy, Debug, PartialEq, Eq)]
pub enum Universe {
    /// `Free`
    Free,
    /// `Linear`
    Linear,
    /// `Type`: free or linear.
    AnyType,
    /// `Region`
    Region,
}

/// `NAME: UNIVERSE`: a type parameter.
#[derive(Drop)]
pub struct TypeParameter<P: Phase> {
    /// Its name.
    pub name: Ident<P>,
    /// Its universe.
    pub universe: Universe,
}

/// `NAME: UNIVERSE(CLASS, ..)`: a type parameter behind `generic`, with its constraints. No class, no
/// parentheses.
#[derive(Drop)]
pub struct Generic<P: Phase> {
    /// The parameter.
    pub parameter: TypeParameter<P>,
    /// The classes that its types have instances of.
    pub classes: Vec<Ident<P>>,
}

/// `NAME(NAME: TYPE, ..): TYPE`: a function's name, parameters and result.
#[derive(Drop)]
pub struct Signature<P: Phase> {
    /// The name.
    pub name: Ident<P>,
    /// The parameters.
    pub parameters: Vec<Field<P>>,
    /// The type of the result.
    pub result: TypeText,
}

/// `case NAME;` or `case NAME is FIELD ..`: a case of a union.
#[derive(Drop)]
pub struct UnionCase<P: Phase> {
    /// Its name.
    pub name: Ident<P>,
    /// Its fields.
    pub fields: Vec<Field<P>>,
}

/// `method SIGNATURE is BLOCK end;`: a method of an instance.
#[derive(Drop)]
pub struct Method<P: Phase> {
    /// Its name, parameters and result.
    pub signature: Signature<P>,
    /// What it does.
    pub body: Block<P>,
    /// The place of its `end`.
    pub end: Pos,
}

/// A declaration. Each begins with the place of its first token. Lists of type parameters are empty
/// where nothing is written.
#[derive(Drop)]
pub enum Decl<P: Phase> {
    /// `constant NAME: TYPE;`, of an interface.
    Constant(Pos, Ident<P>, TypeText),
    /// `type NAME[NAME: UNIVERSE, ..]: UNIVERSE;`, of an interface.
    Opaque(Pos, Ident<P>, Vec<TypeParameter<P>>, Universe),
    /// `record NAME[NAME: UNIVERSE, ..]: UNIVERSE is FIELD .. end;`
    Record(Pos, Ident<P>, Vec<TypeParameter<P>>, Universe, Vec<Field<P>>),
    /// `union NAME[NAME: UNIVERSE, ..]: UNIVERSE is CASE .. end;`
    Union(Pos, Ident<P>, Vec<TypeParameter<P>>, Universe, Vec<UnionCase<P>>),
    /// `generic [..] function SIGNATURE;`, of an interface.
    Function(Pos, Vec<Generic<P>>, Signature<P>),
    /// `typeclass NAME(NAME: UNIVERSE) is method SIGNATURE; .. end;`
    Class(Pos, Ident<P>, TypeParameter<P>, Vec<Signature<P>>),
    /// `generic [..] instance NAME(TYPE);`, of an interface.
    Instance(Pos, Vec<Generic<P>>, Ident<P>, TypeText),
    /// `constant NAME: TYPE := EXPRESSION;`, of a body.
    ConstantBody(Pos, Ident<P>, TypeText, Box<Expr<P>>),
    /// `generic [..] function SIGNATURE is BLOCK end;`, of a body, with the place of its `end`.
    FunctionBody(Pos, Vec<Generic<P>>, Signature<P>, Block<P>, Pos),
    /// `generic [..] instance NAME(TYPE) is METHOD .. end;`, of a body.
    InstanceBody(Pos, Vec<Generic<P>>, Ident<P>, TypeText, Vec<Method<P>>),
}
