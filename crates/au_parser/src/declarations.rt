//! Constants, and declarations by their first tokens.

ghost use Rattle.std.specs.Prelude.{◌≡◌, ◌∷◌, [], map};
ghost use Rattle.au_base.specs.declared.tokens.Sign.TheVariants as sign;
ghost use Rattle.au_base.specs.declared.tokens.What.TheVariants as what;
ghost use Rattle.au_read_expressions.specs.ExpressionReading.{expression_at};
ghost use Rattle.au_read_expressions.specs.TypeReading.{type_at};
ghost use Rattle.au_read_expressions.specs.Reading.{Gives, front};
ghost use Rattle.au_read_expressions.specs.Reading as steps;
ghost use Rattle.au_read_expressions.specs.Bounds.{usual};
ghost use Rattle.au_parser.specs.DeclarationReading.{begins_declaration, constant_at, constant_body_at};
ghost use Rattle.au_parser.specs.DeclarationReading.{declaration_at};
ghost use Rattle.au_syntax.specs.Plain.{PlainDeclaration};
ghost use Rattle.au_syntax.specs.Views as views;
ghost use Rattle.au_syntax.specs.declared.modules.Part.TheVariants as file_part;

use crate::functions::{class, general};
use crate::types::{opaque, record, union};
use au_base::{Keyword, MOST_NESTING, Sign, Token, What};
use au_read_expressions::{
    Entry, Expected, Stop, expect, expression, name, place, repeated, stop_before, written_type,
};
use au_syntax::{Decl, Expr, Parsed, Part, Phase, TypeText};
use std::alloc::Global;

/// Reads `:`, a type and `;`.
fn last_type(alloc: Global, tokens: &[Token]) -> Result<(TypeText, &[Token]), Stop>
    ensures { Gives (λ x. (views.written x.0, x.1.now)) result
        (steps.behind_tokens (what.Sign sign.Colon ∷ [])
        (steps.closed (what.Sign sign.Semicolon ∷ []) (type_at usual)) tokens.now) }
{
    let rest = expect(&[Expected::Sign(Sign::Colon)], tokens)?;
    let (of, rest) = written_type(alloc, rest)?;
    match expect(&[Expected::Sign(Sign::Semicolon)], rest) {
        Ok(rest) => Ok((of, rest)),
        Err(stop) => Err(stop),
    }
}

/// Reads an expression.
fn boxed(alloc: Global, tokens: &[Token]) -> Result<(Box<Expr<Parsed>>, &[Token]), Stop>
    ensures { Gives (λ x. (views.expression ⟦<Parsed as Phase>⟧ x.0.value, x.1.now)) result
        (expression_at usual usual.nesting tokens.now) }
{
    let (value, rest) = expression(alloc, MOST_NESTING, tokens)?;
    let value = Box::new(alloc, value)?;
    Ok((value, rest))
}

/// Reads `:=`, an expression and `;`.
fn last_value(alloc: Global, tokens: &[Token]) -> Result<(Box<Expr<Parsed>>, &[Token]), Stop>
    ensures { Gives (λ x. (views.expression ⟦<Parsed as Phase>⟧ x.0.value, x.1.now)) result
        (steps.behind_tokens (what.Sign sign.Assign ∷ [])
        (steps.closed (what.Sign sign.Semicolon ∷ []) (expression_at usual usual.nesting)) tokens.now) }
{
    let rest = expect(&[Expected::Sign(Sign::Assign)], tokens)?;
    let (value, rest) = boxed(alloc, rest)?;
    match expect(&[Expected::Sign(Sign::Semicolon)], rest) {
        Ok(rest) => Ok((value, rest)),
        Err(stop) => Err(stop),
    }
}

/// Reads `:`, a type and a value behind it.
fn type_and_value(
    alloc: Global,
    tokens: &[Token],
) -> Result<(TypeText, Box<Expr<Parsed>>, &[Token]), Stop>
    ensures { Gives (λ x. ((views.written x.0, views.expression ⟦<Parsed as Phase>⟧ x.1.value), x.2.now))
        result
        (steps.behind_tokens (what.Sign sign.Colon ∷ []) (steps.pair (type_at usual)
        (steps.behind_tokens (what.Sign sign.Assign ∷ [])
        (steps.closed (what.Sign sign.Semicolon ∷ []) (expression_at usual usual.nesting)))) tokens.now) }
{
    let rest = expect(&[Expected::Sign(Sign::Colon)], tokens)?;
    let (of, rest) = written_type(alloc, rest)?;
    match last_value(alloc, rest) {
        Ok((value, rest)) => Ok((of, value, rest)),
        Err(stop) => Err(stop),
    }
}

/// Reads a constant of an interface.
///
/// # Errors
///
/// `Fault::Syntax` where a token is missing, and `Fault::Passed` where its type passes a limit.
#[tactic(auto, unfolding(crate::specs::DeclarationReading::constant_at))]
pub fn constant(alloc: Global, tokens: &[Token]) -> Result<(Decl<Parsed>, &[Token]), Stop>
    ensures { Gives (λ x. (views.declaration ⟦<Parsed as Phase>⟧ x.0, x.1.now)) result
        (constant_at usual tokens.now) }
{
    let at = place(tokens);
    let rest = expect(&[Expected::Word(Keyword::KwConstant)], tokens)?;
    let (name, rest) = name(alloc, rest)?;
    match last_type(alloc, rest) {
        Ok((of, rest)) => Ok((Decl::Constant(at, name, of), rest)),
        Err(stop) => Err(stop),
    }
}

/// Reads a constant of a body.
///
/// # Errors
///
/// `Fault::Syntax` where a token is missing, and `Fault::Passed` where a limit is passed.
#[tactic(auto, unfolding(crate::specs::DeclarationReading::constant_body_at))]
pub fn constant_body(alloc: Global, tokens: &[Token]) -> Result<(Decl<Parsed>, &[Token]), Stop>
    ensures { Gives (λ x. (views.declaration ⟦<Parsed as Phase>⟧ x.0, x.1.now)) result
        (constant_body_at usual tokens.now) }
{
    let at = place(tokens);
    let rest = expect(&[Expected::Word(Keyword::KwConstant)], tokens)?;
    let (name, rest) = name(alloc, rest)?;
    match type_and_value(alloc, rest) {
        Ok((of, value, rest)) => Ok((Decl::ConstantBody(at, name, of, value), rest)),
        Err(stop) => Err(stop),
    }
}

/// Reads a declaration of an interface or of a body.
///
/// # Errors
///
/// `Fault::Syntax` at the first token that continues no declaration, and `Fault::Passed` where a
/// limit is passed.
#[tactic(auto, unfolding(crate::specs::DeclarationReading::declaration_at))]
pub fn declaration(
    alloc: Global,
    part: Part,
    tokens: &[Token],
) -> Result<(Decl<Parsed>, &[Token]), Stop>
    ensures { Gives (λ x. (views.declaration ⟦<Parsed as Phase>⟧ x.0, x.1.now)) result
        (declaration_at usual part tokens.now) }
{
    let [first, ..] = tokens else {
        return Err(stop_before(tokens));
    };
    match &first.what {
        What::Word(Keyword::KwConstant) => match part {
            Part::Interface => constant(alloc, tokens),
            Part::Body => constant_body(alloc, tokens),
        },
        What::Word(Keyword::KwType) => match part {
            Part::Interface => opaque(alloc, tokens),
            Part::Body => Err(stop_before(tokens)),
        },
        What::Word(Keyword::KwRecord) => record(alloc, tokens),
        What::Word(Keyword::KwUnion) => union(alloc, tokens),
        What::Word(Keyword::KwTypeclass) => class(alloc, tokens),
        What::Word(Keyword::KwGeneric | Keyword::KwFunction | Keyword::KwInstance) => {
            general(alloc, part, tokens)
        }
        _ => Err(stop_before(tokens)),
    }
}

/// Whether a declaration of an interface or of a body begins here.
pub fn begins(part: Part, tokens: &[Token]) -> bool
    ensures { result ≡ begins_declaration part (front tokens.now) }
{
    let [first, ..] = tokens else {
        return false;
    };
    match &first.what {
        What::Word(Keyword::KwConstant) => true,
        What::Word(Keyword::KwType) => match part {
            Part::Interface => true,
            Part::Body => false,
        },
        What::Word(Keyword::KwRecord) => true,
        What::Word(Keyword::KwUnion) => true,
        What::Word(Keyword::KwTypeclass) => true,
        What::Word(Keyword::KwGeneric) => true,
        What::Word(Keyword::KwFunction) => true,
        What::Word(Keyword::KwInstance) => true,
        _ => false,
    }
}

/// A declaration of an interface.
pub struct InterfaceEntry;

impl Entry for InterfaceEntry {
    type Item = Decl<Parsed>;

    ghost Seen = { PlainDeclaration };

    ghost see = { views.declaration ⟦<Parsed as Phase>⟧ };

    ghost begins_by = { begins_declaration file_part.Interface };

    ghost read_at = { declaration_at usual file_part.Interface };

    fn begins(tokens: &[Token]) -> bool {
        begins(Part::Interface, tokens)
    }

    fn read(alloc: Global, tokens: &[Token]) -> Result<(Decl<Parsed>, &[Token]), Stop> {
        declaration(alloc, Part::Interface, tokens)
    }
}

/// A declaration of a body.
pub struct BodyEntry;

impl Entry for BodyEntry {
    type Item = Decl<Parsed>;

    ghost Seen = { PlainDeclaration };

    ghost see = { views.declaration ⟦<Parsed as Phase>⟧ };

    ghost begins_by = { begins_declaration file_part.Body };

    ghost read_at = { declaration_at usual file_part.Body };

    fn begins(tokens: &[Token]) -> bool {
        begins(Part::Body, tokens)
    }

    fn read(alloc: Global, tokens: &[Token]) -> Result<(Decl<Parsed>, &[Token]), Stop> {
        declaration(alloc, Part::Body, tokens)
    }
}

/// Reads the declarations of an interface or of a body.
///
/// # Errors
///
/// The fault of the first declaration that isn't read.
pub fn declarations(
    alloc: Global,
    part: Part,
    tokens: &[Token],
) -> Result<(Vec<Decl<Parsed>>, &[Token]), Stop>
    ensures { Gives (λ x. (map (views.declaration ⟦<Parsed as Phase>⟧) x.0.items, x.1.now)) result
        (steps.repeated (begins_declaration part) (declaration_at usual part) tokens.now) }
{
    match part {
        Part::Interface => repeated::<InterfaceEntry>(alloc, tokens),
        Part::Body => repeated::<BodyEntry>(alloc, tokens),
    }
}
