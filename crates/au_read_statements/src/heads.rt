//! The heads of statements with blocks: what stands before the block.

ghost use Rattle.std.specs.Prelude.{◌∷◌, [], map};
ghost use Rattle.au_base.specs.declared.tokens.Keyword.TheVariants as keyword;
ghost use Rattle.au_base.specs.declared.tokens.Sign.TheVariants as sign;
ghost use Rattle.au_base.specs.declared.tokens.What.TheVariants as what;
ghost use Rattle.au_read_expressions.specs.ExpressionReading.{expression_at};
ghost use Rattle.au_read_statements.specs.BlockHeads as heads;
ghost use Rattle.au_read_statements.specs.StatementReading.{end_place as end_at};
ghost use Rattle.au_read_expressions.specs.TypeReading.{type_at};
ghost use Rattle.au_read_expressions.specs.Bounds.{usual};
ghost use Rattle.au_read_expressions.specs.Reading.{Gives, closed, name_at};
ghost use Rattle.au_syntax.specs.Views.{bound, expression, placed, written};

use crate::first::borrowing;
use crate::parts::{BoundPart, end_place, mode};
use crate::simple::boxed;
use au_base::{Keyword, Pos, Sign, Token};
use au_read_expressions::{Expected, Stop, bracketed, expect, name, written_type};
use au_syntax::{Access, Bind, BorrowMode, BorrowNames, Expr, Ident, Parsed, Phase, TypeText};
use std::alloc::Global;

/// Reads an expression between these two words.
pub(crate) fn value_between(
    alloc: Global,
    levels: u32,
    first: Keyword,
    last: Keyword,
    tokens: &[Token],
) -> Result<(Box<Expr<Parsed>>, &[Token]), Stop>
    ensures { Gives (λ x. (expression ⟦<Parsed as Phase>⟧ x.0.value, x.1.now)) result
        (heads.between (what.Word first) (what.Word last) (expression_at usual levels) tokens.now) }
{
    let rest = expect(&[Expected::Word(first)], tokens)?;
    value_before(alloc, levels, last, rest)
}

/// Reads an expression and the word behind it.
fn value_before(
    alloc: Global,
    levels: u32,
    word: Keyword,
    tokens: &[Token],
) -> Result<(Box<Expr<Parsed>>, &[Token]), Stop>
    ensures { Gives (λ x. (expression ⟦<Parsed as Phase>⟧ x.0.value, x.1.now)) result
        (closed (what.Word word ∷ []) (expression_at usual levels) tokens.now) }
{
    let (value, rest) = boxed(alloc, levels, tokens)?;
    match expect(&[Expected::Word(word)], rest) {
        Ok(rest) => Ok((value, rest)),
        Err(stop) => Err(stop),
    }
}

/// The head of a loop over numbers.
#[derive(Drop)]
pub(crate) struct ForHead {
    pub variable: Ident<Parsed>,
    pub first: Box<Expr<Parsed>>,
    pub last: Box<Expr<Parsed>>,
}

/// Reads the head of a loop over numbers up to its `to`.
fn for_start(
    alloc: Global,
    levels: u32,
    tokens: &[Token],
) -> Result<(Ident<Parsed>, Box<Expr<Parsed>>, &[Token]), Stop>
    ensures { Gives (λ x.
        ((placed ⟦<Parsed as Phase>⟧ x.0, expression ⟦<Parsed as Phase>⟧ x.1.value), x.2.now)) result
        (heads.for_start (expression_at usual levels) tokens.now) }
{
    let rest = expect(&[Expected::Word(Keyword::KwFor)], tokens)?;
    let (variable, rest) = name(alloc, rest)?;
    match value_between(alloc, levels, Keyword::KwFrom, Keyword::KwTo, rest) {
        Ok((first, rest)) => Ok((variable, first, rest)),
        Err(stop) => Err(stop),
    }
}

/// Reads the head of a loop over numbers with its `do`.
pub(crate) fn for_head(
    alloc: Global,
    levels: u32,
    tokens: &[Token],
) -> Result<(ForHead, &[Token]), Stop>
    ensures { Gives (λ x. (
      (
        (placed ⟦<Parsed as Phase>⟧ x.0.variable, expression ⟦<Parsed as Phase>⟧ x.0.first.value),
        expression ⟦<Parsed as Phase>⟧ x.0.last.value,
      ),
      x.1.now,
    )) result
        (heads.for_head (expression_at usual levels) tokens.now) }
{
    let (variable, first, rest) = for_start(alloc, levels, tokens)?;
    match value_before(alloc, levels, Keyword::KwDo, rest) {
        Ok((last, rest)) => Ok((
            ForHead {
                variable,
                first,
                last,
            },
            rest,
        )),
        Err(stop) => Err(stop),
    }
}

/// The head of an arm.
#[derive(Drop)]
pub(crate) struct ArmHead {
    pub case: Ident<Parsed>,
    pub binds: Vec<Bind<Parsed>>,
}

/// Reads what an arm binds, and `do`.
fn binds_end(alloc: Global, tokens: &[Token]) -> Result<(Vec<Bind<Parsed>>, &[Token]), Stop>
    ensures { Gives (λ x. (map (bound ⟦<Parsed as Phase>⟧) x.0.items, x.1.now)) result
        (heads.binds_end usual tokens.now) }
{
    let (binds, rest) = bracketed::<BoundPart>(
        alloc,
        Sign::LeftParenthesis,
        Sign::RightParenthesis,
        tokens,
    )?;
    match expect(&[Expected::Word(Keyword::KwDo)], rest) {
        Ok(rest) => Ok((binds, rest)),
        Err(stop) => Err(stop),
    }
}

/// Reads the head of an arm with its `do`.
pub(crate) fn arm_head(alloc: Global, tokens: &[Token]) -> Result<(ArmHead, &[Token]), Stop>
    ensures { Gives (λ x.
        ((placed ⟦<Parsed as Phase>⟧ x.0.case, map (bound ⟦<Parsed as Phase>⟧) x.0.binds.items), x.1.now))
        result
        (heads.arm_head usual tokens.now) }
{
    let rest = expect(&[Expected::Word(Keyword::KwWhen)], tokens)?;
    let (case, rest) = name(alloc, rest)?;
    match binds_end(alloc, rest) {
        Ok((binds, rest)) => Ok((ArmHead { case, binds }, rest)),
        Err(stop) => Err(stop),
    }
}

/// Reads a name between `as` and `in`.
fn reference_name(alloc: Global, tokens: &[Token]) -> Result<(Ident<Parsed>, &[Token]), Stop>
    ensures { Gives (λ x. (placed ⟦<Parsed as Phase>⟧ x.0, x.1.now)) result
        (heads.between (what.Word keyword.KwAs) (what.Word keyword.KwIn) name_at tokens.now) }
{
    let rest = expect(&[Expected::Word(Keyword::KwAs)], tokens)?;
    let (reference, rest) = name(alloc, rest)?;
    match expect(&[Expected::Word(Keyword::KwIn)], rest) {
        Ok(rest) => Ok((reference, rest)),
        Err(stop) => Err(stop),
    }
}

/// Reads the head of a borrow in a region up to its `in`.
fn borrow_start(
    alloc: Global,
    access: Access,
    tokens: &[Token],
) -> Result<(Ident<Parsed>, Ident<Parsed>, &[Token]), Stop>
    ensures { Gives (λ x. ((placed ⟦<Parsed as Phase>⟧ x.0, placed ⟦<Parsed as Phase>⟧ x.1), x.2.now)) result
        (heads.borrow_start access tokens.now) }
{
    let rest = borrowing(access, tokens)?;
    let (variable, rest) = name(alloc, rest)?;
    match reference_name(alloc, rest) {
        Ok((reference, rest)) => Ok((variable, reference, rest)),
        Err(stop) => Err(stop),
    }
}

/// Reads the head of a borrow in a region.
pub(crate) fn borrow_head(
    alloc: Global,
    access: Access,
    tokens: &[Token],
) -> Result<(BorrowNames<Parsed>, &[Token]), Stop>
    ensures { Gives (λ x. (
      (
        (placed ⟦<Parsed as Phase>⟧ x.0.variable, placed ⟦<Parsed as Phase>⟧ x.0.reference),
        placed ⟦<Parsed as Phase>⟧ x.0.region,
      ),
      x.1.now,
    )) result
        (heads.borrow_head access tokens.now) }
{
    let (variable, reference, rest) = borrow_start(alloc, access, tokens)?;
    match name(alloc, rest) {
        Ok((region, rest)) => Ok((
            BorrowNames {
                variable,
                reference,
                region,
            },
            rest,
        )),
        Err(stop) => Err(stop),
    }
}

/// The head of a borrow with the type of its reference.
#[derive(Drop)]
pub(crate) struct TypedHead {
    pub reference: Ident<Parsed>,
    pub of: TypeText,
    pub mode: BorrowMode,
    pub variable: Ident<Parsed>,
}

/// Reads a type between `:` and `:=`.
fn reference_type(alloc: Global, tokens: &[Token]) -> Result<(TypeText, &[Token]), Stop>
    ensures { Gives (λ x. (written x.0, x.1.now)) result
        (heads.between (what.Sign sign.Colon) (what.Sign sign.Assign) (type_at usual) tokens.now) }
{
    let rest = expect(&[Expected::Sign(Sign::Colon)], tokens)?;
    let (of, rest) = written_type(alloc, rest)?;
    match expect(&[Expected::Sign(Sign::Assign)], rest) {
        Ok(rest) => Ok((of, rest)),
        Err(stop) => Err(stop),
    }
}

/// Reads the head of a borrow with a type up to its `:=`.
fn typed_start(alloc: Global, tokens: &[Token]) -> Result<(Ident<Parsed>, TypeText, &[Token]), Stop>
    ensures { Gives (λ x. ((placed ⟦<Parsed as Phase>⟧ x.0, written x.1), x.2.now)) result
        (heads.typed_start usual tokens.now) }
{
    let rest = expect(&[Expected::Word(Keyword::KwBorrow)], tokens)?;
    let (reference, rest) = name(alloc, rest)?;
    match reference_type(alloc, rest) {
        Ok((of, rest)) => Ok((reference, of, rest)),
        Err(stop) => Err(stop),
    }
}

/// Reads the head of a borrow with the type of its reference.
pub(crate) fn typed_head(alloc: Global, tokens: &[Token]) -> Result<(TypedHead, &[Token]), Stop>
    ensures { Gives (λ x. (
      (
        ((placed ⟦<Parsed as Phase>⟧ x.0.reference, written x.0.of), x.0.mode),
        placed ⟦<Parsed as Phase>⟧ x.0.variable,
      ),
      x.1.now,
    )) result
        (heads.typed_head usual tokens.now) }
{
    let (reference, of, rest) = typed_start(alloc, tokens)?;
    let (mode, rest) = mode(rest)?;
    match name(alloc, rest) {
        Ok((variable, rest)) => Ok((
            TypedHead {
                reference,
                of,
                mode,
                variable,
            },
            rest,
        )),
        Err(stop) => Err(stop),
    }
}

/// Reads `end borrow;`, and returns the place of the `end`.
pub(crate) fn borrow_end(tokens: &[Token]) -> Result<(Pos, &[Token]), Stop>
    ensures { Gives (λ x. (x.0, x.1.now)) result
        (closed (what.Word keyword.KwBorrow ∷ what.Sign sign.Semicolon ∷ []) end_at tokens.now) }
{
    let (end, rest) = end_place(tokens)?;
    let known = [
        Expected::Word(Keyword::KwBorrow),
        Expected::Sign(Sign::Semicolon),
    ];
    let rest = expect(&known, rest)?;
    Ok((end, rest))
}
