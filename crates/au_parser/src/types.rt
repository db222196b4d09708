//! Records, unions and opaque types.

ghost use Rattle.std.specs.Prelude.{List, ℕ, map};
ghost use Rattle.au_read_expressions.specs.Reading.{Gives};
ghost use Rattle.au_read_expressions.specs.Bounds.{usual};
ghost use Rattle.au_read_expressions.specs.Reading as steps;
ghost use Rattle.au_base.specs.declared.tokens.Keyword.TheVariants as word;
ghost use Rattle.au_base.specs.declared.tokens.What.TheVariants as what;
ghost use Rattle.au_parser.specs.DeclarationReading.{is_name, field_at, first_and_rest, members_at};
ghost use Rattle.au_parser.specs.DeclarationReading.{case_fields_at, variant_at, opaque_at, record_at};
ghost use Rattle.au_parser.specs.DeclarationReading.{union_at};
ghost use Rattle.au_syntax.specs.Modules.{Variant};
ghost use Rattle.au_syntax.specs.Types.{Labelled};
ghost use Rattle.au_syntax.specs.Views as views;

use crate::parts::{inner_entries, labelled, type_head};
use au_base::{Keyword, Sign, Token, What};
use au_read_expressions::{
    Entry, Expected, Stop, after, expect, is_sign, is_word, name, place, repeated,
};
use au_syntax::{Decl, Field, Parsed, Phase, UnionCase};
use std::alloc::Global;

/// Reads a field with its semicolon.
///
/// # Errors
///
/// `Fault::Syntax` where a token is missing, and `Fault::Passed` where its type passes a limit.
pub fn field(alloc: Global, tokens: &[Token]) -> Result<(Field<Parsed>, &[Token]), Stop>
    ensures { Gives (λ x. (views.labelled ⟦<Parsed as Phase>⟧ x.0, x.1.now)) result
        (field_at usual tokens.now) }
{
    let (field, rest) = labelled(alloc, tokens)?;
    match expect(&[Expected::Sign(Sign::Semicolon)], rest) {
        Ok(rest) => Ok((field, rest)),
        Err(stop) => Err(stop),
    }
}

/// A field, which begins with its name.
pub struct FieldEntry;

impl Entry for FieldEntry {
    type Item = Field<Parsed>;

    ghost Seen = { Labelled (List ℕ) };

    ghost see = { views.labelled ⟦<Parsed as Phase>⟧ };

    ghost begins_by = { is_name };

    ghost read_at = { field_at usual };

    fn begins(tokens: &[Token]) -> bool {
        match tokens {
            [] => false,
            [first, ..] => match &first.what {
                What::Name(_) => true,
                _ => false,
            },
        }
    }

    fn read(alloc: Global, tokens: &[Token]) -> Result<(Field<Parsed>, &[Token]), Stop> {
        field(alloc, tokens)
    }
}

/// Reads fields that stand one after another, or none.
///
/// # Errors
///
/// The fault of the first field that isn't read.
pub fn members(alloc: Global, tokens: &[Token]) -> Result<(Vec<Field<Parsed>>, &[Token]), Stop>
    ensures { Gives (λ x. (map (views.labelled ⟦<Parsed as Phase>⟧) x.0.items, x.1.now)) result
        (members_at usual tokens.now) }
{
    repeated::<FieldEntry>(alloc, tokens)
}

/// Reads fields that stand one after another, one at least.
fn some_members(alloc: Global, tokens: &[Token]) -> Result<(Vec<Field<Parsed>>, &[Token]), Stop>
    ensures { Gives (λ x. (map (views.labelled ⟦<Parsed as Phase>⟧) x.0.items, x.1.now)) result
        (steps.shaped first_and_rest (steps.pair (field_at usual) (members_at usual)) tokens.now) }
{
    let (first, rest) = field(alloc, tokens)?;
    let (others, rest) = members(alloc, rest)?;
    let mut fields = others;
    fields.insert(0, first)?;
    Ok((fields, rest))
}

/// Reads the rest of a case behind its name: a semicolon, or its fields.
fn case_fields(alloc: Global, tokens: &[Token]) -> Result<(Vec<Field<Parsed>>, &[Token]), Stop>
    ensures { Gives (λ x. (map (views.labelled ⟦<Parsed as Phase>⟧) x.0.items, x.1.now)) result
        (case_fields_at usual tokens.now) }
{
    if is_sign(Sign::Semicolon, tokens) {
        let rest = expect(&[Expected::Sign(Sign::Semicolon)], tokens)?;
        return Ok((Vec::new(alloc), rest));
    }
    let rest = expect(&[Expected::Word(Keyword::KwIs)], tokens)?;
    some_members(alloc, rest)
}

/// A case of a union.
pub struct CaseEntry;

impl Entry for CaseEntry {
    type Item = UnionCase<Parsed>;

    ghost Seen = { Variant (List ℕ) };

    ghost see = { views.variant ⟦<Parsed as Phase>⟧ };

    ghost begins_by = { steps.is_front (what.Word word.KwCase) };

    ghost read_at = { variant_at usual };

    fn begins(tokens: &[Token]) -> bool {
        is_word(Keyword::KwCase, tokens)
    }

    #[tactic(auto, unfolding(crate::specs::DeclarationReading::variant_at))]
    fn read(alloc: Global, tokens: &[Token]) -> Result<(UnionCase<Parsed>, &[Token]), Stop> {
        let rest = expect(&[Expected::Word(Keyword::KwCase)], tokens)?;
        let (name, rest) = name(alloc, rest)?;
        match case_fields(alloc, rest) {
            Ok((fields, rest)) => Ok((UnionCase { name, fields }, rest)),
            Err(stop) => Err(stop),
        }
    }
}

/// Reads an opaque type.
///
/// # Errors
///
/// `Fault::Syntax` where a token is missing.
#[tactic(auto, unfolding(crate::specs::DeclarationReading::opaque_at))]
pub fn opaque(alloc: Global, tokens: &[Token]) -> Result<(Decl<Parsed>, &[Token]), Stop>
    ensures { Gives (λ x. (views.declaration ⟦<Parsed as Phase>⟧ x.0, x.1.now)) result
        (opaque_at usual tokens.now) }
{
    let at = place(tokens);
    let rest = expect(&[Expected::Word(Keyword::KwType)], tokens)?;
    let (head, rest) = type_head(alloc, rest)?;
    let universe = head.universe;
    match expect(&[Expected::Sign(Sign::Semicolon)], rest) {
        Ok(rest) => Ok((Decl::Opaque(at, head.name, head.parameters, universe), rest)),
        Err(stop) => Err(stop),
    }
}

/// Reads a record.
///
/// # Errors
///
/// `Fault::Syntax` where a token is missing, and `Fault::Passed` where a field's type passes a limit.
#[tactic(auto, unfolding(crate::specs::DeclarationReading::record_at))]
pub fn record(alloc: Global, tokens: &[Token]) -> Result<(Decl<Parsed>, &[Token]), Stop>
    ensures { Gives (λ x. (views.declaration ⟦<Parsed as Phase>⟧ x.0, x.1.now)) result
        (record_at usual tokens.now) }
{
    let at = place(tokens);
    let rest = expect(&[Expected::Word(Keyword::KwRecord)], tokens)?;
    let (head, rest) = type_head(alloc, rest)?;
    let universe = head.universe;
    match inner_entries::<FieldEntry>(alloc, rest) {
        Ok((fields, rest)) => Ok((
            Decl::Record(at, head.name, head.parameters, universe, fields),
            rest,
        )),
        Err(stop) => Err(stop),
    }
}

/// Reads a union.
///
/// # Errors
///
/// `Fault::Syntax` where a token is missing, and `Fault::Passed` where a field's type passes a limit.
#[tactic(auto, unfolding(crate::specs::DeclarationReading::union_at))]
pub fn union(alloc: Global, tokens: &[Token]) -> Result<(Decl<Parsed>, &[Token]), Stop>
    ensures { Gives (λ x. (views.declaration ⟦<Parsed as Phase>⟧ x.0, x.1.now)) result
        (union_at usual tokens.now) }
{
    let at = place(tokens);
    let rest = expect(&[Expected::Word(Keyword::KwUnion)], tokens)?;
    let (head, rest) = type_head(alloc, rest)?;
    let universe = head.universe;
    match inner_entries::<CaseEntry>(alloc, rest) {
        Ok((cases, rest)) => Ok((
            Decl::Union(at, head.name, head.parameters, universe, cases),
            rest,
        )),
        Err(stop) => Err(stop),
    }
}
