//! Functions, instances and classes.

ghost use Rattle.std.specs.Prelude.{◌∷◌, [], List, ℕ, map, Some};
ghost use Rattle.au_read_expressions.specs.Reading.{Gives};
ghost use Rattle.au_read_expressions.specs.Reading as steps;
ghost use Rattle.au_read_expressions.specs.Bounds.{usual};
ghost use Rattle.au_base.specs.declared.tokens.Keyword.TheVariants as word;
ghost use Rattle.au_base.specs.declared.tokens.Sign.TheVariants as sign;
ghost use Rattle.au_base.specs.declared.tokens.What.TheVariants as what;
ghost use Rattle.au_parser.specs.DeclarationReading.{class_at, class_method_at, general_at};
ghost use Rattle.au_parser.specs.DeclarationReading.{generalized_at};
ghost use Rattle.au_parser.specs.DeclarationReading.{generalized_in, generalized_of, header_at};
ghost use Rattle.au_parser.specs.DeclarationReading.{in_universe_at, instance_head_at, method_at};
ghost use Rattle.au_read_statements.specs.StatementReading.{block_at};
ghost use Rattle.au_read_statements.specs.StatementReading as statements;
ghost use Rattle.au_syntax.specs.Modules.{Header};
ghost use Rattle.au_syntax.specs.Plain.{PlainMethod};
ghost use Rattle.au_syntax.specs.Views as views;
ghost use Rattle.au_syntax.specs.declared.modules.Part.TheVariants as file_part;

use crate::parts::{
    InstanceHead, entries, generics, inner_entries, instance_head, signature, type_parameter,
};
use au_base::{Keyword, MOST_NESTING, Pos, Sign, Token, What};
use au_read_expressions::{Entry, Expected, Stop, expect, is_word, name, place, stop_before};
use au_read_statements::{block, end_place};
use au_syntax::{Block, Decl, Generic, Method, Parsed, Part, Phase, Signature, TypeParameter};
use std::alloc::Global;

/// A method of a class.
pub struct ClassMethodEntry;

impl Entry for ClassMethodEntry {
    type Item = Signature<Parsed>;

    ghost Seen = { Header (List ℕ) };

    ghost see = { views.header ⟦<Parsed as Phase>⟧ };

    ghost begins_by = { steps.is_front (what.Word word.KwMethod) };

    ghost read_at = { class_method_at usual };

    fn begins(tokens: &[Token]) -> bool {
        is_word(Keyword::KwMethod, tokens)
    }

    #[tactic(auto, unfolding(crate::specs::DeclarationReading::class_method_at))]
    fn read(alloc: Global, tokens: &[Token]) -> Result<(Signature<Parsed>, &[Token]), Stop> {
        let rest = expect(&[Expected::Word(Keyword::KwMethod)], tokens)?;
        ended_signature(alloc, rest)
    }
}

/// Reads a function's name, parameters and result, and `;`.
fn ended_signature(alloc: Global, tokens: &[Token]) -> Result<(Signature<Parsed>, &[Token]), Stop>
    ensures { Gives (λ x. (views.header ⟦<Parsed as Phase>⟧ x.0, x.1.now)) result
        (steps.closed (what.Sign sign.Semicolon ∷ []) (header_at usual) tokens.now) }
{
    let (signature, rest) = signature(alloc, tokens)?;
    match expect(&[Expected::Sign(Sign::Semicolon)], rest) {
        Ok(rest) => Ok((signature, rest)),
        Err(stop) => Err(stop),
    }
}

/// Reads `end;`, and returns the place of the `end`.
fn ended_place(tokens: &[Token]) -> Result<(Pos, &[Token]), Stop>
    ensures { Gives (λ x. (x.0, x.1.now)) result
        (steps.closed (what.Sign sign.Semicolon ∷ []) statements.end_place tokens.now) }
{
    let (end, rest) = end_place(tokens)?;
    let rest = expect(&[Expected::Sign(Sign::Semicolon)], rest)?;
    Ok((end, rest))
}

/// Reads `is` and a block up to its `end;`, and returns the place of the `end`.
fn function_block(alloc: Global, tokens: &[Token]) -> Result<(Block<Parsed>, Pos, &[Token]), Stop>
    ensures { Gives (λ x. ((views.block ⟦<Parsed as Phase>⟧ x.0, x.1), x.2.now)) result
        (steps.behind_tokens (what.Word word.KwIs ∷ [])
        (steps.pair (block_at usual usual.nesting)
        (steps.closed (what.Sign sign.Semicolon ∷ []) statements.end_place)) tokens.now) }
{
    let rest = expect(&[Expected::Word(Keyword::KwIs)], tokens)?;
    let (body, rest) = block(alloc, MOST_NESTING, rest)?;
    match ended_place(rest) {
        Ok((end, rest)) => Ok((body, end, rest)),
        Err(stop) => Err(stop),
    }
}

/// Reads a word, a function's name, parameters and result, and its block.
fn headed_block(
    alloc: Global,
    first: Keyword,
    tokens: &[Token],
) -> Result<(Signature<Parsed>, Block<Parsed>, Pos, &[Token]), Stop>
    ensures { Gives (λ x.
        ((views.header ⟦<Parsed as Phase>⟧ x.0, (views.block ⟦<Parsed as Phase>⟧ x.1, x.2)), x.3.now)) result
        (steps.behind_tokens (what.Word first ∷ []) (steps.pair (header_at usual)
        (steps.behind_tokens (what.Word word.KwIs ∷ [])
        (steps.pair (block_at usual usual.nesting)
        (steps.closed (what.Sign sign.Semicolon ∷ []) statements.end_place)))) tokens.now) }
{
    let rest = expect(&[Expected::Word(first)], tokens)?;
    let (signature, rest) = signature(alloc, rest)?;
    match function_block(alloc, rest) {
        Ok((body, end, rest)) => Ok((signature, body, end, rest)),
        Err(stop) => Err(stop),
    }
}

/// A method of an instance.
pub struct MethodEntry;

impl Entry for MethodEntry {
    type Item = Method<Parsed>;

    ghost Seen = { PlainMethod };

    ghost see = { views.method_body ⟦<Parsed as Phase>⟧ };

    ghost begins_by = { steps.is_front (what.Word word.KwMethod) };

    ghost read_at = { method_at usual };

    fn begins(tokens: &[Token]) -> bool {
        is_word(Keyword::KwMethod, tokens)
    }

    #[tactic(auto, unfolding(crate::specs::DeclarationReading::method_at))]
    fn read(alloc: Global, tokens: &[Token]) -> Result<(Method<Parsed>, &[Token]), Stop> {
        match headed_block(alloc, Keyword::KwMethod, tokens) {
            Ok((signature, body, end, rest)) => Ok((
                Method {
                    signature,
                    body,
                    end,
                },
                rest,
            )),
            Err(stop) => Err(stop),
        }
    }
}

/// Reads `)`, `is` and the methods of a class.
fn class_methods(
    alloc: Global,
    tokens: &[Token],
) -> Result<(Vec<Signature<Parsed>>, &[Token]), Stop>
    ensures { Gives (λ x. (map (views.header ⟦<Parsed as Phase>⟧) x.0.items, x.1.now)) result
        (steps.behind_tokens (what.Sign sign.RightParenthesis ∷ what.Word word.KwIs ∷ [])
        (steps.closed (what.Word word.KwEnd ∷ what.Sign sign.Semicolon ∷ [])
        (steps.repeated (steps.is_front (what.Word word.KwMethod)) (class_method_at usual))) tokens.now) }
{
    let middle = [
        Expected::Sign(Sign::RightParenthesis),
        Expected::Word(Keyword::KwIs),
    ];
    let rest = expect(&middle, tokens)?;
    entries::<ClassMethodEntry>(alloc, rest)
}

/// Reads the parameter of a class in its parentheses, and its methods.
fn class_parts(
    alloc: Global,
    tokens: &[Token],
) -> Result<(TypeParameter<Parsed>, Vec<Signature<Parsed>>, &[Token]), Stop>
    ensures { Gives (λ x. (
      (views.in_universe ⟦<Parsed as Phase>⟧ x.0, map (views.header ⟦<Parsed as Phase>⟧) x.1.items),
      x.2.now,
    )) result
        (steps.behind_tokens (what.Sign sign.LeftParenthesis ∷ []) (steps.pair in_universe_at
        (steps.behind_tokens (what.Sign sign.RightParenthesis ∷ what.Word word.KwIs ∷ [])
        (steps.closed (what.Word word.KwEnd ∷ what.Sign sign.Semicolon ∷ [])
        (steps.repeated (steps.is_front (what.Word word.KwMethod)) (class_method_at usual))))) tokens.now) }
{
    let rest = expect(&[Expected::Sign(Sign::LeftParenthesis)], tokens)?;
    let (parameter, rest) = type_parameter(alloc, rest)?;
    match class_methods(alloc, rest) {
        Ok((methods, rest)) => Ok((parameter, methods, rest)),
        Err(stop) => Err(stop),
    }
}

/// Reads a class.
///
/// # Errors
///
/// `Fault::Syntax` where a token is missing, and `Fault::Passed` where a type passes a limit.
#[tactic(auto, unfolding(crate::specs::DeclarationReading::class_at))]
pub fn class(alloc: Global, tokens: &[Token]) -> Result<(Decl<Parsed>, &[Token]), Stop>
    ensures { Gives (λ x. (views.declaration ⟦<Parsed as Phase>⟧ x.0, x.1.now)) result
        (class_at usual tokens.now) }
{
    let at = place(tokens);
    let rest = expect(&[Expected::Word(Keyword::KwTypeclass)], tokens)?;
    let (name, rest) = name(alloc, rest)?;
    match class_parts(alloc, rest) {
        Ok((parameter, methods, rest)) => Ok((Decl::Class(at, name, parameter, methods), rest)),
        Err(stop) => Err(stop),
    }
}

/// Reads `function`, its name, parameters and result, and `;`.
fn function_signature(
    alloc: Global,
    tokens: &[Token],
) -> Result<(Signature<Parsed>, &[Token]), Stop>
    ensures { Gives (λ x. (views.header ⟦<Parsed as Phase>⟧ x.0, x.1.now)) result
        (steps.behind_tokens (what.Word word.KwFunction ∷ [])
        (steps.closed (what.Sign sign.Semicolon ∷ []) (header_at usual)) tokens.now) }
{
    let rest = expect(&[Expected::Word(Keyword::KwFunction)], tokens)?;
    ended_signature(alloc, rest)
}

/// Reads a function of an interface behind its type parameters.
fn function(
    alloc: Global,
    at: Pos,
    generics: Vec<Generic<Parsed>>,
    tokens: &[Token],
) -> Result<(Decl<Parsed>, &[Token]), Stop>
    ensures { Gives (λ x. (views.declaration ⟦<Parsed as Phase>⟧ x.0, x.1.now)) result
        (steps.shaped (generalized_of at)
        (λ ts. steps.joined_at (generalized_in usual file_part.Interface (Some (what.Word word.KwFunction)))
        (map (views.constrained ⟦<Parsed as Phase>⟧) generics.items, ts)) tokens.now) }
{
    match function_signature(alloc, tokens) {
        Ok((signature, rest)) => Ok((Decl::Function(at, generics, signature), rest)),
        Err(stop) => Err(stop),
    }
}

/// Reads the class and the type of an instance, and `;`.
fn ended_instance(alloc: Global, tokens: &[Token]) -> Result<(InstanceHead, &[Token]), Stop>
    ensures { Gives (λ x. ((views.placed ⟦<Parsed as Phase>⟧ x.0.class, views.written x.0.of), x.1.now))
        result
        (steps.closed (what.Sign sign.Semicolon ∷ []) (instance_head_at usual) tokens.now) }
{
    let (head, rest) = instance_head(alloc, tokens)?;
    match expect(&[Expected::Sign(Sign::Semicolon)], rest) {
        Ok(rest) => Ok((head, rest)),
        Err(stop) => Err(stop),
    }
}

/// Reads an instance of an interface behind its type parameters.
fn instance(
    alloc: Global,
    at: Pos,
    generics: Vec<Generic<Parsed>>,
    tokens: &[Token],
) -> Result<(Decl<Parsed>, &[Token]), Stop>
    ensures { Gives (λ x. (views.declaration ⟦<Parsed as Phase>⟧ x.0, x.1.now)) result
        (steps.shaped (generalized_of at)
        (λ ts. steps.joined_at (generalized_in usual file_part.Interface (Some (what.Word word.KwInstance)))
        (map (views.constrained ⟦<Parsed as Phase>⟧) generics.items, ts)) tokens.now) }
{
    match ended_instance(alloc, tokens) {
        Ok((head, rest)) => Ok((Decl::Instance(at, generics, head.class, head.of), rest)),
        Err(stop) => Err(stop),
    }
}

/// Reads a function of a body behind its type parameters.
fn function_body(
    alloc: Global,
    at: Pos,
    generics: Vec<Generic<Parsed>>,
    tokens: &[Token],
) -> Result<(Decl<Parsed>, &[Token]), Stop>
    ensures { Gives (λ x. (views.declaration ⟦<Parsed as Phase>⟧ x.0, x.1.now)) result
        (steps.shaped (generalized_of at)
        (λ ts. steps.joined_at (generalized_in usual file_part.Body (Some (what.Word word.KwFunction)))
        (map (views.constrained ⟦<Parsed as Phase>⟧) generics.items, ts)) tokens.now) }
{
    match headed_block(alloc, Keyword::KwFunction, tokens) {
        Ok((signature, body, end, rest)) => Ok((
            Decl::FunctionBody(at, generics, signature, body, end),
            rest,
        )),
        Err(stop) => Err(stop),
    }
}

/// Reads the class and the type of an instance, and its methods.
fn instance_parts(
    alloc: Global,
    tokens: &[Token],
) -> Result<(InstanceHead, Vec<Method<Parsed>>, &[Token]), Stop>
    ensures { Gives (λ x. (
      (
        (views.placed ⟦<Parsed as Phase>⟧ x.0.class, views.written x.0.of),
        map (views.method_body ⟦<Parsed as Phase>⟧) x.1.items,
      ),
      x.2.now,
    )) result
        (steps.pair (instance_head_at usual)
        (steps.behind_tokens (what.Word word.KwIs ∷ [])
        (steps.closed (what.Word word.KwEnd ∷ what.Sign sign.Semicolon ∷ [])
        (steps.repeated (steps.is_front (what.Word word.KwMethod)) (method_at usual)))) tokens.now) }
{
    let (head, rest) = instance_head(alloc, tokens)?;
    match inner_entries::<MethodEntry>(alloc, rest) {
        Ok((methods, rest)) => Ok((head, methods, rest)),
        Err(stop) => Err(stop),
    }
}

/// Reads an instance of a body behind its type parameters.
fn instance_body(
    alloc: Global,
    at: Pos,
    generics: Vec<Generic<Parsed>>,
    tokens: &[Token],
) -> Result<(Decl<Parsed>, &[Token]), Stop>
    ensures { Gives (λ x. (views.declaration ⟦<Parsed as Phase>⟧ x.0, x.1.now)) result
        (steps.shaped (generalized_of at)
        (λ ts. steps.joined_at (generalized_in usual file_part.Body (Some (what.Word word.KwInstance)))
        (map (views.constrained ⟦<Parsed as Phase>⟧) generics.items, ts)) tokens.now) }
{
    match instance_parts(alloc, tokens) {
        Ok((head, methods, rest)) => Ok((
            Decl::InstanceBody(at, generics, head.class, head.of, methods),
            rest,
        )),
        Err(stop) => Err(stop),
    }
}

/// Reads a function or an instance behind its type parameters.
#[tactic(auto, unfolding(crate::specs::DeclarationReading::generalized_at, crate::specs::DeclarationReading::instance_head_at))]
fn generalized(
    alloc: Global,
    part: Part,
    at: Pos,
    generics: Vec<Generic<Parsed>>,
    tokens: &[Token],
) -> Result<(Decl<Parsed>, &[Token]), Stop>
    ensures { Gives (λ x. (views.declaration ⟦<Parsed as Phase>⟧ x.0, x.1.now)) result
        (steps.shaped (generalized_of at)
        (λ ts. steps.joined_at (generalized_at usual part)
        (map (views.constrained ⟦<Parsed as Phase>⟧) generics.items, ts)) tokens.now) }
{
    let [first, ..] = tokens else {
        return Err(stop_before(tokens));
    };
    match part {
        Part::Interface => match &first.what {
            What::Word(Keyword::KwFunction) => function(alloc, at, generics, tokens),
            _ => instance(alloc, at, generics, tokens),
        },
        Part::Body => match &first.what {
            What::Word(Keyword::KwFunction) => function_body(alloc, at, generics, tokens),
            _ => instance_body(alloc, at, generics, tokens),
        },
    }
}

/// Reads a function or an instance, with its type parameters before it.
///
/// # Errors
///
/// `Fault::Syntax` where a token is missing, and `Fault::Passed` where a limit is passed.
#[tactic(auto, unfolding(crate::specs::DeclarationReading::general_at))]
pub fn general(
    alloc: Global,
    part: Part,
    tokens: &[Token],
) -> Result<(Decl<Parsed>, &[Token]), Stop>
    ensures { Gives (λ x. (views.declaration ⟦<Parsed as Phase>⟧ x.0, x.1.now)) result
        (general_at usual part tokens.now) }
{
    let at = place(tokens);
    let (generics, rest) = generics(alloc, tokens)?;
    generalized(alloc, part, at, generics, rest)
}
