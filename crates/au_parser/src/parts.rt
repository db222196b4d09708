//! Universes, type parameters, and the heads of types, functions and instances.

ghost use Rattle.std.specs.Prelude.{◌∷◌, [], List, ℕ, map};
ghost use Rattle.au_base.specs.declared.tokens.Keyword.TheVariants as word;
ghost use Rattle.au_base.specs.declared.tokens.Sign.TheVariants as sign;
ghost use Rattle.au_base.specs.declared.tokens.What.TheVariants as what;
ghost use Rattle.au_read_expressions.specs.TypeReading.{type_at};
ghost use Rattle.au_read_expressions.specs.Reading as steps;
ghost use Rattle.au_read_expressions.specs.Reading.{Gives};
ghost use Rattle.au_read_expressions.specs.Bounds.{usual};
ghost use Rattle.au_parser.specs.DeclarationReading as reading;
ghost use Rattle.au_parser.specs.DeclarationReading.{universe_at, in_universe_at, parameters_at};
ghost use Rattle.au_parser.specs.DeclarationReading.{constrained_at, generics_at, type_head_at};
ghost use Rattle.au_parser.specs.DeclarationReading.{labelled_at, header_at, instance_head_at};
ghost use Rattle.au_syntax.specs.Modules.{InUniverse, Constrained};
ghost use Rattle.au_syntax.specs.Types.{Labelled};
ghost use Rattle.au_syntax.specs.Views as views;

use au_base::{Keyword, Sign, Token, What};
use au_read_expressions::{
    Entry, Expected, NamePart, Part, Stop, bracketed, expect, is_sign, is_word, listed, name,
    repeated, stop_before, written_type,
};
use au_syntax::{
    Field, Generic, Ident, Parsed, Phase, Signature, TypeParameter, TypeText, Universe,
};
use std::alloc::Global;

/// Reads a universe.
///
/// # Errors
///
/// `Fault::Syntax` where none stands.
pub fn universe(tokens: &[Token]) -> Result<(Universe, &[Token]), Stop>
    ensures { Gives (λ x. (x.0, x.1.now)) result (universe_at tokens.now) }
{
    match tokens {
        [] => Err(stop_before(tokens)),
        [first, rest @ ..] => match &first.what {
            What::Word(Keyword::KwFree) => Ok((Universe::Free, rest)),
            What::Word(Keyword::KwLinear) => Ok((Universe::Linear, rest)),
            What::Word(Keyword::KwAnyUniverse) => Ok((Universe::AnyType, rest)),
            What::Word(Keyword::KwRegion) => Ok((Universe::Region, rest)),
            _ => Err(stop_before(tokens)),
        },
    }
}

/// Reads `:` and a universe.
fn universe_behind(tokens: &[Token]) -> Result<(Universe, &[Token]), Stop>
    ensures { Gives (λ x. (x.0, x.1.now)) result
        (steps.behind_tokens (what.Sign sign.Colon ∷ []) universe_at tokens.now) }
{
    let rest = expect(&[Expected::Sign(Sign::Colon)], tokens)?;
    universe(rest)
}

/// Reads a type parameter and its universe.
///
/// # Errors
///
/// `Fault::Syntax` where one of its tokens is missing.
pub fn type_parameter(
    alloc: Global,
    tokens: &[Token],
) -> Result<(TypeParameter<Parsed>, &[Token]), Stop>
    ensures { Gives (λ x. (views.in_universe ⟦<Parsed as Phase>⟧ x.0, x.1.now)) result
        (in_universe_at tokens.now) }
{
    let (name, rest) = name(alloc, tokens)?;
    match universe_behind(rest) {
        Ok((universe, rest)) => Ok((TypeParameter { name, universe }, rest)),
        Err(stop) => Err(stop),
    }
}

/// A type parameter in a list.
pub struct TypeParameterPart;

impl Part for TypeParameterPart {
    type Item = TypeParameter<Parsed>;

    ghost Seen = { InUniverse (List ℕ) };

    ghost see = { views.in_universe ⟦<Parsed as Phase>⟧ };

    ghost read_at = { in_universe_at };

    fn read(alloc: Global, tokens: &[Token]) -> Result<(TypeParameter<Parsed>, &[Token]), Stop> {
        type_parameter(alloc, tokens)
    }
}

/// A type parameter with its constraints, in a list.
pub struct GenericPart;

impl Part for GenericPart {
    type Item = Generic<Parsed>;

    ghost Seen = { Constrained (List ℕ) };

    ghost see = { views.constrained ⟦<Parsed as Phase>⟧ };

    ghost read_at = { constrained_at };

    fn read(alloc: Global, tokens: &[Token]) -> Result<(Generic<Parsed>, &[Token]), Stop> {
        let (parameter, rest) = type_parameter(alloc, tokens)?;
        match bracketed::<NamePart>(alloc, Sign::LeftParenthesis, Sign::RightParenthesis, rest) {
            Ok((classes, rest)) => Ok((Generic { parameter, classes }, rest)),
            Err(stop) => Err(stop),
        }
    }
}

/// Reads `generic` with its type parameters, or nothing.
///
/// # Errors
///
/// `Fault::Syntax` where one of its tokens is missing.
pub fn generics(alloc: Global, tokens: &[Token]) -> Result<(Vec<Generic<Parsed>>, &[Token]), Stop>
    ensures { Gives (λ x. (map (views.constrained ⟦<Parsed as Phase>⟧) x.0.items, x.1.now)) result
        (generics_at tokens.now) }
{
    if !is_word(Keyword::KwGeneric, tokens) {
        return Ok((Vec::new(alloc), tokens));
    }
    let opening = [
        Expected::Word(Keyword::KwGeneric),
        Expected::Sign(Sign::LeftBracket),
    ];
    let rest = expect(&opening, tokens)?;
    let (generics, rest) = listed::<GenericPart>(alloc, rest)?;
    match expect(&[Expected::Sign(Sign::RightBracket)], rest) {
        Ok(rest) => Ok((generics, rest)),
        Err(stop) => Err(stop),
    }
}

/// The head of a type's declaration.
#[derive(Drop)]
pub struct TypeHead {
    /// The type's name.
    pub name: Ident<Parsed>,
    /// Its parameters.
    pub parameters: Vec<TypeParameter<Parsed>>,
    /// Its universe.
    pub universe: Universe,
}

/// Reads the type parameters and the universe of a type's declaration.
fn parameters_and_universe(
    alloc: Global,
    tokens: &[Token],
) -> Result<(Vec<TypeParameter<Parsed>>, Universe, &[Token]), Stop>
    ensures { Gives (λ x. ((map (views.in_universe ⟦<Parsed as Phase>⟧) x.0.items, x.1), x.2.now)) result
        (steps.pair parameters_at (steps.behind_tokens (what.Sign sign.Colon ∷ []) universe_at) tokens.now) }
{
    let (parameters, rest) = bracketed::<TypeParameterPart>(
        alloc,
        Sign::LeftBracket,
        Sign::RightBracket,
        tokens,
    )?;
    match universe_behind(rest) {
        Ok((universe, rest)) => Ok((parameters, universe, rest)),
        Err(stop) => Err(stop),
    }
}

/// Reads the name, the type parameters and the universe of a type's declaration.
///
/// # Errors
///
/// `Fault::Syntax` where one of its tokens is missing.
pub fn type_head(alloc: Global, tokens: &[Token]) -> Result<(TypeHead, &[Token]), Stop>
    ensures { Gives (λ x. (
      (
        views.placed ⟦<Parsed as Phase>⟧ x.0.name,
        (map (views.in_universe ⟦<Parsed as Phase>⟧) x.0.parameters.items, x.0.universe),
      ),
      x.1.now,
    )) result
        (type_head_at tokens.now) }
{
    let (name, rest) = name(alloc, tokens)?;
    match parameters_and_universe(alloc, rest) {
        Ok((parameters, universe, rest)) => Ok((
            TypeHead {
                name,
                parameters,
                universe,
            },
            rest,
        )),
        Err(stop) => Err(stop),
    }
}

/// Reads `:` and a type.
fn type_behind(alloc: Global, tokens: &[Token]) -> Result<(TypeText, &[Token]), Stop>
    ensures { Gives (λ x. (views.written x.0, x.1.now)) result
        (steps.behind_tokens (what.Sign sign.Colon ∷ []) (type_at usual) tokens.now) }
{
    let rest = expect(&[Expected::Sign(Sign::Colon)], tokens)?;
    written_type(alloc, rest)
}

/// Reads a name with its type.
///
/// # Errors
///
/// `Fault::Syntax` where a token is missing, and `Fault::Passed` where the type passes a limit.
pub fn labelled(alloc: Global, tokens: &[Token]) -> Result<(Field<Parsed>, &[Token]), Stop>
    ensures { Gives (λ x. (views.labelled ⟦<Parsed as Phase>⟧ x.0, x.1.now)) result
        (labelled_at usual tokens.now) }
{
    let (name, rest) = name(alloc, tokens)?;
    match type_behind(alloc, rest) {
        Ok((of, rest)) => Ok((Field { name, of }, rest)),
        Err(stop) => Err(stop),
    }
}

/// A parameter of a function.
pub struct LabelledPart;

impl Part for LabelledPart {
    type Item = Field<Parsed>;

    ghost Seen = { Labelled (List ℕ) };

    ghost see = { views.labelled ⟦<Parsed as Phase>⟧ };

    ghost read_at = { labelled_at usual };

    fn read(alloc: Global, tokens: &[Token]) -> Result<(Field<Parsed>, &[Token]), Stop> {
        labelled(alloc, tokens)
    }
}

/// Reads the parameters of a function, or none before its parenthesis.
fn parameters(alloc: Global, tokens: &[Token]) -> Result<(Vec<Field<Parsed>>, &[Token]), Stop>
    ensures { Gives (λ x. (map (views.labelled ⟦<Parsed as Phase>⟧) x.0.items, x.1.now)) result
        (reading.maybe_listed (what.Sign sign.RightParenthesis) (labelled_at usual) tokens.now) }
{
    if is_sign(Sign::RightParenthesis, tokens) {
        return Ok((Vec::new(alloc), tokens));
    }
    listed::<LabelledPart>(alloc, tokens)
}

/// Reads `)`, `:` and a function's result.
fn function_result(alloc: Global, tokens: &[Token]) -> Result<(TypeText, &[Token]), Stop>
    ensures { Gives (λ x. (views.written x.0, x.1.now)) result
        (steps.behind_tokens (what.Sign sign.RightParenthesis ∷ what.Sign sign.Colon ∷ []) (type_at usual)
        tokens.now) }
{
    let closing = [
        Expected::Sign(Sign::RightParenthesis),
        Expected::Sign(Sign::Colon),
    ];
    let rest = expect(&closing, tokens)?;
    written_type(alloc, rest)
}

/// Reads the parameters of a function in their parentheses, and its result.
fn parameters_and_result(
    alloc: Global,
    tokens: &[Token],
) -> Result<(Vec<Field<Parsed>>, TypeText, &[Token]), Stop>
    ensures { Gives (λ x. ((map (views.labelled ⟦<Parsed as Phase>⟧) x.0.items, views.written x.1), x.2.now))
        result
        (steps.behind_tokens (what.Sign sign.LeftParenthesis ∷ [])
        (steps.pair (reading.maybe_listed (what.Sign sign.RightParenthesis) (labelled_at usual))
        (steps.behind_tokens (what.Sign sign.RightParenthesis ∷ what.Sign sign.Colon ∷ []) (type_at usual)))
        tokens.now) }
{
    let rest = expect(&[Expected::Sign(Sign::LeftParenthesis)], tokens)?;
    let (parameters, rest) = parameters(alloc, rest)?;
    match function_result(alloc, rest) {
        Ok((result, rest)) => Ok((parameters, result, rest)),
        Err(stop) => Err(stop),
    }
}

/// Reads a function's name, parameters and result.
///
/// # Errors
///
/// `Fault::Syntax` where a token is missing, and `Fault::Passed` where a type passes a limit.
#[tactic(auto, unfolding(crate::specs::DeclarationReading::header_at))]
pub fn signature(alloc: Global, tokens: &[Token]) -> Result<(Signature<Parsed>, &[Token]), Stop>
    ensures { Gives (λ x. (views.header ⟦<Parsed as Phase>⟧ x.0, x.1.now)) result
        (header_at usual tokens.now) }
{
    let (name, rest) = name(alloc, tokens)?;
    match parameters_and_result(alloc, rest) {
        Ok((parameters, result, rest)) => Ok((
            Signature {
                name,
                parameters,
                result,
            },
            rest,
        )),
        Err(stop) => Err(stop),
    }
}

/// The class and the type of an instance.
#[derive(Drop)]
pub struct InstanceHead {
    /// The class.
    pub class: Ident<Parsed>,
    /// The type.
    pub of: TypeText,
}

/// Reads a type in parentheses.
fn parenthesized_type(alloc: Global, tokens: &[Token]) -> Result<(TypeText, &[Token]), Stop>
    ensures { Gives (λ x. (views.written x.0, x.1.now)) result
        (steps.behind_tokens (what.Sign sign.LeftParenthesis ∷ [])
        (steps.closed (what.Sign sign.RightParenthesis ∷ []) (type_at usual)) tokens.now) }
{
    let rest = expect(&[Expected::Sign(Sign::LeftParenthesis)], tokens)?;
    let (of, rest) = written_type(alloc, rest)?;
    match expect(&[Expected::Sign(Sign::RightParenthesis)], rest) {
        Ok(rest) => Ok((of, rest)),
        Err(stop) => Err(stop),
    }
}

/// Reads the class and the type of an instance.
///
/// # Errors
///
/// `Fault::Syntax` where a token is missing, and `Fault::Passed` where the type passes a limit.
#[tactic(auto, unfolding(crate::specs::DeclarationReading::instance_head_at))]
pub fn instance_head(alloc: Global, tokens: &[Token]) -> Result<(InstanceHead, &[Token]), Stop>
    ensures { Gives (λ x. ((views.placed ⟦<Parsed as Phase>⟧ x.0.class, views.written x.0.of), x.1.now))
        result (instance_head_at usual tokens.now) }
{
    let rest = expect(&[Expected::Word(Keyword::KwInstance)], tokens)?;
    let (class, rest) = name(alloc, rest)?;
    match parenthesized_type(alloc, rest) {
        Ok((of, rest)) => Ok((InstanceHead { class, of }, rest)),
        Err(stop) => Err(stop),
    }
}

/// Reads entries up to `end;`.
///
/// # Errors
///
/// The fault of the first entry that isn't read, or `Fault::Syntax` where a token is missing.
pub fn entries<E: Entry>(alloc: Global, tokens: &[Token]) -> Result<(Vec<E::Item>, &[Token]), Stop>
    ensures { Gives (λ x. (map E.see x.0.items, x.1.now)) result
        (steps.closed (what.Word word.KwEnd ∷ what.Sign sign.Semicolon ∷ [])
        (steps.repeated E.begins_by E.read_at) tokens.now) }
{
    let (entries, rest) = repeated::<E>(alloc, tokens)?;
    let closing = [
        Expected::Word(Keyword::KwEnd),
        Expected::Sign(Sign::Semicolon),
    ];
    match expect(&closing, rest) {
        Ok(rest) => Ok((entries, rest)),
        Err(stop) => Err(stop),
    }
}

/// Reads entries behind `is`, up to `end;`.
///
/// # Errors
///
/// As those of `entries`.
pub fn inner_entries<E: Entry>(
    alloc: Global,
    tokens: &[Token],
) -> Result<(Vec<E::Item>, &[Token]), Stop>
    ensures { Gives (λ x. (map E.see x.0.items, x.1.now)) result
        (steps.behind_tokens (what.Word word.KwIs ∷ [])
        (steps.closed (what.Word word.KwEnd ∷ what.Sign sign.Semicolon ∷ [])
        (steps.repeated E.begins_by E.read_at)) tokens.now) }
{
    let rest = expect(&[Expected::Word(Keyword::KwIs)], tokens)?;
    entries::<E>(alloc, rest)
}
