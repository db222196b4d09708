//! What written types mean.

ghost use Rattle.std.specs.Prelude.{◌≡◌, IfOk, Some, map};
ghost use Rattle.std.specs.Option.{option_map};
ghost use Rattle.au_syntax.specs.Views.{written};
ghost use Rattle.au_types.specs.Types as types;
ghost use Rattle.au_types.specs.Views.{argument, argument_all, meaning};
ghost use Rattle.au_types.specs.Meant.{applied, argument_meant, arguments_meant, region_of};
ghost use Rattle.au_types.specs.Meant.{span_with};
ghost use Rattle.au_types.specs.WrittenViews.{given_in, meant_in, region_in, said, sense_in};

use crate::parts::{alone, refers, span_of};
use crate::scopes::Scope;
use crate::senses::{Sense, sense_of};
use crate::{Arg, DeclAt, Params, Region, Ty};
use au_base::{Memory, Name};
use au_syntax::{Access, TypeText, Universe};
use std::alloc::Global;

/// The region that a name with this sense means, if it means one.
fn region_of(alloc: Global, name: &Name, sense: &Sense) -> Result<Option<Region>, Memory>
    ensures { IfOk result (λ found. found ≡ region_of (Some (said name.now sense.now))) }
{
    match sense {
        Sense::Unit => Ok(None),
        Sense::Bool => Ok(None),
        Sense::Int(_) => Ok(None),
        Sense::Param => Ok(None),
        Sense::Span => Ok(None),
        Sense::Static => Ok(Some(Region::Static)),
        Sense::Region => Ok(Some(Region::Named(name.copy(alloc)?))),
        Sense::Declared(_, _) => Ok(None),
        Sense::Class(_) => Ok(None),
    }
}

/// The region that a name means, if it means one.
fn region_named(alloc: Global, scope: &Scope, name: &Name) -> Result<Option<Region>, Memory>
    ensures { IfOk result (λ found. found ≡ region_of (sense_in scope.now name.now)) }
{
    match sense_of(scope, name) {
        Some(sense) => region_of(alloc, name, &sense),
        None => Ok(None),
    }
}

/// The region that a written type means, if it means one: it's a name alone.
///
/// # Errors
///
/// Only for want of memory.
#[tactic(auto, using(au_syntax::proofs::TypeLemmas::type_steps, crate::proofs::MeantLemmas::meant_steps))]
pub fn region_meant(alloc: Global, scope: &Scope, node: &TypeText) -> Result<Option<Region>, Memory>
    ensures { IfOk result (λ found. found ≡ region_in scope.now (written node.now)) }
{
    match node {
        TypeText::Named(name, args) => {
            if args.is_empty() {
                region_named(alloc, scope, &name.name)
            } else {
                Ok(None)
            }
        }
        TypeText::Reference(_, _, _, _) => Ok(None),
    }
}

/// The type that a written type means, if it means one: each name means something in the scope, types and
/// regions stand where they are wanted, and arguments fit in number.
///
/// # Errors
///
/// Only for want of memory.
#[tactic(auto, using(au_syntax::proofs::TypeLemmas::type_steps, crate::proofs::MeantLemmas::meant_steps))]
#[cycle(type_meant)]
pub fn type_meant(alloc: Global, scope: &Scope, node: &TypeText) -> Result<Option<Ty>, Memory>
    ensures { IfOk result (λ found. option_map meaning found ≡ meant_in scope.now (written node.now)) }
{
    match node {
        TypeText::Named(name, args) => named_meant(alloc, scope, &name.name, args),
        TypeText::Reference(_, access, target, region) => {
            let to = boxed_meant(alloc, scope, target)?;
            let region = region_named(alloc, scope, &region.name)?;
            Ok(refers(*access, to, region))
        }
    }
}

/// What a type in a box means.
#[cycle(type_meant)]
fn boxed_meant(alloc: Global, scope: &Scope, node: &TypeText) -> Result<Option<Box<Ty>>, Memory>
    ensures { IfOk result (λ found. option_map (λ t. meaning t.value) found
        ≡ meant_in scope.now (written node.now)) }
{
    match type_meant(alloc, scope, node)? {
        Some(of) => Ok(Some(Box::new(alloc, of)?)),
        None => Ok(None),
    }
}

/// What a name with arguments means.
#[tactic(auto, using(crate::proofs::MeantLemmas::meant_steps))]
#[cycle(type_meant)]
fn named_meant(
    alloc: Global,
    scope: &Scope,
    name: &Name,
    args: &Vec<TypeText>,
) -> Result<Option<Ty>, Memory>
    ensures { IfOk result (λ found. option_map meaning found
        ≡ applied (sense_in scope.now name.now) (map (given_in scope.now) args.now.items)) }
{
    match sense_of(scope, name) {
        Some(sense) => applied(alloc, scope, name, &sense, args),
        None => Ok(None),
    }
}

/// What a name with this sense and with arguments means.
#[tactic(auto, using(crate::proofs::TypeLemmas::type_steps, crate::proofs::MeantLemmas::meant_steps))]
#[cycle(type_meant)]
fn applied(
    alloc: Global,
    scope: &Scope,
    name: &Name,
    sense: &Sense,
    args: &Vec<TypeText>,
) -> Result<Option<Ty>, Memory>
    ensures { IfOk result (λ found. option_map meaning found
        ≡ applied (Some (said name.now sense.now)) (map (given_in scope.now) args.now.items)) }
{
    match sense {
        Sense::Unit => Ok(alone(Ty::Unit, args)),
        Sense::Bool => Ok(alone(Ty::Bool, args)),
        Sense::Int(kind) => Ok(alone(Ty::Int(*kind), args)),
        Sense::Param => {
            let name = name.copy(alloc)?;
            Ok(alone(Ty::Param(name), args))
        }
        Sense::Span => span_meant(alloc, scope, args),
        Sense::Static => Ok(None),
        Sense::Region => Ok(None),
        Sense::Declared(at, expected) => declared_meant(alloc, scope, *at, expected, args),
        Sense::Class(_) => Ok(None),
    }
}

/// What `Span` with arguments means.
#[tactic(auto, using(crate::proofs::MeantLemmas::meant_steps))]
#[cycle(type_meant)]
fn span_meant(alloc: Global, scope: &Scope, args: &Vec<TypeText>) -> Result<Option<Ty>, Memory>
    ensures { IfOk result (λ found. option_map meaning found
        ≡ span_with (map (given_in scope.now) args.now.items)) }
{
    if args.len() != 2 {
        return Ok(None);
    }
    let of = type_meant(alloc, scope, &args[0])?;
    let region = region_meant(alloc, scope, &args[1])?;
    Ok(span_of(of, region))
}

/// What a declared type with arguments means.
#[tactic(auto, using(crate::proofs::TypeLemmas::type_steps))]
#[cycle(type_meant)]
fn declared_meant(
    alloc: Global,
    scope: &Scope,
    at: DeclAt,
    expected: &Params,
    args: &Vec<TypeText>,
) -> Result<Option<Ty>, Memory>
    ensures { IfOk result (λ found. option_map meaning found
        ≡ option_map (types.named at)
        (arguments_meant expected.now (map (given_in scope.now) args.now.items))) }
{
    match arguments_meant(alloc, scope, expected, args)? {
        Some(args) => Ok(Some(Ty::Named { of: at, args })),
        None => Ok(None),
    }
}

/// What arguments for type parameters mean, each in its place.
#[cycle(type_meant)]
fn arguments_meant(
    alloc: Global,
    scope: &Scope,
    expected: &Params,
    args: &Vec<TypeText>,
) -> Result<Option<Vec<Arg>>, Memory>
    ensures { IfOk result (λ found. option_map (λ all. argument_all all.items) found
        ≡ arguments_meant expected.now (map (given_in scope.now) args.now.items)) }
{
    if args.len() != expected.len() {
        return Ok(None);
    }
    let mut found = Vec::new(alloc);
    for (index, one) in args.iter().enumerate() {
        let universe = expected.at(index).universe;
        match argument_meant(alloc, scope, universe, one)? {
            Some(arg) => found.push(arg)?,
            None => return Ok(None),
        }
    }
    Ok(Some(found))
}

/// What an argument for a type parameter of a universe means.
#[tactic(auto, using(crate::proofs::MeantLemmas::meant_steps))]
#[cycle(type_meant)]
fn argument_meant(
    alloc: Global,
    scope: &Scope,
    universe: Universe,
    node: &TypeText,
) -> Result<Option<Arg>, Memory>
    ensures { IfOk result (λ found. option_map argument found
        ≡ argument_meant universe (given_in scope.now node.now)) }
{
    match universe {
        Universe::Free => type_argument(alloc, scope, node),
        Universe::Linear => type_argument(alloc, scope, node),
        Universe::AnyType => type_argument(alloc, scope, node),
        Universe::Region => region_argument(alloc, scope, node),
    }
}

/// What an argument means where a type is wanted.
#[tactic(auto, using(crate::proofs::TypeLemmas::type_steps))]
#[cycle(type_meant)]
fn type_argument(alloc: Global, scope: &Scope, node: &TypeText) -> Result<Option<Arg>, Memory>
    ensures { IfOk result (λ found. option_map argument found
        ≡ option_map types.of_type (meant_in scope.now (written node.now))) }
{
    match type_meant(alloc, scope, node)? {
        Some(of) => Ok(Some(Arg::Of(of))),
        None => Ok(None),
    }
}

/// What an argument means where a region is wanted.
#[tactic(auto, using(crate::proofs::TypeLemmas::type_steps))]
fn region_argument(alloc: Global, scope: &Scope, node: &TypeText) -> Result<Option<Arg>, Memory>
    ensures { IfOk result (λ found. option_map argument found
        ≡ option_map types.in_region (region_in scope.now (written node.now))) }
{
    match region_meant(alloc, scope, node)? {
        Some(region) => Ok(Some(Arg::In(region))),
        None => Ok(None),
    }
}
