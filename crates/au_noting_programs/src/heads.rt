//! Declarations without expressions, and the heads of the others, for a tree with notes.

ghost use Rattle.std.specs.Prelude.{◌≡◌, IfOk, Ok, map};
ghost use Rattle.au_judgements.specs.Refusing.{Judges};
ghost use Rattle.au_sights.specs.contracts.noted.NotedPhase.TheImpl.{ghosts as noted};
ghost use Rattle.au_syntax.specs.contracts.parsed.ParsedPhase.TheImpl.{ghosts as parsed};
ghost use Rattle.au_syntax.specs.Modules as tree;
ghost use Rattle.au_syntax.specs.Views as views;

use crate::copies::{Copied, copy_all};
use au_base::{Memory, Pos};
use au_judgements::Refused;
use au_sights::{Noted, copy_name, copy_text_of_type};
use au_syntax::{
    Decl, Field, Generic, Ident, Parsed, Signature, TypeParameter, TypeText, UnionCase, Universe,
};
use std::alloc::Global;

/// The name and the type of a constant.
pub(crate) fn copy_constant(
    alloc: Global,
    name: &Ident<Parsed>,
    of: &TypeText,
) -> Result<(Ident<Noted>, TypeText), Memory>
    ensures name { IfOk result (λ copy. views.placed noted copy.0 ≡ views.placed parsed name.now) }
    ensures of { IfOk result (λ copy. views.written copy.1 ≡ views.written of.now) }
{
    let name = copy_name(alloc, name)?;
    let of = copy_text_of_type(alloc, of)?;
    Ok((name, of))
}

/// The name and the type parameters of a type.
fn copy_type_head(
    alloc: Global,
    name: &Ident<Parsed>,
    parameters: &Vec<TypeParameter<Parsed>>,
) -> Result<(Ident<Noted>, Vec<TypeParameter<Noted>>), Memory>
    ensures name { IfOk result (λ copy. views.placed noted copy.0 ≡ views.placed parsed name.now) }
    ensures parameters { IfOk result (λ copy. map (views.in_universe noted) copy.1.items
        ≡ map (views.in_universe parsed) parameters.now.items) }
{
    let name = copy_name(alloc, name)?;
    let parameters = copy_all(alloc, parameters)?;
    Ok((name, parameters))
}

/// The type parameters and the signature of a function.
pub(crate) fn copy_function(
    alloc: Global,
    generics: &Vec<Generic<Parsed>>,
    signature: &Signature<Parsed>,
) -> Result<(Vec<Generic<Noted>>, Signature<Noted>), Memory>
    ensures generics { IfOk result (λ copy. map (views.constrained noted) copy.0.items
        ≡ map (views.constrained parsed) generics.now.items) }
    ensures signature { IfOk result (λ copy. views.header noted copy.1 ≡ views.header parsed signature.now) }
{
    let generics = copy_all(alloc, generics)?;
    let signature = signature.copy(alloc)?;
    Ok((generics, signature))
}

/// The type parameters, the class and the type of an instance.
pub(crate) fn copy_instance(
    alloc: Global,
    generics: &Vec<Generic<Parsed>>,
    name: &Ident<Parsed>,
    of: &TypeText,
) -> Result<(Vec<Generic<Noted>>, Ident<Noted>, TypeText), Memory>
    ensures generics { IfOk result (λ copy. map (views.constrained noted) copy.0.items
        ≡ map (views.constrained parsed) generics.now.items) }
    ensures name { IfOk result (λ copy. views.placed noted copy.1 ≡ views.placed parsed name.now) }
    ensures of { IfOk result (λ copy. views.written copy.2 ≡ views.written of.now) }
{
    let generics = copy_all(alloc, generics)?;
    let name = copy_name(alloc, name)?;
    let of = copy_text_of_type(alloc, of)?;
    Ok((generics, name, of))
}

/// A constant of an interface.
pub(crate) fn constant(
    alloc: Global,
    at: Pos,
    name: &Ident<Parsed>,
    of: &TypeText,
) -> Result<Decl<Noted>, Refused>
    ensures { Judges (views.declaration noted) result
        (Ok (tree.constant at (views.placed parsed name.now) (views.written of.now))) }
{
    let (name, of) = copy_constant(alloc, name, of)?;
    Ok(Decl::Constant(at, name, of))
}

/// An opaque type.
pub(crate) fn opaque(
    alloc: Global,
    at: Pos,
    name: &Ident<Parsed>,
    parameters: &Vec<TypeParameter<Parsed>>,
    universe: Universe,
) -> Result<Decl<Noted>, Refused>
    ensures { Judges (views.declaration noted) result (Ok (tree.opaque_type at (views.placed parsed name.now)
        (map (views.in_universe parsed) parameters.now.items) universe)) }
{
    let (name, parameters) = copy_type_head(alloc, name, parameters)?;
    Ok(Decl::Opaque(at, name, parameters, universe))
}

/// A record.
pub(crate) fn record_type(
    alloc: Global,
    at: Pos,
    name: &Ident<Parsed>,
    parameters: &Vec<TypeParameter<Parsed>>,
    universe: Universe,
    fields: &Vec<Field<Parsed>>,
) -> Result<Decl<Noted>, Refused>
    ensures { Judges (views.declaration noted) result (Ok (tree.record_type at (views.placed parsed name.now)
        (map (views.in_universe parsed) parameters.now.items) universe
        (map (views.labelled parsed) fields.now.items))) }
{
    let (name, parameters) = copy_type_head(alloc, name, parameters)?;
    let fields = copy_all(alloc, fields)?;
    Ok(Decl::Record(at, name, parameters, universe, fields))
}

/// A union.
pub(crate) fn union_type(
    alloc: Global,
    at: Pos,
    name: &Ident<Parsed>,
    parameters: &Vec<TypeParameter<Parsed>>,
    universe: Universe,
    cases: &Vec<UnionCase<Parsed>>,
) -> Result<Decl<Noted>, Refused>
    ensures { Judges (views.declaration noted) result (Ok (tree.union_type at (views.placed parsed name.now)
        (map (views.in_universe parsed) parameters.now.items) universe
        (map (views.variant parsed) cases.now.items))) }
{
    let (name, parameters) = copy_type_head(alloc, name, parameters)?;
    let cases = copy_all(alloc, cases)?;
    Ok(Decl::Union(at, name, parameters, universe, cases))
}

/// A function of an interface.
pub(crate) fn function(
    alloc: Global,
    at: Pos,
    generics: &Vec<Generic<Parsed>>,
    signature: &Signature<Parsed>,
) -> Result<Decl<Noted>, Refused>
    ensures { Judges (views.declaration noted) result (Ok (tree.function at
        (map (views.constrained parsed) generics.now.items) (views.header parsed signature.now))) }
{
    let (generics, signature) = copy_function(alloc, generics, signature)?;
    Ok(Decl::Function(at, generics, signature))
}

/// A class.
pub(crate) fn class(
    alloc: Global,
    at: Pos,
    name: &Ident<Parsed>,
    parameter: &TypeParameter<Parsed>,
    methods: &Vec<Signature<Parsed>>,
) -> Result<Decl<Noted>, Refused>
    ensures { Judges (views.declaration noted) result (Ok (tree.class at (views.placed parsed name.now)
        (views.in_universe parsed parameter.now) (map (views.header parsed) methods.now.items))) }
{
    let name = copy_name(alloc, name)?;
    let parameter = parameter.copy(alloc)?;
    let methods = copy_all(alloc, methods)?;
    Ok(Decl::Class(at, name, parameter, methods))
}

/// An instance of an interface.
pub(crate) fn instance(
    alloc: Global,
    at: Pos,
    generics: &Vec<Generic<Parsed>>,
    name: &Ident<Parsed>,
    of: &TypeText,
) -> Result<Decl<Noted>, Refused>
    ensures { Judges (views.declaration noted) result (Ok (tree.instance at
        (map (views.constrained parsed) generics.now.items) (views.placed parsed name.now)
        (views.written of.now))) }
{
    let (generics, name, of) = copy_instance(alloc, generics, name, of)?;
    Ok(Decl::Instance(at, generics, name, of))
}
