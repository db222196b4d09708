//! Shipped interfaces, from the rows of their tables.

ghost use Rattle.std.specs.Prelude.{◌≡◌, IfOk, map};
ghost use Rattle.au_syntax.specs.Views as views;
ghost use Rattle.au_shipped.specs.Building as spec;
ghost use Rattle.au_shipped.specs.Rows as rows;

use crate::building::{name, shape_type};
use crate::parts::{generics, names, parameter, parameters, signature, signatures, union_cases};
use crate::rows::{Call, Case, Over, Row, Shape};
use au_base::{Memory, Pos};
use au_syntax::{Decl, Module, Parsed, Part, Phase, Universe};
use std::alloc::Global;

/// `type NAME[PARAMETER, ..]: UNIVERSE;`
#[tactic(auto, using(au_syntax::proofs::DeclarationLemmas::opaque_says))]
fn opaque(
    alloc: Global,
    at: Pos,
    bytes: &[u8],
    over: &[Over],
    universe: Universe,
) -> Result<Decl<Parsed>, Memory>
    ensures { IfOk result (λ d. views.declaration ⟦<Parsed as Phase>⟧ d
        ≡ spec.an_opaque at bytes.now (map (rows.ranged at) over.now) universe) }
{
    let name = name(alloc, at, bytes)?;
    let parameters = parameters(alloc, at, over)?;
    Ok(Decl::Opaque(at, name, parameters, universe))
}

/// `union NAME[PARAMETER, ..]: UNIVERSE is CASE .. end;`
#[tactic(auto, using(au_syntax::proofs::DeclarationLemmas::union_says))]
fn union_of(
    alloc: Global,
    at: Pos,
    bytes: &[u8],
    over: &[Over],
    universe: Universe,
    listed: &[Case],
) -> Result<Decl<Parsed>, Memory>
    ensures { IfOk result (λ d. views.declaration ⟦<Parsed as Phase>⟧ d
        ≡ spec.a_union at bytes.now (map (rows.ranged at) over.now) universe
        (map (rows.cased at) listed.now)) }
{
    let name = name(alloc, at, bytes)?;
    let parameters = parameters(alloc, at, over)?;
    let cases = union_cases(alloc, at, listed)?;
    Ok(Decl::Union(at, name, parameters, universe, cases))
}

/// `generic [PARAMETER, ..] function NAME(PARAMETER, ..): TYPE;`
#[tactic(auto, using(au_syntax::proofs::DeclarationLemmas::function_says))]
fn function(alloc: Global, at: Pos, over: &[Over], call: &Call) -> Result<Decl<Parsed>, Memory>
    ensures { IfOk result (λ d. views.declaration ⟦<Parsed as Phase>⟧ d
        ≡ spec.a_function at (map (rows.generic at) over.now) call.now.name.now
        (map (rows.taken at) call.now.parameters.now) (rows.form_type at call.now.gives)) }
{
    let generics = generics(alloc, at, over)?;
    let signature = signature(alloc, at, call)?;
    Ok(Decl::Function(at, generics, signature))
}

/// `typeclass NAME(PARAMETER) is method SIGNATURE; .. end;`
#[tactic(auto, using(au_syntax::proofs::DeclarationLemmas::class_says))]
fn class(
    alloc: Global,
    at: Pos,
    bytes: &[u8],
    over: &Over,
    calls: &[Call],
) -> Result<Decl<Parsed>, Memory>
    ensures { IfOk result (λ d. views.declaration ⟦<Parsed as Phase>⟧ d
        ≡ spec.a_class at bytes.now (rows.ranged at over.now) (map (rows.called at) calls.now)) }
{
    let name = name(alloc, at, bytes)?;
    let parameter = parameter(alloc, at, over)?;
    let methods = signatures(alloc, at, calls)?;
    Ok(Decl::Class(at, name, parameter, methods))
}

/// `instance NAME(TYPE);`
#[tactic(auto, using(au_syntax::proofs::DeclarationLemmas::instance_says))]
fn instance(alloc: Global, at: Pos, bytes: &[u8], of: &Shape) -> Result<Decl<Parsed>, Memory>
    ensures { IfOk result (λ d. views.declaration ⟦<Parsed as Phase>⟧ d
        ≡ spec.an_instance at bytes.now (rows.shape_type at of.now)) }
{
    let name = name(alloc, at, bytes)?;
    let of = shape_type(alloc, at, of)?;
    Ok(Decl::Instance(at, Vec::new(alloc), name, of))
}

/// A declaration.
fn declaration(alloc: Global, at: Pos, row: &Row) -> Result<Decl<Parsed>, Memory>
    ensures { IfOk result (λ d. views.declaration ⟦<Parsed as Phase>⟧ d ≡ rows.declared at row.now) }
{
    match row {
        Row::Opaque(name, over, universe) => opaque(alloc, at, name, over, *universe),
        Row::Union(name, over, universe, cases) => {
            union_of(alloc, at, name, over, *universe, cases)
        }
        Row::Function(over, call) => function(alloc, at, over, call),
        Row::Class(name, over, calls) => class(alloc, at, name, over, calls),
        Row::Instance(name, of) => instance(alloc, at, name, of),
    }
}

fn declarations(alloc: Global, at: Pos, listed: &[Row]) -> Result<Vec<Decl<Parsed>>, Memory>
    ensures { IfOk result (λ ds. map (views.declaration ⟦<Parsed as Phase>⟧) ds.items
        ≡ map (rows.declared at) listed.now) }
{
    let mut all = Vec::new(alloc);
    for one in listed {
        all.push(declaration(alloc, at, one)?)?;
    }
    Ok(all)
}

/// The interface of this name with the declarations of these rows, in order.
pub(crate) fn interface(
    alloc: Global,
    at: Pos,
    parts: &[&[u8]],
    listed: &[Row],
) -> Result<Module<Parsed>, Memory>
    ensures { IfOk result (λ m. views.module_tree ⟦<Parsed as Phase>⟧ m
        ≡ spec.interface at (map (λ part. spec.name at part.now) parts.now)
        (map (rows.declared at) listed.now)) }
{
    let name = names(alloc, at, parts)?;
    let declarations = declarations(alloc, at, listed)?;
    Ok(Module {
        imports: Vec::new(alloc),
        at,
        part: Part::Interface,
        name,
        pragma: None,
        declarations,
    })
}
