//! The parts of declarations of a shipped interface, from the rows of its table.

ghost use Rattle.std.specs.Prelude.{◌≡◌, IfOk, map};
ghost use Rattle.au_syntax.specs.Views as views;
ghost use Rattle.au_shipped.specs.Building as spec;
ghost use Rattle.au_shipped.specs.Rows as rows;

use crate::building::{form_type, name};
use crate::rows::{Call, Case, Over, Takes};
use au_base::{Memory, Pos};
use au_syntax::{Field, Generic, Ident, Parsed, Phase, Signature, TypeParameter, UnionCase};
use std::alloc::Global;

/// The parts of a module's name.
pub(crate) fn names(alloc: Global, at: Pos, parts: &[&[u8]]) -> Result<Vec<Ident<Parsed>>, Memory>
    ensures { IfOk result (λ ns. map (views.placed ⟦<Parsed as Phase>⟧) ns.items
        ≡ map (λ part. spec.name at part.now) parts.now) }
{
    let mut all = Vec::new(alloc);
    for one in parts {
        all.push(name(alloc, at, one)?)?;
    }
    Ok(all)
}

/// A parameter or a field.
fn field(alloc: Global, at: Pos, row: &Takes) -> Result<Field<Parsed>, Memory>
    ensures { IfOk result (λ f. views.labelled ⟦<Parsed as Phase>⟧ f ≡ rows.taken at row.now) }
{
    let name = name(alloc, at, row.name)?;
    let of = form_type(alloc, at, &row.of)?;
    Ok(Field { name, of })
}

/// Parameters or fields.
pub(crate) fn fields(alloc: Global, at: Pos, listed: &[Takes]) -> Result<Vec<Field<Parsed>>, Memory>
    ensures { IfOk result (λ fs. map (views.labelled ⟦<Parsed as Phase>⟧) fs.items
        ≡ map (rows.taken at) listed.now) }
{
    let mut all = Vec::new(alloc);
    for one in listed {
        all.push(field(alloc, at, one)?)?;
    }
    Ok(all)
}

/// A type parameter of a type or of a class.
pub(crate) fn parameter(alloc: Global, at: Pos, row: &Over) -> Result<TypeParameter<Parsed>, Memory>
    ensures { IfOk result (λ p. views.in_universe ⟦<Parsed as Phase>⟧ p ≡ rows.ranged at row.now) }
{
    let name = name(alloc, at, row.name)?;
    Ok(TypeParameter {
        name,
        universe: row.universe,
    })
}

/// The type parameters of a type.
pub(crate) fn parameters(
    alloc: Global,
    at: Pos,
    listed: &[Over],
) -> Result<Vec<TypeParameter<Parsed>>, Memory>
    ensures { IfOk result (λ ps. map (views.in_universe ⟦<Parsed as Phase>⟧) ps.items
        ≡ map (rows.ranged at) listed.now) }
{
    let mut all = Vec::new(alloc);
    for one in listed {
        all.push(parameter(alloc, at, one)?)?;
    }
    Ok(all)
}

/// A type parameter behind `generic`.
fn generic(alloc: Global, at: Pos, row: &Over) -> Result<Generic<Parsed>, Memory>
    ensures { IfOk result (λ p. views.constrained ⟦<Parsed as Phase>⟧ p ≡ rows.generic at row.now) }
{
    let parameter = parameter(alloc, at, row)?;
    Ok(Generic {
        parameter,
        classes: Vec::new(alloc),
    })
}

/// The type parameters behind `generic`.
pub(crate) fn generics(
    alloc: Global,
    at: Pos,
    listed: &[Over],
) -> Result<Vec<Generic<Parsed>>, Memory>
    ensures { IfOk result (λ ps. map (views.constrained ⟦<Parsed as Phase>⟧) ps.items
        ≡ map (rows.generic at) listed.now) }
{
    let mut all = Vec::new(alloc);
    for one in listed {
        all.push(generic(alloc, at, one)?)?;
    }
    Ok(all)
}

/// A case.
fn union_case(alloc: Global, at: Pos, row: &Case) -> Result<UnionCase<Parsed>, Memory>
    ensures { IfOk result (λ c. views.variant ⟦<Parsed as Phase>⟧ c ≡ rows.cased at row.now) }
{
    let name = name(alloc, at, row.name)?;
    let fields = fields(alloc, at, row.fields)?;
    Ok(UnionCase { name, fields })
}

/// The cases of a union.
pub(crate) fn union_cases(
    alloc: Global,
    at: Pos,
    listed: &[Case],
) -> Result<Vec<UnionCase<Parsed>>, Memory>
    ensures { IfOk result (λ cs. map (views.variant ⟦<Parsed as Phase>⟧) cs.items
        ≡ map (rows.cased at) listed.now) }
{
    let mut all = Vec::new(alloc);
    for one in listed {
        all.push(union_case(alloc, at, one)?)?;
    }
    Ok(all)
}

/// The head of a function or a method.
pub(crate) fn signature(alloc: Global, at: Pos, row: &Call) -> Result<Signature<Parsed>, Memory>
    ensures { IfOk result (λ s. views.header ⟦<Parsed as Phase>⟧ s ≡ rows.called at row.now) }
{
    let name = name(alloc, at, row.name)?;
    let parameters = fields(alloc, at, row.parameters)?;
    let gives = form_type(alloc, at, &row.gives)?;
    Ok(Signature {
        name,
        parameters,
        result: gives,
    })
}

/// The methods of a class.
pub(crate) fn signatures(
    alloc: Global,
    at: Pos,
    listed: &[Call],
) -> Result<Vec<Signature<Parsed>>, Memory>
    ensures { IfOk result (λ ss. map (views.header ⟦<Parsed as Phase>⟧) ss.items
        ≡ map (rows.called at) listed.now) }
{
    let mut all = Vec::new(alloc);
    for one in listed {
        all.push(signature(alloc, at, one)?)?;
    }
    Ok(all)
}
