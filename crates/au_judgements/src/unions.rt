//! The cases that a `case` tells apart: those of a union, and those of one behind a reference.

ghost use Rattle.std.specs.Prelude.{◌≡◌, IfOk, Vec, map};
ghost use Rattle.std.specs.Option.{option_map};
ghost use Rattle.au_typing.specs.Parts as parts;
ghost use Rattle.au_judgements.specs.Said.{cases_said};
ghost use Rattle.au_noting.specs.Scopes.{scope_said};
ghost use Rattle.au_sights.specs.Sights.{case_said, typed_said};
ghost use Rattle.au_types.specs.Views.{meaning};

use crate::borrowing::refers;
use au_base::Memory;
use au_noting::Scope;
use au_sights::surroundings::cases;
use au_sights::{Case, Typed};
use au_syntax::Access;
use au_types::{Region, Ty, copy_region, copy_type};
use std::alloc::Global;

/// A field that is reached through a reference: a reference of the same access into the same region.
fn field_behind(
    alloc: Global,
    access: Access,
    region: &Region,
    field: &Typed,
) -> Result<Typed, Memory>
    ensures { IfOk result (λ made. typed_said made
        ≡ parts.field_behind access region.now (typed_said field.now)) }
{
    let to = copy_type(alloc, &field.of)?;
    let region = copy_region(alloc, region)?;
    let of = refers(alloc, access, to, region)?;
    let name = field.name.copy(alloc)?;
    Ok(Typed { name, of })
}

/// Fields that are reached through a reference.
fn fields_behind(
    alloc: Global,
    access: Access,
    region: &Region,
    fields: &Vec<Typed>,
) -> Result<Vec<Typed>, Memory>
    ensures { IfOk result (λ made. map typed_said made.items
        ≡ map (parts.field_behind access region.now) (map typed_said fields.now.items)) }
{
    let mut made = Vec::new(alloc);
    for one in fields {
        let field = field_behind(alloc, access, region, one)?;
        made.push(field)?;
    }
    Ok(made)
}

/// A case that is reached through a reference.
fn case_behind(alloc: Global, access: Access, region: &Region, one: &Case) -> Result<Case, Memory>
    ensures { IfOk result (λ made. case_said made
        ≡ parts.case_behind access region.now (case_said one.now)) }
{
    let fields = fields_behind(alloc, access, region, &one.fields)?;
    let target = one.target.copy(alloc)?;
    Ok(Case { target, fields })
}

/// Cases that are reached through a reference.
fn all_behind(
    alloc: Global,
    access: Access,
    region: &Region,
    all: &Vec<Case>,
) -> Result<Vec<Case>, Memory>
    ensures { IfOk result (λ made. cases_said made.items
        ≡ map (parts.case_behind access region.now) (cases_said all.now.items)) }
{
    let mut made = Vec::new(alloc);
    for one in all {
        let case = case_behind(alloc, access, region, one)?;
        made.push(case)?;
    }
    Ok(made)
}

/// The cases of the union that a reference refers to, if it is one that is known there, reached through it.
fn cases_behind(
    alloc: Global,
    scope: &Scope,
    access: Access,
    to: &Ty,
    region: &Region,
) -> Result<Option<Vec<Case>>, Memory>
    ensures { IfOk result (λ found. option_map (λ (all : Vec Case Global). cases_said all.items) found
        ≡ parts.cases_behind (scope_said scope.now) access (meaning to.now) region.now) }
{
    match cases(alloc, &scope.outside, to)? {
        Some(all) => Ok(Some(all_behind(alloc, access, region, &all)?)),
        None => Ok(None),
    }
}

/// The cases that a `case` over a type tells apart, each with the fields that its arm binds: those of a union
/// that is known there, and those of such a union behind a reference, reached through it.
///
/// # Errors
///
/// Only for want of memory.
#[tactic(auto, using(au_types::proofs::TypeLemmas::type_steps))]
pub fn cases_told(alloc: Global, scope: &Scope, of: &Ty) -> Result<Option<Vec<Case>>, Memory>
    ensures { IfOk result (λ found. option_map (λ (all : Vec Case Global). cases_said all.items) found
        ≡ parts.cases_told (scope_said scope.now) (meaning of.now)) }
{
    match of {
        Ty::Unit => cases(alloc, &scope.outside, of),
        Ty::Bool => cases(alloc, &scope.outside, of),
        Ty::Int(_) => cases(alloc, &scope.outside, of),
        Ty::Text => cases(alloc, &scope.outside, of),
        Ty::Param(_) => cases(alloc, &scope.outside, of),
        Ty::Named { .. } => cases(alloc, &scope.outside, of),
        Ty::Read { to, region } => cases_behind(alloc, scope, Access::Read, to, region),
        Ty::Write { to, region } => cases_behind(alloc, scope, Access::Write, to, region),
    }
}
