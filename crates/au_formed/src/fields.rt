//! Whether the fields of records and unions fit the universes that these are declared in.

ghost use Rattle.std.specs.Prelude.{◌≡◌, IfOk, not};
ghost use Rattle.au_formed.specs.Fields as spec;
ghost use Rattle.au_names.specs.Walks as walks;
ghost use Rattle.au_judged_types.specs.Views.{judged_in};
ghost use Rattle.au_promises.specs.Said.{cases_said, fields_said};
ghost use Rattle.au_syntax.specs.Views.{written};
ghost use Rattle.au_matching.specs.Universes as universes;

use au_base::{Memory, Pos};
use au_judged_types::{Judged, judge_type};
use au_matching::{TypeUniverse, universe_of};
use au_syntax::{Decl, Field, Parsed, TypeText, UnionCase, Universe};
use au_types::Scope;
use std::alloc::Global;

/// Whether what is declared in a universe may hold a field of this one.
fn holds(universe: Universe, field: TypeUniverse) -> bool
    ensures { result ≡ spec.holds universe field }
{
    match universe {
        Universe::Free => field == TypeUniverse::Free,
        Universe::Linear => true,
        Universe::AnyType => field != TypeUniverse::Linear,
        Universe::Region => true,
    }
}

/// Whether a written type is above a universe that it is held in. One that isn't well formed is above none.
fn is_above(alloc: Global, scope: &Scope, universe: Universe, of: &TypeText) -> Result<bool, Memory>
    ensures { IfOk result
        (λ above. above ≡ spec.is_above (judged_in scope.now)
        (universes.universe_of scope.now.heads.now scope.now.params.now) universe
        (judged_in scope.now (written of.now))) }
{
    match judge_type(alloc, scope, of)? {
        Judged::Means(t) => Ok(!holds(universe, universe_of(scope.heads, scope.params, &t))),
        Judged::Fails(_) => Ok(false),
    }
}

/// The place of the first field that is above a universe.
fn first_above(
    alloc: Global,
    scope: &Scope,
    universe: Universe,
    fields: &Vec<Field<Parsed>>,
) -> Result<Option<Pos>, Memory>
    ensures { IfOk result
        (λ found. found ≡ spec.first_above (judged_in scope.now)
        (universes.universe_of scope.now.heads.now scope.now.params.now) universe
        (fields_said fields.now.items)) }
{
    for one in fields {
        if is_above(alloc, scope, universe, &one.of)? {
            return Ok(Some(one.name.at));
        }
    }
    Ok(None)
}

/// The place of the first field of cases that is above a universe.
fn first_in_cases(
    alloc: Global,
    scope: &Scope,
    universe: Universe,
    cases: &Vec<UnionCase<Parsed>>,
) -> Result<Option<Pos>, Memory>
    ensures { IfOk result
        (λ found. found ≡ spec.cases_above (judged_in scope.now)
        (universes.universe_of scope.now.heads.now scope.now.params.now) universe
        (cases_said cases.now.items)) }
{
    for one in cases {
        match first_above(alloc, scope, universe, &one.fields)? {
            Some(at) => return Ok(Some(at)),
            None => {}
        }
    }
    Ok(None)
}

/// The place of the first field of a record or a union that is above the universe that this is declared in.
///
/// # Errors
///
/// Only for want of memory.
pub fn field_above(alloc: Global, scope: &Scope, decl: &Decl<Parsed>) -> Result<Option<Pos>, Memory>
    ensures { IfOk result
        (λ found. found ≡ spec.field_above (judged_in scope.now)
        (universes.universe_of scope.now.heads.now scope.now.params.now) (walks.written decl.now)) }
{
    match decl {
        Decl::Constant(_, _, _) => Ok(None),
        Decl::Opaque(_, _, _, _) => Ok(None),
        Decl::Record(_, _, _, universe, fields) => first_above(alloc, scope, *universe, fields),
        Decl::Union(_, _, _, universe, cases) => first_in_cases(alloc, scope, *universe, cases),
        Decl::Function(_, _, _) => Ok(None),
        Decl::Class(_, _, _, _) => Ok(None),
        Decl::Instance(_, _, _, _) => Ok(None),
        Decl::ConstantBody(_, _, _, _) => Ok(None),
        Decl::FunctionBody(_, _, _, _, _) => Ok(None),
        Decl::InstanceBody(_, _, _, _, _) => Ok(None),
    }
}

/// The place of a union without a case.
pub fn empty_union(decl: &Decl<Parsed>) -> Option<Pos>
    ensures { result ≡ spec.empty_union (walks.written decl.now) }
{
    match decl {
        Decl::Constant(_, _, _) => None,
        Decl::Opaque(_, _, _, _) => None,
        Decl::Record(_, _, _, _, _) => None,
        Decl::Union(at, _, _, _, cases) => if_empty(*at, cases),
        Decl::Function(_, _, _) => None,
        Decl::Class(_, _, _, _) => None,
        Decl::Instance(_, _, _, _) => None,
        Decl::ConstantBody(_, _, _, _) => None,
        Decl::FunctionBody(_, _, _, _, _) => None,
        Decl::InstanceBody(_, _, _, _, _) => None,
    }
}

/// The place of a union with these cases, if there are none.
fn if_empty(at: Pos, cases: &Vec<UnionCase<Parsed>>) -> Option<Pos>
    ensures { result ≡ spec.without_case at (cases_said cases.now.items) }
{
    if cases.is_empty() { Some(at) } else { None }
}
