//! Whether a type stands over the rows of declared types and the type parameters in scope, and whether it is
//! well formed. Both are one walk, which asks more or less of arguments.

ghost use Rattle.std.specs.Prelude.{◌≡◌, ◌↔◌, IsTrue, Option, None, Some, if◌then◌else◌};
ghost use Rattle.std.specs.Option.{option_map};
ghost use Rattle.au_types.specs.Types.{named, of_type};
ghost use Rattle.au_types.specs.Views.{argument, argument_all, meaning};
ghost use Rattle.au_matching.specs.Fits.{argument_found, arguments_found, type_found};
ghost use Rattle.au_matching.specs.Fits.{asked, taken_by, takes_by};
ghost use Rattle.au_matching.specs.Forming as forming;
ghost use Rattle.au_matching.specs.Forming.{IsWellFormed, StandsOver};
ghost use Rattle.au_matching.specs.Forming.{fits, fits_in_kind, is_formed};

use crate::judging::{parameter_universe, type_universe};
use crate::universes::{TypeUniverse, joined, of_declaration, takes};
use au_syntax::Universe;
use au_types::{Arg, DeclAt, Heads, Params, Ty};

/// Whether a type stands over these rows and type parameters: each declared type in it has a row, and
/// arguments that fit that row in number, a region exactly where the row has one; its type parameters are in
/// scope, and none of them is a region.
///
/// It takes no memory and looks at each part of the type once.
pub fn stands_over(heads: &Heads, scope: &Params, of: &Ty) -> bool
    ensures test { result ≡ is_formed fits_in_kind heads.now scope.now (meaning of.now) }
    ensures exact { IsTrue result ↔ StandsOver heads.now scope.now (meaning of.now) }
{
    is_formed(heads, scope, Fit::InKind, of)
}

/// Whether a type is well formed over these rows and type parameters: it stands over them, and everywhere in
/// it arguments fit in universe, as [`fits`] says.
///
/// It takes no memory and looks at each part of the type once: the universes are found on the way up.
pub fn is_well_formed(heads: &Heads, scope: &Params, of: &Ty) -> bool
    ensures test { result ≡ is_formed (fits heads.now scope.now) heads.now scope.now (meaning of.now) }
    ensures exact { IsTrue result ↔ IsWellFormed heads.now scope.now (meaning of.now) }
{
    is_formed(heads, scope, Fit::InUniverse, of)
}

/// Whether a parameter of this universe takes an argument, over these rows and type parameters: `Free` takes
/// a Free type, `Linear` a Linear one, `Type` any type, and a region parameter a region.
///
/// It takes no memory.
pub fn fits(heads: &Heads, scope: &Params, wanted: Universe, one: &Arg) -> bool
    ensures { result ≡ fits heads.now scope.now wanted (argument one.now) }
{
    match one {
        Arg::Of(of) => takes(wanted, type_universe(heads, scope, of)),
        Arg::In(_) => wants_region(wanted),
    }
}

/// How arguments are asked to fit.
#[derive(Clone, Copy)]
enum Fit {
    /// A region exactly where a region is wanted.
    InKind,
    /// In universe besides.
    InUniverse,
}

/// Whether a type's parameters are in scope, and its arguments fit.
fn is_formed(heads: &Heads, scope: &Params, fit: Fit, of: &Ty) -> bool
    ensures { result ≡ is_formed (asked fit heads.now scope.now) heads.now scope.now (meaning of.now) }
{
    judge(heads, scope, fit, of).is_some()
}

/// The universe of a type whose parameters are in scope and whose arguments fit, and `None` for another.
#[tactic(auto, using(au_types::proofs::TypeLemmas::type_steps, crate::proofs::FormedLemmas::formed_steps))]
#[cycle(judge)]
fn judge(heads: &Heads, scope: &Params, fit: Fit, of: &Ty) -> Option<TypeUniverse>
    ensures { result ≡ type_found fit heads.now scope.now (meaning of.now) }
{
    match of {
        Ty::Unit => Some(TypeUniverse::Free),
        Ty::Bool => Some(TypeUniverse::Free),
        Ty::Int(_) => Some(TypeUniverse::Free),
        Ty::Text => Some(TypeUniverse::Free),
        Ty::Param(name) => parameter_universe(scope, name),
        Ty::Named { of, args } => judge_declared(heads, scope, fit, *of, args),
        Ty::Read { to, .. } => reference(TypeUniverse::Free, judge(heads, scope, fit, to)),
        Ty::Write { to, .. } => reference(TypeUniverse::Linear, judge(heads, scope, fit, to)),
    }
}

/// The universe of a reference, where that of what is behind it was found.
fn reference(universe: TypeUniverse, behind: Option<TypeUniverse>) -> Option<TypeUniverse>
    ensures { result ≡ option_map (λ _. universe) behind }
{
    match behind {
        Some(_) => Some(universe),
        None => None,
    }
}

/// The universe of a declared type that has a row and whose arguments fit it.
#[tactic(auto, using(crate::proofs::FormedLemmas::declared_steps))]
#[cycle(judge)]
fn judge_declared(
    heads: &Heads,
    scope: &Params,
    fit: Fit,
    at: DeclAt,
    args: &Vec<Arg>,
) -> Option<TypeUniverse>
    ensures { result ≡ type_found fit heads.now scope.now (named at (argument_all args.now.items)) }
{
    let Some(head) = heads.row(at) else {
        return None;
    };
    match judge_arguments(heads, scope, fit, &head.params, args) {
        Some(found) => Some(of_declaration(head.universe, found)),
        None => None,
    }
}

/// What arguments come to that fit parameters, each the one in its place.
#[cycle(judge)]
fn judge_arguments(
    heads: &Heads,
    scope: &Params,
    fit: Fit,
    expected: &Params,
    args: &Vec<Arg>,
) -> Option<TypeUniverse>
    ensures { result ≡ arguments_found fit heads.now scope.now expected.now (argument_all args.now.items) }
{
    if args.len() != expected.len() {
        return None;
    }
    let mut so_far = TypeUniverse::Free;
    for (index, one) in args.iter().enumerate() {
        let wanted = expected.at(index).universe;
        match judge_argument(heads, scope, fit, wanted, one) {
            Some(found) => so_far = joined(so_far, found),
            None => return None,
        }
    }
    Some(so_far)
}

/// What an argument comes to that fits a parameter of this universe. A region comes to Free, which changes
/// nothing.
#[tactic(auto, using(au_types::proofs::TypeLemmas::type_steps, crate::proofs::FormedLemmas::argument_steps))]
#[cycle(judge)]
fn judge_argument(
    heads: &Heads,
    scope: &Params,
    fit: Fit,
    wanted: Universe,
    one: &Arg,
) -> Option<TypeUniverse>
    ensures { result ≡ argument_found fit heads.now scope.now wanted (argument one.now) }
{
    match one {
        Arg::Of(of) => taken(fit, wanted, judge(heads, scope, fit, of)),
        Arg::In(_) => region_taken(wanted),
    }
}

/// The universe of a type that was found, where a parameter of the universe that is wanted takes it.
fn taken(fit: Fit, wanted: Universe, found: Option<TypeUniverse>) -> Option<TypeUniverse>
    ensures { result ≡ taken_by fit wanted found }
{
    let universe = found?;
    if takes_by(fit, wanted, universe) {
        Some(universe)
    } else {
        None
    }
}

/// What a region comes to where one is wanted.
fn region_taken(wanted: Universe) -> Option<TypeUniverse>
    ensures { result ≡ (if forming.wants_region wanted then Some TypeUniverse.Free else None) }
{
    if wants_region(wanted) {
        Some(TypeUniverse::Free)
    } else {
        None
    }
}

fn takes_by(fit: Fit, wanted: Universe, universe: TypeUniverse) -> bool
    ensures { result ≡ takes_by fit wanted universe }
{
    match fit {
        Fit::InKind => !wants_region(wanted),
        Fit::InUniverse => takes(wanted, universe),
    }
}

fn wants_region(wanted: Universe) -> bool
    ensures { result ≡ forming.wants_region wanted }
{
    match wanted {
        Universe::Free => false,
        Universe::Linear => false,
        Universe::AnyType => false,
        Universe::Region => true,
    }
}
