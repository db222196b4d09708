//! Which types may be heads of instances.

ghost use Rattle.std.specs.Prelude.{◌≡◌, ◌↔◌, IsTrue, option_copied};
ghost use Rattle.au_types.specs.Types.{of_type, in_region};
ghost use Rattle.au_types.specs.Universes as universes;
ghost use Rattle.au_types.specs.Views.{argument, argument_all, meaning};
ghost use Rattle.au_matching.specs.Forming as forming;
ghost use Rattle.au_instances.specs.Forms as spec;
ghost use Rattle.au_instances.specs.Forms.{HasForm};

use crate::constructors::constructor_of;
use au_base::Name;
use au_judged_types::Generics;
use au_syntax::Universe;
use au_types::{Arg, Params, Region, Ty, universe_in};

/// Whether a type may be the head of an instance with these type parameters: it is headed by a constructor,
/// it is closed or its arguments are distinct parameters of the instance, and each parameter of the instance
/// is one of them. A closed type holds no type parameter and no region but `Static`.
///
/// It takes no memory. The arguments of the head are compared with one another and with the parameters.
pub fn has_form(generics: &Generics, head: &Ty) -> bool
    ensures test { result ≡ spec.has_form generics.now (meaning head.now) }
    ensures exact { IsTrue result ↔ HasForm generics.now (meaning head.now) }
{
    let args = arguments_of(head);
    let params = generics.params();
    constructor_of(head).is_some()
        && (is_closed(head) || (are_parameters(params, args) && are_distinct(args)))
        && all_stand(params, args)
}

/// The arguments of a type, which a declared type alone may have.
#[tactic(auto, using(au_types::proofs::TypeLemmas::type_steps))]
pub(crate) fn arguments_of(head: &Ty) -> &[Arg]
    ensures { argument_all result.now ≡ spec.arguments_of (meaning head.now) }
{
    match head {
        Ty::Unit => &[],
        Ty::Bool => &[],
        Ty::Int(_) => &[],
        Ty::Text => &[],
        Ty::Param(_) => &[],
        Ty::Named { args, .. } => args.as_slice(),
        Ty::Read { .. } => &[],
        Ty::Write { .. } => &[],
    }
}

/// Whether neither a type parameter nor a region but `Static` stands in a type.
#[tactic(auto, using(au_types::proofs::TypeLemmas::type_steps))]
#[cycle(is_closed)]
fn is_closed(of: &Ty) -> bool
    ensures { result ≡ spec.is_closed (meaning of.now) }
{
    match of {
        Ty::Unit => true,
        Ty::Bool => true,
        Ty::Int(_) => true,
        Ty::Text => true,
        Ty::Param(_) => false,
        Ty::Named { args, .. } => are_closed(args),
        Ty::Read { to, region } => is_closed(to) && is_static(region),
        Ty::Write { to, region } => is_closed(to) && is_static(region),
    }
}

#[tactic(auto, using(au_types::proofs::TypeLemmas::type_steps))]
#[cycle(is_closed)]
fn is_closed_argument(one: &Arg) -> bool
    ensures { result ≡ spec.is_closed_argument (argument one.now) }
{
    match one {
        Arg::Of(of) => is_closed(of),
        Arg::In(region) => is_static(region),
    }
}

#[cycle(is_closed)]
fn are_closed(args: &Vec<Arg>) -> bool
    ensures { result ≡ spec.are_closed (argument_all args.now.items) }
{
    for one in args {
        if !is_closed_argument(one) {
            return false;
        }
    }
    true
}

fn is_static(region: &Region) -> bool
    ensures { result ≡ spec.is_static region.now }
{
    match region {
        Region::Static => true,
        Region::Named(_) => false,
        Region::Anonymous => false,
    }
}

/// The name of a type parameter.
#[tactic(auto, using(au_types::proofs::TypeLemmas::type_steps))]
pub(crate) fn type_name(of: &Ty) -> Option<&Name>
    ensures { option_copied result ≡ spec.type_name (meaning of.now) }
{
    match of {
        Ty::Unit => None,
        Ty::Bool => None,
        Ty::Int(_) => None,
        Ty::Text => None,
        Ty::Param(name) => Some(name),
        Ty::Named { .. } => None,
        Ty::Read { .. } => None,
        Ty::Write { .. } => None,
    }
}

fn region_name(region: &Region) -> Option<&Name>
    ensures { option_copied result ≡ spec.region_name region.now }
{
    match region {
        Region::Static => None,
        Region::Named(name) => Some(name),
        Region::Anonymous => None,
    }
}

/// The name that an argument is, if it is a type parameter or a region of a name.
#[tactic(auto, using(au_types::proofs::TypeLemmas::type_steps))]
pub(crate) fn name_of(one: &Arg) -> Option<&Name>
    ensures { option_copied result ≡ spec.name_of (argument one.now) }
{
    match one {
        Arg::Of(of) => type_name(of),
        Arg::In(region) => region_name(region),
    }
}

/// Whether an argument is of the kind of a universe: a region exactly for `Region`.
#[tactic(auto, using(au_types::proofs::TypeLemmas::type_steps))]
fn fits_in_kind(universe: Universe, one: &Arg) -> bool
    ensures { result ≡ forming.fits_in_kind universe (argument one.now) }
{
    match one {
        Arg::Of(_) => !wants_region(universe),
        Arg::In(_) => wants_region(universe),
    }
}

fn wants_region(universe: Universe) -> bool
    ensures { result ≡ forming.wants_region universe }
{
    match universe {
        Universe::Free => false,
        Universe::Linear => false,
        Universe::AnyType => false,
        Universe::Region => true,
    }
}

/// Whether an argument is a type parameter or a region of these.
fn is_parameter(params: &Params, one: &Arg) -> bool
    ensures { result ≡ spec.is_one_of params.now (spec.name_of (argument one.now)) (argument one.now) }
{
    let Some(name) = name_of(one) else {
        return false;
    };
    match universe_in(params, name) {
        Some(universe) => fits_in_kind(universe, one),
        None => false,
    }
}

/// Whether each argument is a type parameter or a region of these.
fn are_parameters(params: &Params, args: &[Arg]) -> bool
    ensures { result ≡ spec.are_parameters params.now (argument_all args.now) }
{
    for one in args {
        if !is_parameter(params, one) {
            return false;
        }
    }
    true
}

/// Whether an argument is this name.
pub(crate) fn is_called(name: &Name, one: &Arg) -> bool
    ensures { result ≡ spec.is_called name.now (spec.name_of (argument one.now)) }
{
    match name_of(one) {
        Some(other) => name.as_bytes() == other.as_bytes(),
        None => false,
    }
}

/// Whether a name is one of these arguments.
fn stands_in(name: &Name, args: &[Arg]) -> bool
    ensures { result ≡ spec.stands_in name.now (argument_all args.now) }
{
    for one in args {
        if is_called(name, one) {
            return true;
        }
    }
    false
}

/// Whether the name that an argument is, if it is one, is one of these.
fn is_again(one: &Arg, args: &[Arg]) -> bool
    ensures { result ≡ spec.is_again (spec.name_of (argument one.now)) (argument_all args.now) }
{
    match name_of(one) {
        Some(name) => stands_in(name, args),
        None => false,
    }
}

/// Whether no two of these arguments are one name.
fn are_distinct(args: &[Arg]) -> bool
    ensures { result ≡ spec.are_distinct (argument_all args.now) }
{
    for (index, one) in args.iter().enumerate() {
        if is_again(one, &args[index + 1..]) {
            return false;
        }
    }
    true
}

/// Whether each of these type parameters is one of the arguments.
fn all_stand(params: &Params, args: &[Arg]) -> bool
    ensures { result ≡ spec.all_stand params.now (argument_all args.now) }
{
    for index in 0..params.len() {
        if !stands_in(&params.at(index).name, args) {
            return false;
        }
    }
    true
}
