//! Whether a substitution fixes all names of a type.

ghost use Rattle.std.specs.Prelude.{◌≡◌, IsTrue, Some, ◌↔◌};
ghost use Rattle.au_types.specs.Views.{argument, argument_all, meaning};
ghost use Rattle.au_matching.specs.Bindings.{value_of};
ghost use Rattle.au_matching.specs.Fixed.{all_fixed, argument_fixed, fixed, is_a_region, is_a_type};
ghost use Rattle.au_matching.specs.Fixed.{region_fixed};
ghost use Rattle.au_matching.specs.Substituted.{Fixes};

use crate::substitutions::Substitution;
use au_base::Name;
use au_types::{Arg, Region, Ty};

/// Whether the substitution gives each type parameter of a type a type, and each region of a name in it a
/// region.
pub fn fixes(s: &Substitution, t: &Ty) -> bool
    ensures test { result ≡ fixed s.now (meaning t.now) }
    ensures exact { IsTrue result ↔ Fixes s.now (meaning t.now) }
{
    type_fixed(s, t)
}

#[tactic(auto, using(au_types::proofs::TypeLemmas::type_steps))]
fn is_a_type(value: &Arg) -> bool
    ensures { result ≡ is_a_type (Some (argument value.now)) }
{
    match value {
        Arg::Of(_) => true,
        Arg::In(_) => false,
    }
}

fn parameter_fixed(s: &Substitution, name: &Name) -> bool
    ensures { result ≡ is_a_type (value_of name.now s.now) }
{
    match s.value_of(name) {
        Some(value) => is_a_type(value),
        None => false,
    }
}

fn named_region_fixed(s: &Substitution, name: &Name) -> bool
    ensures { result ≡ is_a_region (value_of name.now s.now) }
{
    match s.value_of(name) {
        Some(value) => is_a_region(value),
        None => false,
    }
}

#[tactic(auto, using(au_types::proofs::TypeLemmas::type_steps))]
fn is_a_region(value: &Arg) -> bool
    ensures { result ≡ is_a_region (Some (argument value.now)) }
{
    match value {
        Arg::Of(_) => false,
        Arg::In(_) => true,
    }
}

fn region_fixed(s: &Substitution, region: &Region) -> bool
    ensures { result ≡ region_fixed s.now region.now }
{
    match region {
        Region::Static => true,
        Region::Named(name) => named_region_fixed(s, name),
        Region::Anonymous => true,
    }
}

#[tactic(auto, using(au_types::proofs::TypeLemmas::type_steps))]
#[cycle(type_fixed)]
fn type_fixed(s: &Substitution, t: &Ty) -> bool
    ensures { result ≡ fixed s.now (meaning t.now) }
{
    match t {
        Ty::Unit => true,
        Ty::Bool => true,
        Ty::Int(_) => true,
        Ty::Text => true,
        Ty::Param(name) => parameter_fixed(s, name),
        Ty::Named { of: _, args } => arguments_fixed(s, args),
        Ty::Read { to, region } => type_fixed(s, to) && region_fixed(s, region),
        Ty::Write { to, region } => type_fixed(s, to) && region_fixed(s, region),
    }
}

#[tactic(auto, using(au_types::proofs::TypeLemmas::type_steps))]
#[cycle(type_fixed)]
fn argument_fixed(s: &Substitution, one: &Arg) -> bool
    ensures { result ≡ argument_fixed s.now (argument one.now) }
{
    match one {
        Arg::Of(t) => type_fixed(s, t),
        Arg::In(region) => region_fixed(s, region),
    }
}

#[cycle(type_fixed)]
fn arguments_fixed(s: &Substitution, args: &Vec<Arg>) -> bool
    ensures { result ≡ all_fixed s.now (argument_all args.now.items) }
{
    for one in args {
        if !argument_fixed(s, one) {
            return false;
        }
    }
    true
}
