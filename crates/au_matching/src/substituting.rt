//! Types in which type parameters and named regions are replaced.

ghost use Rattle.std.specs.Prelude.{◌≡◌, IfOk, Some};
ghost use Rattle.au_types.specs.Views.{argument, argument_all, meaning};
ghost use Rattle.au_matching.specs.Bindings.{value_of};
ghost use Rattle.au_matching.specs.Substituted.{all_substituted, argument_substituted, region_for};
ghost use Rattle.au_matching.specs.Substituted.{region_substituted, substituted, type_for};

use crate::substitutions::Substitution;
use au_base::{Memory, Name};
use au_types::{Arg, Region, Ty, copy_region, copy_type};
use std::alloc::Global;

/// The type in which each type parameter and each named region that the substitution lists is replaced by
/// what it stands for, all at once: what is put in is not looked at again. A name that isn't listed stays,
/// as do all other parts.
/// A type parameter for which a region is listed stays too, and so does a region for which a type is.
///
/// # Errors
///
/// `Memory` when memory runs out.
pub fn substitute(alloc: Global, t: &Ty, s: &Substitution) -> Result<Ty, Memory>
    ensures { IfOk result (λ outcome. meaning outcome ≡ substituted s.now (meaning t.now)) }
{
    type_substituted(alloc, t, s)
}

#[tactic(auto, using(au_types::proofs::TypeLemmas::type_steps))]
fn region_given(alloc: Global, name: &Name, value: &Arg) -> Result<Region, Memory>
    ensures { IfOk result (λ outcome. outcome ≡ region_for (Some (argument value.now)) name.now) }
{
    match value {
        Arg::Of(_) => Ok(Region::Named(name.copy(alloc)?)),
        Arg::In(region) => copy_region(alloc, region),
    }
}

fn region_for(alloc: Global, name: &Name, s: &Substitution) -> Result<Region, Memory>
    ensures { IfOk result (λ outcome. outcome ≡ region_for (value_of name.now s.now) name.now) }
{
    match s.value_of(name) {
        Some(value) => region_given(alloc, name, value),
        None => Ok(Region::Named(name.copy(alloc)?)),
    }
}

fn region_substituted(alloc: Global, region: &Region, s: &Substitution) -> Result<Region, Memory>
    ensures { IfOk result (λ outcome. outcome ≡ region_substituted s.now region.now) }
{
    match region {
        Region::Static => Ok(Region::Static),
        Region::Named(name) => region_for(alloc, name, s),
        Region::Anonymous => Ok(Region::Anonymous),
    }
}

#[tactic(auto, using(au_types::proofs::TypeLemmas::type_steps))]
fn type_given(alloc: Global, name: &Name, value: &Arg) -> Result<Ty, Memory>
    ensures { IfOk result (λ outcome. meaning outcome ≡ type_for (Some (argument value.now)) name.now) }
{
    match value {
        Arg::Of(t) => copy_type(alloc, t),
        Arg::In(_) => Ok(Ty::Param(name.copy(alloc)?)),
    }
}

#[tactic(auto, using(au_types::proofs::TypeLemmas::type_steps))]
fn type_for(alloc: Global, name: &Name, s: &Substitution) -> Result<Ty, Memory>
    ensures { IfOk result (λ outcome. meaning outcome ≡ type_for (value_of name.now s.now) name.now) }
{
    match s.value_of(name) {
        Some(value) => type_given(alloc, name, value),
        None => Ok(Ty::Param(name.copy(alloc)?)),
    }
}

#[tactic(auto, using(au_types::proofs::TypeLemmas::type_steps))]
#[cycle(type_substituted)]
fn type_substituted(alloc: Global, t: &Ty, s: &Substitution) -> Result<Ty, Memory>
    ensures { IfOk result (λ outcome. meaning outcome ≡ substituted s.now (meaning t.now)) }
{
    match t {
        Ty::Unit => Ok(Ty::Unit),
        Ty::Bool => Ok(Ty::Bool),
        Ty::Int(kind) => Ok(Ty::Int(*kind)),
        Ty::Text => Ok(Ty::Text),
        Ty::Param(name) => type_for(alloc, name, s),
        Ty::Named { of, args } => {
            let args = arguments_substituted(alloc, args, s)?;
            Ok(Ty::Named { of: *of, args })
        }
        Ty::Read { to, region } => {
            let to = boxed_substituted(alloc, to, s)?;
            let region = region_substituted(alloc, region, s)?;
            Ok(Ty::Read { to, region })
        }
        Ty::Write { to, region } => {
            let to = boxed_substituted(alloc, to, s)?;
            let region = region_substituted(alloc, region, s)?;
            Ok(Ty::Write { to, region })
        }
    }
}

#[cycle(type_substituted)]
fn boxed_substituted(alloc: Global, t: &Ty, s: &Substitution) -> Result<Box<Ty>, Memory>
    ensures { IfOk result (λ outcome. meaning outcome.value ≡ substituted s.now (meaning t.now)) }
{
    let outcome = type_substituted(alloc, t, s)?;
    Ok(Box::new(alloc, outcome)?)
}

#[tactic(auto, using(au_types::proofs::TypeLemmas::type_steps))]
#[cycle(type_substituted)]
fn argument_substituted(alloc: Global, one: &Arg, s: &Substitution) -> Result<Arg, Memory>
    ensures { IfOk result (λ outcome. argument outcome ≡ argument_substituted s.now (argument one.now)) }
{
    match one {
        Arg::Of(t) => {
            let t = type_substituted(alloc, t, s)?;
            Ok(Arg::Of(t))
        }
        Arg::In(region) => {
            let region = region_substituted(alloc, region, s)?;
            Ok(Arg::In(region))
        }
    }
}

#[tactic(auto, using(au_types::proofs::TypeLemmas::type_steps))]
#[cycle(type_substituted)]
fn arguments_substituted(
    alloc: Global,
    args: &Vec<Arg>,
    s: &Substitution,
) -> Result<Vec<Arg>, Memory>
    ensures { IfOk result (λ outcome. argument_all outcome.items ≡
        all_substituted s.now (argument_all args.now.items)) }
{
    let mut outcome = Vec::new(alloc);
    for one in args {
        let given = argument_substituted(alloc, one, s)?;
        outcome.push(given)?;
    }
    Ok(outcome)
}
