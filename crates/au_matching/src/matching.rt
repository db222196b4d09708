//! Matching: which substitution makes a pattern equal to a type.

ghost use Rattle.std.specs.Prelude.{◌≡◌, IfOk, Some};
ghost use Rattle.au_types.specs.Same.{same_argument};
ghost use Rattle.au_types.specs.Types.{in_region, named, of_type, reads, writes};
ghost use Rattle.au_types.specs.Views.{argument, argument_all, meaning};
ghost use Rattle.au_matching.specs.Answers.{IfNo, IfYes, answered};
ghost use Rattle.au_matching.specs.Bindings.{Bindings, Extends, IsInOrder, value_of};
ghost use Rattle.au_matching.specs.Matched.{Makes, all_matched, and_then, argument_matched, bound, matched};
ghost use Rattle.au_matching.specs.Matched.{only_if, region_matched};

use crate::substitutions::Substitution;
use au_base::{Memory, Name};
use au_types::{Arg, DeclAt, Region, Ty, copy_region, copy_type, is_same, is_same_region};
use std::alloc::Global;

/// What matching answers.
#[derive(Drop)]
pub enum Match {
    /// The substitution that was found.
    Yes(Substitution),
    /// There is none.
    No,
}

/// The least substitution that goes on from `so_far`, gives each type parameter of the pattern a type and
/// each of its named regions a region, and makes the pattern equal to the target; `No` exactly where there
/// is none. Every type parameter and named region of the pattern may be given something. Those of the
/// target are left alone, and a name that stands in both may mean different things.
///
/// # Errors
///
/// `Memory` when memory runs out.
pub fn match_types(
    alloc: Global,
    pattern: &Ty,
    target: &Ty,
    so_far: Substitution,
) -> Result<Match, Memory>
    ensures exact { IfOk result (λ m.
        answered m ≡ matched (meaning pattern.now) (meaning target.now) so_far) }
    ensures sound { IfOk result (λ m. IfYes m (Makes so_far (meaning pattern.now) (meaning target.now))) }
    ensures least { (r : Bindings) → Makes so_far (meaning pattern.now) (meaning target.now) r →
        IfOk result (λ m. IfYes m (λ s. Extends s r)) }
    ensures refused { IfOk result (λ m. IfNo m (
        (r : Bindings) → ¬ (Makes so_far (meaning pattern.now) (meaning target.now) r))) }
    ensures ordered { IfOk result (λ m. IfYes m IsInOrder) }
{
    let mut s = so_far;
    if type_matched(alloc, pattern, target, &mut s)? {
        Ok(Match::Yes(s))
    } else {
        Ok(Match::No)
    }
}

/// Whether what a name stands for is this type.
#[tactic(auto, using(au_types::proofs::TypeLemmas::type_steps))]
fn is_type(known: &Arg, t: &Ty) -> bool
    ensures { result ≡ same_argument (argument known.now) (of_type (meaning t.now)) }
{
    match known {
        Arg::Of(other) => is_same(other, t),
        Arg::In(_) => false,
    }
}

/// Whether what a name stands for is this region.
#[tactic(auto, using(au_types::proofs::TypeLemmas::type_steps))]
fn is_region(known: &Arg, region: &Region) -> bool
    ensures { result ≡ same_argument (argument known.now) (in_region region.now) }
{
    match known {
        Arg::Of(_) => false,
        Arg::In(other) => is_same_region(other, region),
    }
}

/// Lets a name that isn't listed stand for a value.
fn put_copied(alloc: Global, name: &Name, value: Arg, s: &mut Substitution) -> Result<bool, Memory>
    requires { value_of name.now s.old ≡ None }
    ensures { IfOk result (λ done. only_if done s.new ≡
        bound name.now (argument value) (value_of name.now s.old) s.old) }
{
    let name = name.copy(alloc)?;
    s.put(name, value)?;
    Ok(true)
}

#[tactic(auto, using(au_types::proofs::TypeLemmas::type_steps))]
fn type_bound(alloc: Global, name: &Name, t: &Ty, s: &mut Substitution) -> Result<bool, Memory>
    ensures { IfOk result (λ fits. only_if fits s.new ≡
        bound name.now (of_type (meaning t.now)) (value_of name.now s.old) s.old) }
{
    if let Some(known) = s.value_of(name) {
        return Ok(is_type(known, t));
    }
    let copy = copy_type(alloc, t)?;
    put_copied(alloc, name, Arg::Of(copy), s)
}

#[tactic(auto, using(au_types::proofs::TypeLemmas::type_steps))]
fn region_bound(
    alloc: Global,
    name: &Name,
    region: &Region,
    s: &mut Substitution,
) -> Result<bool, Memory>
    ensures { IfOk result (λ fits. only_if fits s.new ≡
        bound name.now (in_region region.now) (value_of name.now s.old) s.old) }
{
    if let Some(known) = s.value_of(name) {
        return Ok(is_region(known, region));
    }
    let copy = copy_region(alloc, region)?;
    put_copied(alloc, name, Arg::In(copy), s)
}

fn region_matched(
    alloc: Global,
    pattern: &Region,
    target: &Region,
    s: &mut Substitution,
) -> Result<bool, Memory>
    ensures { IfOk result (λ fits. only_if fits s.new ≡ region_matched pattern.now target.now s.old) }
{
    match pattern {
        Region::Static => Ok(is_same_region(pattern, target)),
        Region::Named(name) => region_bound(alloc, name, target, s),
        Region::Anonymous => Ok(is_same_region(pattern, target)),
    }
}

#[tactic(auto, using(au_types::proofs::TypeLemmas::type_steps))]
#[cycle(type_matched)]
fn type_matched(
    alloc: Global,
    pattern: &Ty,
    target: &Ty,
    s: &mut Substitution,
) -> Result<bool, Memory>
    ensures { IfOk result (λ fits. only_if fits s.new ≡
        matched (meaning pattern.now) (meaning target.now) s.old) }
{
    match pattern {
        Ty::Unit => Ok(is_same(pattern, target)),
        Ty::Bool => Ok(is_same(pattern, target)),
        Ty::Int(_) => Ok(is_same(pattern, target)),
        Ty::Text => Ok(is_same(pattern, target)),
        Ty::Param(name) => type_bound(alloc, name, target, s),
        Ty::Named { of, args } => named_matched(alloc, *of, args, target, s),
        Ty::Read { to, region } => read_matched(alloc, to, region, target, s),
        Ty::Write { to, region } => write_matched(alloc, to, region, target, s),
    }
}

#[tactic(auto, using(au_types::proofs::TypeLemmas::type_steps))]
#[cycle(type_matched)]
fn named_matched(
    alloc: Global,
    of: DeclAt,
    args: &Vec<Arg>,
    target: &Ty,
    s: &mut Substitution,
) -> Result<bool, Memory>
    ensures { IfOk result (λ fits. only_if fits s.new ≡
        matched (named of (argument_all args.now.items)) (meaning target.now) s.old) }
{
    match target {
        Ty::Named {
            of: other,
            args: others,
        } => {
            if of == *other {
                arguments_matched(alloc, args, others, s)
            } else {
                Ok(false)
            }
        }
        _ => Ok(false),
    }
}

#[tactic(auto, using(au_types::proofs::TypeLemmas::type_steps))]
#[cycle(type_matched)]
fn read_matched(
    alloc: Global,
    to: &Ty,
    region: &Region,
    target: &Ty,
    s: &mut Substitution,
) -> Result<bool, Memory>
    ensures { IfOk result (λ fits. only_if fits s.new ≡
        matched (reads (meaning to.now) region.now) (meaning target.now) s.old) }
{
    match target {
        Ty::Read {
            to: other,
            region: its,
        } => reference_matched(alloc, to, region, other, its, s),
        _ => Ok(false),
    }
}

#[tactic(auto, using(au_types::proofs::TypeLemmas::type_steps))]
#[cycle(type_matched)]
fn write_matched(
    alloc: Global,
    to: &Ty,
    region: &Region,
    target: &Ty,
    s: &mut Substitution,
) -> Result<bool, Memory>
    ensures { IfOk result (λ fits. only_if fits s.new ≡
        matched (writes (meaning to.now) region.now) (meaning target.now) s.old) }
{
    match target {
        Ty::Write {
            to: other,
            region: its,
        } => reference_matched(alloc, to, region, other, its, s),
        _ => Ok(false),
    }
}

/// The types behind two references, and then their regions.
#[cycle(type_matched)]
fn reference_matched(
    alloc: Global,
    to: &Ty,
    region: &Region,
    other: &Ty,
    its: &Region,
    s: &mut Substitution,
) -> Result<bool, Memory>
    ensures { IfOk result (λ fits. only_if fits s.new ≡
        and_then (matched (meaning to.now) (meaning other.now) s.old) (region_matched region.now its.now)) }
{
    if !type_matched(alloc, to, other, s)? {
        return Ok(false);
    }
    region_matched(alloc, region, its, s)
}

#[tactic(auto, using(au_types::proofs::TypeLemmas::type_steps))]
#[cycle(type_matched)]
fn argument_matched(
    alloc: Global,
    pattern: &Arg,
    target: &Arg,
    s: &mut Substitution,
) -> Result<bool, Memory>
    ensures { IfOk result (λ fits. only_if fits s.new ≡
        argument_matched (argument pattern.now) (argument target.now) s.old) }
{
    match pattern {
        Arg::Of(of) => type_argument_matched(alloc, of, target, s),
        Arg::In(region) => region_argument_matched(alloc, region, target, s),
    }
}

#[tactic(auto, using(au_types::proofs::TypeLemmas::type_steps))]
#[cycle(type_matched)]
fn type_argument_matched(
    alloc: Global,
    of: &Ty,
    target: &Arg,
    s: &mut Substitution,
) -> Result<bool, Memory>
    ensures { IfOk result (λ fits. only_if fits s.new ≡
        argument_matched (of_type (meaning of.now)) (argument target.now) s.old) }
{
    match target {
        Arg::Of(other) => type_matched(alloc, of, other, s),
        Arg::In(_) => Ok(false),
    }
}

#[tactic(auto, using(au_types::proofs::TypeLemmas::type_steps))]
fn region_argument_matched(
    alloc: Global,
    region: &Region,
    target: &Arg,
    s: &mut Substitution,
) -> Result<bool, Memory>
    ensures { IfOk result (λ fits. only_if fits s.new ≡
        argument_matched (in_region region.now) (argument target.now) s.old) }
{
    match target {
        Arg::Of(_) => Ok(false),
        Arg::In(other) => region_matched(alloc, region, other, s),
    }
}

#[cycle(type_matched)]
fn arguments_matched(
    alloc: Global,
    args: &Vec<Arg>,
    others: &Vec<Arg>,
    s: &mut Substitution,
) -> Result<bool, Memory>
    ensures { IfOk result (λ fits. only_if fits s.new ≡
        all_matched (argument_all args.now.items) (argument_all others.now.items) s.old) }
{
    if args.len() != others.len() {
        return Ok(false);
    }
    for (index, one) in args.iter().enumerate() {
        if !argument_matched(alloc, one, &others[index], s)? {
            return Ok(false);
        }
    }
    Ok(true)
}
