//! Whether two types are one type.

ghost use Rattle.std.specs.Prelude.{◌≡◌, IsTrue, ◌↔◌};
ghost use Rattle.au_types.specs.declared.types.Region.TheVariants.{Static, Named, Anonymous};
ghost use Rattle.au_types.specs.Same.{same, same_all, same_argument, same_region};
ghost use Rattle.au_types.specs.Types.{in_region, integer, named, of_type, parameter, reads, text, truth};
ghost use Rattle.au_types.specs.Types.{unit, writes};
ghost use Rattle.au_types.specs.Views.{argument, argument_all, meaning};

use crate::types::{Arg, DeclAt, Region, Ty};
use au_base::{IntKind, Name};

/// Whether two types are one type.
pub fn is_same(one: &Ty, other: &Ty) -> bool
    ensures test { result ≡ same (meaning one.now) (meaning other.now) }
    ensures exact { IsTrue result ↔ (meaning one.now ≡ meaning other.now) }
{
    same_type(one, other)
}

/// Whether two regions are one region.
pub fn is_same_region(one: &Region, other: &Region) -> bool
    ensures test { result ≡ same_region one.now other.now }
    ensures exact { IsTrue result ↔ (one.now ≡ other.now) }
{
    same_regions(one, other)
}

fn same_regions(one: &Region, other: &Region) -> bool
    ensures { result ≡ same_region one.now other.now }
{
    match one {
        Region::Static => is_static(other),
        Region::Named(name) => is_named_region(name, other),
        Region::Anonymous => is_anonymous(other),
    }
}

fn is_static(region: &Region) -> bool
    ensures { result ≡ same_region Static region.now }
{
    match region {
        Region::Static => true,
        _ => false,
    }
}

fn is_named_region(name: &Name, region: &Region) -> bool
    ensures { result ≡ same_region (Named name.now) region.now }
{
    match region {
        Region::Named(other) => name.as_bytes() == other.as_bytes(),
        _ => false,
    }
}

fn is_anonymous(region: &Region) -> bool
    ensures { result ≡ same_region Anonymous region.now }
{
    match region {
        Region::Anonymous => true,
        _ => false,
    }
}

#[tactic(auto, using(crate::proofs::TypeLemmas::type_steps))]
fn is_unit(of: &Ty) -> bool
    ensures { result ≡ same unit (meaning of.now) }
{
    match of {
        Ty::Unit => true,
        _ => false,
    }
}

#[tactic(auto, using(crate::proofs::TypeLemmas::type_steps))]
fn is_truth(of: &Ty) -> bool
    ensures { result ≡ same truth (meaning of.now) }
{
    match of {
        Ty::Bool => true,
        _ => false,
    }
}

#[tactic(auto, using(crate::proofs::TypeLemmas::type_steps))]
fn is_integer(kind: IntKind, of: &Ty) -> bool
    ensures { result ≡ same (integer kind) (meaning of.now) }
{
    match of {
        Ty::Int(other) => kind == *other,
        _ => false,
    }
}

#[tactic(auto, using(crate::proofs::TypeLemmas::type_steps))]
fn is_text(of: &Ty) -> bool
    ensures { result ≡ same text (meaning of.now) }
{
    match of {
        Ty::Text => true,
        _ => false,
    }
}

#[tactic(auto, using(crate::proofs::TypeLemmas::type_steps))]
fn is_parameter(name: &Name, of: &Ty) -> bool
    ensures { result ≡ same (parameter name.now) (meaning of.now) }
{
    match of {
        Ty::Param(other) => name.as_bytes() == other.as_bytes(),
        _ => false,
    }
}

#[tactic(auto, using(crate::proofs::TypeLemmas::type_steps))]
#[cycle(same_type)]
fn same_type(one: &Ty, other: &Ty) -> bool
    ensures { result ≡ same (meaning one.now) (meaning other.now) }
{
    match one {
        Ty::Unit => is_unit(other),
        Ty::Bool => is_truth(other),
        Ty::Int(kind) => is_integer(*kind, other),
        Ty::Text => is_text(other),
        Ty::Param(name) => is_parameter(name, other),
        Ty::Named { of, args } => is_named(*of, args, other),
        Ty::Read { to, region } => is_read(to, region, other),
        Ty::Write { to, region } => is_write(to, region, other),
    }
}

#[tactic(auto, using(crate::proofs::TypeLemmas::type_steps))]
#[cycle(same_type)]
fn is_named(at: DeclAt, args: &Vec<Arg>, of: &Ty) -> bool
    ensures { result ≡ same (named at (argument_all args.now.items)) (meaning of.now) }
{
    match of {
        Ty::Named {
            of: other,
            args: others,
        } => at == *other && same_arguments(args, others),
        _ => false,
    }
}

#[tactic(auto, using(crate::proofs::TypeLemmas::type_steps))]
#[cycle(same_type)]
fn is_read(to: &Ty, region: &Region, of: &Ty) -> bool
    ensures { result ≡ same (reads (meaning to.now) region.now) (meaning of.now) }
{
    match of {
        Ty::Read {
            to: other,
            region: its,
        } => same_type(to, other) && same_regions(region, its),
        _ => false,
    }
}

#[tactic(auto, using(crate::proofs::TypeLemmas::type_steps))]
#[cycle(same_type)]
fn is_write(to: &Ty, region: &Region, of: &Ty) -> bool
    ensures { result ≡ same (writes (meaning to.now) region.now) (meaning of.now) }
{
    match of {
        Ty::Write {
            to: other,
            region: its,
        } => same_type(to, other) && same_regions(region, its),
        _ => false,
    }
}

#[tactic(auto, using(crate::proofs::TypeLemmas::type_steps))]
#[cycle(same_type)]
fn is_same_argument(one: &Arg, other: &Arg) -> bool
    ensures { result ≡ same_argument (argument one.now) (argument other.now) }
{
    match one {
        Arg::Of(of) => is_type_argument(of, other),
        Arg::In(region) => is_region_argument(region, other),
    }
}

#[tactic(auto, using(crate::proofs::TypeLemmas::type_steps))]
#[cycle(same_type)]
fn is_type_argument(of: &Ty, other: &Arg) -> bool
    ensures { result ≡ same_argument (of_type (meaning of.now)) (argument other.now) }
{
    match other {
        Arg::Of(its) => same_type(of, its),
        Arg::In(_) => false,
    }
}

#[tactic(auto, using(crate::proofs::TypeLemmas::type_steps))]
fn is_region_argument(region: &Region, other: &Arg) -> bool
    ensures { result ≡ same_argument (in_region region.now) (argument other.now) }
{
    match other {
        Arg::Of(_) => false,
        Arg::In(its) => same_regions(region, its),
    }
}

#[tactic(auto, using(crate::proofs::TypeLemmas::type_steps))]
#[cycle(same_type)]
fn same_arguments(args: &Vec<Arg>, others: &Vec<Arg>) -> bool
    ensures { result ≡ same_all (argument_all args.now.items) (argument_all others.now.items) }
{
    if args.len() != others.len() {
        return false;
    }
    for (index, one) in args.iter().enumerate() {
        if !is_same_argument(one, &others[index]) {
            return false;
        }
    }
    true
}
