//! Meanings put together from those of their parts.

ghost use Rattle.std.specs.Prelude.{◌≡◌, ◌&&◌, Some, map};
ghost use Rattle.std.specs.Option.{option_map};
ghost use Rattle.au_syntax.specs.declared.types.TypeText.{TypeText};
ghost use Rattle.au_types.specs.Same.{same, same_region};
ghost use Rattle.au_types.specs.Types.{integer};
ghost use Rattle.au_types.specs.Views.{meaning};
ghost use Rattle.au_types.specs.Meant as mean;

use crate::{Region, Ty, is_same, is_same_region};
use au_base::IntKind;
use au_syntax::{Access, TypeText};

/// A type that takes no arguments, with these.
#[tactic(auto, using(crate::proofs::MeantLemmas::meant_steps))]
pub(crate) fn alone(of: Ty, args: &Vec<TypeText>) -> Option<Ty>
    ensures { (f : TypeText → mean.Given)
        → option_map meaning result ≡ mean.alone (meaning of) (map f args.now.items) }
{
    if args.is_empty() { Some(of) } else { None }
}

/// The type of texts, for the arguments of `Span` that it has.
pub(crate) fn span_of(of: Option<Ty>, region: Option<Region>) -> Option<Ty>
    ensures { option_map meaning result ≡ mean.span_of (option_map meaning of) region }
{
    let Some(of) = of else {
        return None;
    };
    let Some(region) = region else {
        return None;
    };
    text_of(&of, &region)
}

/// The type of texts, where it has this element and this region.
#[tactic(auto, using(crate::proofs::TypeLemmas::type_steps))]
fn text_of(of: &Ty, region: &Region) -> Option<Ty>
    ensures { option_map meaning result ≡ mean.span_of (Some (meaning of.now)) (Some region.now) }
{
    if is_text(of, region) {
        Some(Ty::Text)
    } else {
        None
    }
}

/// Whether the texts have this element and this region.
#[tactic(auto, using(crate::proofs::TypeLemmas::type_steps))]
fn is_text(of: &Ty, region: &Region) -> bool
    ensures { result ≡ (same (meaning of.now) (integer IntKind.Nat8)
        && same_region region.now Region.Static) }
{
    is_same(of, &Ty::Int(IntKind::Nat8)) && is_same_region(region, &Region::Static)
}

/// A reference to a type in a region, where both mean something.
pub(crate) fn refers(access: Access, to: Option<Box<Ty>>, region: Option<Region>) -> Option<Ty>
    ensures { option_map meaning result ≡ mean.refers access (option_map (λ t. meaning t.value) to) region }
{
    match access {
        Access::Read => reads(to, region),
        Access::Write => writes(to, region),
    }
}

/// A reference that reads.
#[tactic(auto, using(crate::proofs::TypeLemmas::type_steps))]
fn reads(to: Option<Box<Ty>>, region: Option<Region>) -> Option<Ty>
    ensures { option_map meaning result
        ≡ mean.refers Access.Read (option_map (λ t. meaning t.value) to) region }
{
    let Some(to) = to else {
        return None;
    };
    let Some(region) = region else {
        return None;
    };
    Some(Ty::Read { to, region })
}

/// A reference that writes.
#[tactic(auto, using(crate::proofs::TypeLemmas::type_steps))]
fn writes(to: Option<Box<Ty>>, region: Option<Region>) -> Option<Ty>
    ensures { option_map meaning result
        ≡ mean.refers Access.Write (option_map (λ t. meaning t.value) to) region }
{
    let Some(to) = to else {
        return None;
    };
    let Some(region) = region else {
        return None;
    };
    Some(Ty::Write { to, region })
}
