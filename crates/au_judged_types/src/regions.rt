//! Regions in written types.

ghost use Rattle.std.specs.Prelude.{◌≡◌, IfOk, Some};
ghost use Rattle.au_syntax.specs.Views.{written, written_all};
ghost use Rattle.au_types.specs.WrittenViews.{said};
ghost use Rattle.au_judged_types.specs.Judging.{region_named, region_with};
ghost use Rattle.au_judged_types.specs.Views.{region, region_in, region_named_in};

use crate::reasons::{Judged, Reason, unknown};
use au_base::{Memory, Name};
use au_syntax::TypeText;
use au_types::{Region, Scope, Sense, sense_of};
use std::alloc::Global;

/// The region that a name with this sense means, or why it means none.
fn sense_region(alloc: Global, name: &Name, sense: &Sense) -> Result<Judged<Region>, Memory>
    ensures { IfOk result (λ found. region found ≡ region_named name.now (Some (said name.now sense.now))) }
{
    match sense {
        Sense::Unit => Ok(Judged::Fails(Reason::RegionWanted)),
        Sense::Bool => Ok(Judged::Fails(Reason::RegionWanted)),
        Sense::Int(_) => Ok(Judged::Fails(Reason::RegionWanted)),
        Sense::Param => Ok(Judged::Fails(Reason::RegionWanted)),
        Sense::Span => Ok(Judged::Fails(Reason::RegionWanted)),
        Sense::Static => Ok(Judged::Means(Region::Static)),
        Sense::Region => Ok(Judged::Means(Region::Named(name.copy(alloc)?))),
        Sense::Declared(_, _) => Ok(Judged::Fails(Reason::RegionWanted)),
        Sense::Class(_) => Ok(Judged::Fails(Reason::RegionWanted)),
    }
}

/// The region that a name means in a scope, or why it means none: it means nothing, or it's the name of a
/// type or a class.
///
/// # Errors
///
/// Only for want of memory.
pub fn judge_region(alloc: Global, scope: &Scope, name: &Name) -> Result<Judged<Region>, Memory>
    ensures { IfOk result (λ found. region found ≡ region_named_in scope.now name.now) }
{
    match sense_of(scope, name) {
        Some(sense) => sense_region(alloc, name, &sense),
        None => Ok(Judged::Fails(unknown(alloc, name)?)),
    }
}

/// The region that a written type means, or why it means none: its name means none, or it's a region with
/// arguments or a reference.
#[tactic(auto, using(au_syntax::proofs::TypeLemmas::type_steps))]
pub(crate) fn written_region(
    alloc: Global,
    scope: &Scope,
    node: &TypeText,
) -> Result<Judged<Region>, Memory>
    ensures { IfOk result (λ found. region found ≡ region_in scope.now (written node.now)) }
{
    match node {
        TypeText::Named(name, args) => {
            let judged = judge_region(alloc, scope, &name.name)?;
            Ok(with_arguments(judged, args))
        }
        TypeText::Reference(_, _, _, _) => Ok(Judged::Fails(Reason::RegionWanted)),
    }
}

/// A region with arguments, of which it takes none.
#[tactic(auto, using(crate::proofs::JudgedLemmas::region_steps))]
fn with_arguments(judged: Judged<Region>, args: &Vec<TypeText>) -> Judged<Region>
    ensures { region result ≡ region_with (region judged) (written_all args.now.items) }
{
    if args.is_empty() {
        return judged;
    }
    match judged {
        Judged::Means(_) => Judged::Fails(Reason::Arguments(0)),
        Judged::Fails(why) => Judged::Fails(why),
    }
}
