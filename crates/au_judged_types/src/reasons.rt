//! Why a written type isn't well formed.

ghost use Rattle.std.specs.Prelude.{◌≡◌, IfOk};
ghost use Rattle.au_judged_types.specs.Reasons.{unknown};
ghost use Rattle.au_judged_types.specs.Views.{reason};

use au_base::{Memory, Name};
use au_types::Ty;
use std::alloc::Global;

/// Why a written type isn't well formed.
#[derive(Drop)]
pub enum Reason {
    /// A name that means nothing where a type is wanted, or is that of a class or a region there; where a
    /// region is wanted, a name that means nothing at all.
    Unknown(Name),
    /// A number of arguments that doesn't fit, with the number that is wanted.
    Arguments(usize),
    /// Something else than a region where a region is wanted.
    RegionWanted,
    /// A type argument that isn't Free where `Free` is wanted.
    NotFree(Ty),
    /// A type argument that isn't Linear where `Linear` is wanted.
    LinearWanted,
}

/// What comes of judging: what is meant, or the reason why it isn't well formed.
#[derive(Drop)]
pub enum Judged<T> {
    /// What is meant.
    Means(T),
    /// Why it isn't well formed.
    Fails(Reason),
}

/// The reason that a name means nothing where it stands.
pub(crate) fn unknown(alloc: Global, name: &Name) -> Result<Reason, Memory>
    ensures { IfOk result (λ why. reason why ≡ unknown name.now) }
{
    Ok(Reason::Unknown(name.copy(alloc)?))
}
