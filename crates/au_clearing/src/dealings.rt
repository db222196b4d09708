//! How a part of a body deals with a variable, on all its paths together.

ghost use Rattle.std.specs.Prelude.{◌≡◌, Bool, IsTrue, false, if◌then◌else◌};
ghost use Rattle.au_clearing.specs.declared.touches.Touch.TheVariants.{Untouched};
ghost use Rattle.au_clearing.specs.Dealings as spec;
ghost use Rattle.au_clearing.specs.Dealings.{dealing, by_type, sum};

use crate::touches::{Touch, Touches, behind_spent, is_consumed, kept, lent, worse};
use au_syntax::Access;

/// How a part of a body deals with a variable that it finds alive, on all its paths together.
#[derive(Clone, Copy, Debug)]
pub struct Dealing {
    /// What its steps do at most.
    pub touch: Touch,
    /// Whether a path may go on with the variable alive.
    pub lives: bool,
    /// Whether a path may go on with the variable consumed.
    pub spends: bool,
    /// How many returns no path reaches with the variable alive, as far as can be counted.
    pub spared: u64,
}

/// How a part deals with a variable, where the variable's type isn't Free, and where it is.
#[derive(Clone, Copy, Debug)]
pub struct Dealings {
    /// Where it isn't.
    pub owned: Dealing,
    /// Where it is.
    pub free: Dealing,
}

/// What is known of a variable.
#[derive(Clone, Copy, Debug)]
pub struct Life {
    /// How its scope deals with it.
    pub dealings: Dealings,
    /// How many returns its scope has, as far as can be counted.
    pub returns: u64,
}

/// No step.
pub(crate) fn nothing() -> Dealing
    ensures { result ≡ spec.nothing }
{
    Dealing {
        touch: Touch::Untouched,
        lives: true,
        spends: false,
        spared: 0,
    }
}

/// No path.
pub(crate) fn never() -> Dealing
    ensures { result ≡ spec.never }
{
    Dealing {
        touch: Touch::Untouched,
        lives: false,
        spends: false,
        spared: 0,
    }
}

/// Whether a part touches no variable, and spends and spares nothing.
fn is_bare(one: Dealing) -> bool
    ensures { IsTrue result → one ≡ dealing Untouched one.lives false 0 }
{
    !one.spends && one.spared == 0 && matches!(one.touch, Touch::Untouched)
}

/// Whether it is no step.
pub(crate) fn is_nothing(one: Dealing) -> bool
    ensures { IsTrue result → one ≡ spec.nothing }
{
    one.lives && is_bare(one)
}

/// Whether it is no path.
pub(crate) fn is_never(one: Dealing) -> bool
    ensures { IsTrue result → one ≡ spec.never }
{
    !one.lives && is_bare(one)
}

/// One step.
pub(crate) fn once(touch: Touch) -> Dealing
    ensures { result ≡ spec.once touch }
{
    let spends = is_consumed(touch);
    Dealing {
        touch,
        lives: !spends,
        spends,
        spared: 0,
    }
}

/// Two numbers, as far as can be counted.
#[tactic(auto, using(crate::proofs::DealingLemmas::sum_none, crate::proofs::DealingLemmas::sum_some))]
pub(crate) fn sum(one: u64, other: u64) -> u64
    ensures { result ≡ sum one other }
{
    if one == 0 {
        other
    } else {
        one.saturating_add(other)
    }
}

/// How many returns of a part are spared behind another, which may leave the variable alive or not.
fn spared_behind(lives: bool, spared: u64, returns: u64) -> u64
    ensures { result ≡ (if lives then spared else returns) }
{
    if lives { spared } else { returns }
}

/// One part, and then another that has so many returns.
pub(crate) fn chain(returns: u64, one: Dealing, other: Dealing) -> Dealing
    ensures { result ≡ spec.chain returns one other }
{
    let spared = spared_behind(one.lives, other.spared, returns);
    Dealing {
        touch: worse(one.touch, behind_spent(one.spends, other.touch)),
        lives: one.lives && other.lives,
        spends: (one.spends && other.lives) || (one.lives && other.spends),
        spared: sum(one.spared, spared),
    }
}

/// One part or another.
pub(crate) fn fork(one: Dealing, other: Dealing) -> Dealing
    ensures { result ≡ spec.fork one other }
{
    Dealing {
        touch: worse(one.touch, other.touch),
        lives: one.lives || other.lives,
        spends: one.spends || other.spends,
        spared: sum(one.spared, other.spared),
    }
}

/// The turns of a loop.
pub(crate) fn turns(one: Dealing) -> Dealing
    ensures { result ≡ spec.turns one }
{
    Dealing {
        touch: kept(one.touch),
        lives: true,
        spends: false,
        spared: one.spared,
    }
}

/// A borrow statement on the variable round a part.
fn lend(access: Access, one: Dealing) -> Dealing
    ensures { result ≡ spec.lend access one }
{
    Dealing {
        touch: lent(access, one.touch),
        lives: one.lives,
        spends: one.spends,
        spared: one.spared,
    }
}

/// The same for a type that isn't Free and for one that is.
pub(crate) fn lend_both(access: Access, one: Dealings) -> Dealings
    ensures { (free : Bool) → by_type free result ≡ spec.lend access (by_type free one) }
{
    Dealings {
        owned: lend(access, one.owned),
        free: lend(access, one.free),
    }
}
