//! What a step does to a variable.

ghost use Rattle.std.specs.Prelude.{◌≡◌, true, false, if◌then◌else◌};
ghost use Rattle.au_lives.specs.Lives as lives;
ghost use Rattle.au_lives.specs.Lives.{going, broken, if_spent, if_live, verdict};
ghost use Rattle.au_lives.specs.declared.lives.LifeKind.TheVariants as kinds;
ghost use Rattle.au_lives.specs.Mentions.{Counts};
ghost use Rattle.au_lives.specs.Tallies.{tally_of};
ghost use Rattle.au_paths.specs.Standing.{hold_of, fate_of, stays, Does};

use crate::holds::Hold;
use au_lives::lives::{LifeKind, Sort};
use au_lives::{State, Tally, Verdict, step};

/// What the steps of a path have done so far.
#[derive(Clone, Copy)]
pub enum Fate {
    /// The life goes on: whether the variable is consumed.
    Going(bool),
    /// A step broke the life.
    Broken(LifeKind),
}

/// What a step does to a variable, by whether it finds the variable consumed.
#[derive(Clone, Copy)]
pub struct Effect {
    /// Where it isn't consumed.
    pub live: Fate,
    /// Where it is.
    pub spent: Fate,
}

/// Whether the type is Free.
pub fn is_free(sort: Sort) -> bool
    ensures { result ≡ lives.is_free sort }
{
    match sort {
        Sort::Free => true,
        Sort::WriteReference => false,
        Sort::Linear => false,
    }
}

/// A step that finds the variable consumed.
fn when_spent(tally: Tally) -> Fate
    ensures { (k : Counts) → tally_of k ≡ tally → fate_of result ≡ if_spent k }
{
    match step(State::Shut, tally) {
        Verdict::Stay => Fate::Going(true),
        Verdict::Spend => Fate::Broken(LifeKind::Again),
        Verdict::Bad => Fate::Broken(LifeKind::Again),
    }
}

/// Whether the verdict is that the variable stays as it is.
fn stays(verdict: Verdict) -> bool
    ensures { result ≡ stays verdict }
{
    match verdict {
        Verdict::Stay => true,
        Verdict::Spend => false,
        Verdict::Bad => false,
    }
}

/// Whether the open borrow statements allow a step.
fn is_allowed(hold: Hold, tally: Tally) -> bool
    ensures { (k : Counts) → tally_of k ≡ tally → result ≡ lives.is_allowed (hold_of hold) k }
{
    match hold {
        Hold::Unlent => true,
        Hold::ReadLent => stays(step(State::Read, tally)),
        Hold::WriteLent => stays(step(State::Shut, tally)),
        Hold::Hidden => true,
    }
}

/// A step that is ordinary.
fn if_allowed(hold: Hold, tally: Tally, spent: bool) -> Fate
    ensures { (k : Counts) → tally_of k ≡ tally
        → fate_of result
        ≡ (if lives.is_allowed (hold_of hold) k then going spent else broken kinds.Borrowed) }
{
    if is_allowed(hold, tally) {
        Fate::Going(spent)
    } else {
        Fate::Broken(LifeKind::Borrowed)
    }
}

/// A step that finds the variable alive.
fn when_live(hold: Hold, tally: Tally) -> Fate
    ensures { (k : Counts) → tally_of k ≡ tally → fate_of result ≡ if_live (hold_of hold) k }
{
    match step(State::Live, tally) {
        Verdict::Bad => Fate::Broken(LifeKind::Clash),
        Verdict::Stay => if_allowed(hold, tally, false),
        Verdict::Spend => if_allowed(hold, tally, true),
    }
}

/// What a step that mentions a variable so often does to it.
pub(crate) fn effect_of(hold: Hold, tally: Tally) -> Effect
    ensures { (k : Counts) → tally_of k ≡ tally → Does result (verdict (hold_of hold) k) }
{
    let live = when_live(hold, tally);
    let spent = when_spent(tally);
    Effect { live, spent }
}

/// What the end of a path does.
pub(crate) fn ending(sort: Sort) -> Effect
    ensures { Does result (lives.at_end sort) }
{
    match sort {
        Sort::Linear => {
            Effect {
                live: Fate::Broken(LifeKind::Unused),
                spent: Fate::Going(true),
            }
        }
        Sort::WriteReference => at_ease(),
        Sort::Free => at_ease(),
    }
}

/// What an end does that asks for nothing.
fn at_ease() -> Effect
    ensures live { fate_of result.live ≡ going false }
    ensures spent { fate_of result.spent ≡ going true }
{
    Effect {
        live: Fate::Going(false),
        spent: Fate::Going(true),
    }
}
