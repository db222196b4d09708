//! Whether a step may do what it does to a variable.

ghost use Rattle.std.specs.Prelude.{◌≡◌};
ghost use Rattle.au_lives.specs.Mentions.{Counts};
ghost use Rattle.au_lives.specs.Tallies.{tally_of};
ghost use Rattle.au_lives.specs.Steps.{row, verdict_on};

use crate::tallies::{Few, Tally};

/// How a step finds a variable.
#[derive(Clone, Copy, Debug, PartialEq, Eq)]
pub enum State {
    /// It isn't consumed, and no borrow statement on it is open.
    Live,
    /// It isn't consumed, and a borrow statement on it is open that reads.
    Read,
    /// It is consumed, or a borrow statement on it is open that writes.
    Shut,
}

/// What a step does to a variable.
#[derive(Clone, Copy, Debug, PartialEq, Eq)]
pub enum Verdict {
    /// The variable isn't consumed.
    Stay,
    /// The variable is consumed.
    Spend,
    /// What may not be done.
    Bad,
}

/// What a step that mentions a variable so often does to it in this state.
pub fn step(s: State, c: Tally) -> Verdict
    ensures { (k : Counts) → tally_of k ≡ c → result ≡ verdict_on s k }
{
    row(s, c)
}

/// The table of all states and tallies.
fn row(s: State, c: Tally) -> Verdict
    ensures { result ≡ row s c }
{
    match (s, c.consumed, c.written, c.read, c.looked) {
        (State::Live, Few::Zero, Few::Zero, _, _) => Verdict::Stay,
        (State::Live, Few::Zero, Few::One, Few::Zero, Few::Zero) => Verdict::Stay,
        (State::Live, Few::One, Few::Zero, Few::Zero, Few::Zero) => Verdict::Spend,
        (State::Read, Few::Zero, Few::Zero, _, _) => Verdict::Stay,
        (State::Shut, Few::Zero, Few::Zero, Few::Zero, Few::Zero) => Verdict::Stay,
        _ => Verdict::Bad,
    }
}
