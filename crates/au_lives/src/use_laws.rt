//! What the table of steps says of paths.

ghost use Rattle.std.specs.Prelude.{Bool};
ghost use Rattle.au_lives.specs.Lives.{Hold, verdict};
ghost use Rattle.au_lives.specs.Mentions.{Counts};
ghost use Rattle.au_lives.specs.Judging.{state_of, Leads};
ghost use Rattle.au_lives.specs.Steps.{verdict_on};

/// A step of a path does to the fate of a variable what the table says of the state in which it finds the
/// variable.
pub fn steps_are_judged()
    ensures { (h : Hold) (k : Counts) (spent : Bool)
        → Leads (verdict_on (state_of h spent) k) spent (verdict h k spent) }
{}
