//! The law of counts, as the contract of a call that does nothing.

ghost use Rattle.std.specs.Prelude.{Bool};
ghost use Rattle.au_meaning.specs.Views.{View};
ghost use Rattle.au_syntax.specs.Plain.{Bytes};
ghost use Rattle.au_running_lives.specs.Counted.{CountsAgree};

/// A variable is met in an expression as often by its number as by its name.
pub fn counts_agree<I, T, C>()
    ensures { (see : View I T C) (x : Bytes) (free : Bool) → CountsAgree see x free }
{}
