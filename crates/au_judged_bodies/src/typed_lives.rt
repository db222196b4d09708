//! The notes of a body that is good by the rules of typing say of each variable what it asks of its life.

ghost use Rattle.au_meaning.specs.Views.{Function};
ghost use Rattle.au_typing.specs.Notes.{Note};
ghost use Rattle.au_judged_bodies.specs.Said.{SortsAreSaid};

/// The notes of a good body say of each mention of a variable whether the variable is Free.
pub fn sorts_are_said<I>()
    ensures { (f : Function I Note (Unit {0})) → SortsAreSaid f }
{}
