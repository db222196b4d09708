//! Bodies that are good by the rules of typing, of lives and of names have the lives that a run asks for.

ghost use Rattle.au_meaning.specs.Views.{Function};
ghost use Rattle.au_typing.specs.Notes.{Note};
ghost use Rattle.au_judged_bodies.specs.LivedBodiesBodies.{BodiesAreAhead};

/// All names of a good body get through what lies ahead of them.
pub fn bodies_are_ahead<I>()
    ensures { (f : Function I Note (Unit {0})) → BodiesAreAhead f }
{}
