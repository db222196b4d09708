//! Where each variable of a function has a good life, all names of its frame get through what lies ahead of
//! them.

ghost use Rattle.std.specs.Prelude.{ℕ};
ghost use Rattle.au_lives.specs.declared.lives.Sort.{Sort};
ghost use Rattle.au_meaning.specs.Views.{Function};
ghost use Rattle.au_judged_bodies.specs.Lived.{LivesAreAhead};

/// Where the variables of a function that returns have good lives, all its names get through what lies ahead
/// of them.
pub fn lives_are_ahead<I, T, C>()
    ensures { (sorts : ℕ → Sort) (f : Function I T C) → LivesAreAhead sorts f }
{}
