//! The names that a function declares are new in their scopes, since no name is declared again in its text.

ghost use Rattle.au_meaning.specs.Views.{Function};
ghost use Rattle.au_judged_bodies.specs.New.{NamesAreNew};

/// Where no name of a function is declared again in its text, each name that it declares is new in its scope.
pub fn names_are_new<I, T, C>()
    ensures { (f : Function I T C) → NamesAreNew f }
{}
