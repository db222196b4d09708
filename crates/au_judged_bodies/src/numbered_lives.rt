//! The good lives of variables in the order of the text are those of names by the numbers of their
//! declarations.

ghost use Rattle.std.specs.Prelude.{List};
ghost use Rattle.au_meaning.specs.Views.{Function};
ghost use Rattle.au_program_lives.specs.Scopes.{TypeScope};
ghost use Rattle.au_syntax.specs.Plain.{Bytes};
ghost use Rattle.au_syntax.specs.Types.{Labelled};
ghost use Rattle.au_judged_bodies.specs.Sorts.{LivesAreNumbered};

/// Where variables in the order of the text have good lives, each name that is declared has one, by its
/// number.
pub fn lives_are_numbered<I, T, C>()
    ensures { (f : Function I T C) (parameters : List (Labelled Bytes)) (sc : TypeScope)
        → LivesAreNumbered f parameters sc }
{}
