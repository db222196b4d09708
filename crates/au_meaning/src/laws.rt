//! Laws of the definitions, each as the contract of a call that does nothing.

ghost use Rattle.au_meaning.specs.Laws.{EndingsStay, MoreTicksTellMore, TicksAreSpent};
ghost use Rattle.au_meaning.specs.Shown.{ProgramsAreShown};
ghost use Rattle.au_meaning.specs.ShownReferences.{ReferencesAreShown};

/// Of small programs that is told which was written by hand.
pub fn programs_are_shown()
    ensures { ProgramsAreShown }
{}

/// The same of small programs with references.
pub fn references_are_shown()
    ensures { ReferencesAreShown }
{}

/// A program that has more ticks goes on from what it did with fewer, and does the same where it had ended.
pub fn more_ticks_tell_more<I, T, C>()
    ensures more { MoreTicksTellMore I T C }
    ensures stays { EndingsStay I T C }
{}

/// No call leaves more ticks than it was given.
pub fn ticks_are_spent<I, T, C>()
    ensures { TicksAreSpent I T C }
{}
