//! Laws of the definitions, each as the contract of a call that does nothing.

ghost use Rattle.au_lowered.specs.FollowLaws.{CutsLieBetween, EndingsMeet, ExpressionsRun, RunsFollow};
ghost use Rattle.au_lowered.specs.HomeLists.{HomesAreFound, HomesAreSame};
ghost use Rattle.au_lowered.specs.Witness.{SomeProgramIsGood};

/// The code of an expression does what the expression means.
pub fn expressions_run<T, C>()
    ensures { ExpressionsRun T C }
{}

/// A run of the code of a program does what the program means, for any number of ticks.
pub fn runs_follow<T, C>()
    ensures { RunsFollow T C }
{}

/// A run of the code that is cut off lies between what the program means for an eighth
/// as many ticks and for as many.
pub fn cuts_lie_between<T, C>()
    ensures { CutsLieBetween T C }
{}

/// Where a run of the code has ended, so has one of the meaning with as many ticks, and they agree.
pub fn endings_meet<T, C>()
    ensures { EndingsMeet T C }
{}

/// Where functions that share a number of a declaration have the same slots, one slot for each number is that
/// of all declarations of a program.
pub fn homes_are_found<I, T, C>()
    ensures { HomesAreFound I T C }
{}

/// Where what is taken apart has fields of the same names, a block has the same slots.
pub fn homes_are_same<T, C>()
    ensures { HomesAreSame T C }
{}

/// There is a program of which the other laws speak, and it exits.
pub fn some_program_is_good()
    ensures { SomeProgramIsGood }
{}
