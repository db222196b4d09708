//! What holds of the functions that a program closes to, as contracts of calls that do nothing.

ghost use Rattle.au_running.specs.Formed.{OtherNotesKeepForms, ClosedFunctionsAreFormed};
ghost use Rattle.au_running.specs.Followed.{DerivedProgramsFollow, FollowedRunsFollow, GuardedAreGood};
ghost use Rattle.au_running.specs.Followed.{NoClosedViewIsGood};

/// Other notes in a block change nothing of its form.
pub fn other_notes_keep_forms<T, C, U, D>()
    ensures { OtherNotesKeepForms T C U D }
{}

/// Each function that a derived program closes to returns on every path, with nothing behind a return, and
/// binds each field once.
pub fn closed_functions_are_formed()
    ensures { ClosedFunctionsAreFormed }
{}

/// Functions that code can follow are a good program, with views that know no more than that.
pub fn guarded_are_good<T, C>()
    ensures { GuardedAreGood T C }
{}

/// A closed view that isn't guarded knows more than code can follow.
pub fn no_closed_view_is_good()
    ensures { NoClosedViewIsGood }
{}

/// The code of functions that it can follow does what they mean.
pub fn followed_runs_follow<T, C>()
    ensures { FollowedRunsFollow T C }
{}

/// The code that a derived program is lowered to does what the noted program means.
pub fn derived_programs_follow()
    ensures { DerivedProgramsFollow }
{}
