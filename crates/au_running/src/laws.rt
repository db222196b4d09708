//! What holds of runs of lowered code, and of the names in closed programs, as contracts of calls that do
//! nothing.

ghost use Rattle.au_running.specs.Follows.{LoweredProgramsFollow, LoweredProgramsKeepStep};
ghost use Rattle.au_running.specs.Fronts.{CutRunsWriteFronts, RunsWriteFronts, StuckRunsAreMeant};
ghost use Rattle.au_running.specs.Fronts.{WaitingRunsShow};
ghost use Rattle.au_running.specs.Once.{ClosedFieldsAreOnce, ClosedParametersAreOnce};
ghost use Rattle.au_running.specs.Runs.{LoweredProgramsRun};
ghost use Rattle.au_running.specs.Tells.{LoweredProgramsTell};

/// The parameters of each function that a derived program with good declarations closes to have names of
/// their own.
pub fn closed_parameters_are_once()
    ensures { ClosedParametersAreOnce }
{}

/// The fields of each case of a closed type of a program with good declarations have names of their own.
pub fn closed_fields_are_once()
    ensures { ClosedFieldsAreOnce }
{}

/// Every run of the code that a program is lowered to shows what the program means from its entry.
pub fn lowered_programs_run()
    ensures { LoweredProgramsRun }
{}

/// The events of every run of that code are those of what the program means from its entry.
pub fn lowered_programs_tell()
    ensures { LoweredProgramsTell }
{}

/// A run of that code does what the program means from its entry for any number of ticks for which that isn't
/// stuck, with its events, after as many steps as ticks or more and at most eight times as many.
pub fn lowered_programs_follow()
    ensures { LoweredProgramsFollow }
{}

/// A run of that code ends in step with what the program means from its entry, where that is never stuck:
/// after as many steps as ticks or more, and at most eight times as many.
pub fn lowered_programs_keep_step()
    ensures { LoweredProgramsKeepStep }
{}

/// Whatever is answered of a run, and where memory ran out, a front of what the program means within as many
/// ticks as the run may make steps was written, unless that is stuck.
pub fn runs_write_fronts()
    ensures came { RunsWriteFronts }
    ensures cut { CutRunsWriteFronts }
{}

/// Where a byte couldn't be read, all that a run had written is what the program means so far, whatever bytes
/// follow, unless that is stuck.
pub fn waiting_runs_show()
    ensures { WaitingRunsShow }
{}

/// A run of code is stuck only where what the program means is stuck within as many ticks as the run may
/// make steps.
pub fn stuck_runs_are_meant()
    ensures { StuckRunsAreMeant }
{}
