//! Laws of what is born while an accepted program runs, and of the report of what its functions make.

ghost use Rattle.au_caps_laws.specs.Reported.{AcceptedBirthsAreMade, AcceptedRunsAreReported};

/// In an accepted program, from the beginning to the end of a call, whatever is born of an opaque type that
/// isn't Free has its head among what the function or method that is called may make.
pub fn births_are_made()
    ensures { AcceptedBirthsAreMade }
{}

/// In a run of an accepted program whatever is born of such a type but the root has its head in the entry's
/// row of the report.
pub fn births_are_reported()
    ensures { AcceptedRunsAreReported }
{}
