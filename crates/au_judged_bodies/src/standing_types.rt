//! Types of a function where it runs.

ghost use Rattle.au_judged_bodies.specs.StandingTypesStanding.{FieldsLast, FreeTypesRun, KnownTypesClose};
ghost use Rattle.au_judged_bodies.specs.StandingTypesStanding.{ReadersAreFree};
ghost use Rattle.au_judged_bodies.specs.StandingTypesStanding.{RegionsOpen};

/// What is Free stays so, a region may be opened, types close, and fields have no `~` of their own.
pub fn types_stand()
    ensures free { FreeTypesRun }
    ensures readers { ReadersAreFree }
    ensures regions { RegionsOpen }
    ensures closing { KnownTypesClose }
    ensures fields { FieldsLast }
{}
