//! Constants of checked programs stand where bodies run.

ghost use Rattle.au_judged_programs.specs.StandingConstantsStanding.{ConstantsOfProgramsStand};

/// In a checked program the constants that are seen in a body have plain values of their types.
pub fn constants_stand()
    ensures { ConstantsOfProgramsStand }
{}
