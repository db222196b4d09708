//! The functions that the meaning of a checked program knows are good by the rules of typing, of lives and
//! of names.

ghost use Rattle.au_judged_programs.specs.Known.{CheckedBodiesAreGood};

/// Each function that the meaning of a checked program knows is good.
pub fn checked_bodies_are_good()
    ensures { CheckedBodiesAreGood }
{}
