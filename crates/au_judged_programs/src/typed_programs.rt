//! The types of a checked program are as the memory of its runs asks.

ghost use Rattle.au_judged_programs.specs.Typed.{CheckedBirthsAreShipped, CheckedTypesAreTyped};

/// In a checked program what has births is shipped, and types are as the memory of a run asks.
pub fn checked_programs_are_typed()
    ensures births { CheckedBirthsAreShipped }
    ensures types { CheckedTypesAreTyped }
{}
