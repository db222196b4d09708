//! What is known of an accepted program by rules that speak of its modules and their notes alone.

ghost use Rattle.au_judged_programs.specs.CheckedChecked.{CheckedDefinitionsFit};

/// In a checked program the definitions of declared types have the type parameters and the universes of
/// their rows, and are well made.
pub fn checked_programs_fit()
    ensures { CheckedDefinitionsFit }
{}
