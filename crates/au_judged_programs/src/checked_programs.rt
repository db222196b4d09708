//! What checked programs are, as the laws on running types ask it.

ghost use Rattle.au_judged_programs.specs.Fits.{AcceptedAreChecked, CheckedDeclarationsFit};
ghost use Rattle.au_judged_programs.specs.Fits.{CheckedDefinitionsAreApart};

/// Accepted programs are checked, and in checked ones declarations fit, and names of cases and fields are
/// apart.
pub fn checked_programs_are_good()
    ensures accepted { AcceptedAreChecked }
    ensures declarations { CheckedDeclarationsFit }
    ensures apart { CheckedDefinitionsAreApart }
{}
