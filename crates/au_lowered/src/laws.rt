//! Laws of the definitions, each as the contract of a call that does nothing.

ghost use Rattle.au_lowered.specs.Forms.{FormsAreLowered, ReferencesAreLowered};
ghost use Rattle.au_lowered.specs.Laws.{BlocksFit, BodiesKeepLabels, ExpressionsFit};
ghost use Rattle.au_lowered.specs.Shown.{SamplesAreLowered};
ghost use Rattle.au_lowered.specs.Standing.{PartsStand};

/// The sample programs that show the meaning have the code that was written by hand, and it does what they
/// mean.
pub fn samples_are_lowered()
    ensures { SamplesAreLowered }
{}

/// So have programs with the forms that these lack.
pub fn forms_are_lowered()
    ensures { FormsAreLowered }
{}

/// So has a program with references.
pub fn references_are_lowered()
    ensures { ReferencesAreLowered }
{}

/// Code has as many instructions at each place of a function, and its labels lead to no place behind it.
pub fn code_fits<T, C>()
    ensures expressions { ExpressionsFit T C }
    ensures blocks { BlocksFit T C }
{}

/// The labels of a body that returns on every path are places of its instructions.
pub fn bodies_keep_labels<T, C>()
    ensures { BodiesKeepLabels T C }
{}

/// Where code stands in a function, its parts stand in a row, and its labels are the places between them.
pub fn parts_stand()
    ensures { PartsStand }
{}
