//! Laws of the definitions, each as the contract of a call that does nothing.

ghost use Rattle.au_lowered.specs.StepLaws.{RunsJoin};

/// A run that leads to a place, and one that leads on from there, are one run.
pub fn runs_join()
    ensures { RunsJoin }
{}
