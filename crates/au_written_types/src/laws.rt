//! Laws of what written types mean, each as the contract of a call that does nothing.

ghost use Rattle.au_written_types.specs.Written.{MeaningsAreWritten};

/// What a written type means has no `~`, and its names are in scope.
pub fn meanings_are_written()
    ensures { MeaningsAreWritten }
{}
