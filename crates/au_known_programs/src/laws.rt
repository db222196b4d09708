//! Laws of the types in the bodies of programs, each as the contract of a call that does nothing.

ghost use Rattle.au_known_programs.specs.Programs.{BodiesAreKnown, OutsidesAreKnown};

/// What each part of a module sees outside of functions is known.
pub fn outsides_are_known()
    ensures { OutsidesAreKnown }
{}

/// What is in scope at the start of a body is known.
pub fn bodies_are_known()
    ensures { BodiesAreKnown }
{}
