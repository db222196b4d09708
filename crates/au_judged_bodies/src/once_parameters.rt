//! The names of the parameters of functions and of methods are apart.

ghost use Rattle.au_judged_bodies.specs.OnceParametersApart.{ParametersAreOnce};

/// No two parameters of a function or a method have one name, where no name is declared again.
pub fn parameters_are_once()
    ensures { ParametersAreOnce }
{}
