//! The bodies of functions that are called.

ghost use Rattle.std.specs.Prelude.{List};
ghost use Rattle.au_modules.specs.Programs.{ModuleParts};
ghost use Rattle.au_judged_bodies.specs.Trees.{NotedParts};
ghost use Rattle.au_judged_programs.specs.CalledBodiesBodies.{FunctionsAreThere};

/// The body of each function that is called is there, as it is declared.
pub fn functions_are_there()
    ensures { (program : List ModuleParts) (trees : List NotedParts) → FunctionsAreThere program trees }
{}
