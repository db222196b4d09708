//! Calls of methods of classes, where they run.

ghost use Rattle.std.specs.Prelude.{List};
ghost use Rattle.au_modules.specs.Programs.{ModuleParts};
ghost use Rattle.au_judged_bodies.specs.Trees.{NotedParts};
ghost use Rattle.au_judged_programs.specs.SeenMethods.{MethodsOfProgramsAreSeen};

/// In the bodies of a checked program calls of methods are seen, wherever they run.
pub fn methods_are_seen()
    ensures { (program : List ModuleParts) (noted : List NotedParts)
        → MethodsOfProgramsAreSeen program noted }
{}
