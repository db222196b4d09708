//! Calls of shipped functions in the bodies of a checked program.

ghost use Rattle.std.specs.Prelude.{List};
ghost use Rattle.au_modules.specs.Programs.{ModuleParts};
ghost use Rattle.au_judged_bodies.specs.Trees.{NotedParts};
ghost use Rattle.au_judged_programs.specs.ShippedCalls.{ShippedOfProgramsAreSeen};

/// In the bodies of a checked program calls of shipped functions are seen, wherever they run.
pub fn shipped_calls_are_seen()
    ensures { (program : List ModuleParts) (noted : List NotedParts)
        → ShippedOfProgramsAreSeen program noted }
{}
