//! Calls of methods whose instances are shipped, where they run.

ghost use Rattle.std.specs.Prelude.{List};
ghost use Rattle.au_modules.specs.Programs.{ModuleParts};
ghost use Rattle.au_judged_bodies.specs.Trees.{NotedParts};
ghost use Rattle.au_judged_programs.specs.ShippedMethods.{ShippedMethodsAreSeen};

/// In the bodies of a checked program calls of methods are seen whose instances are shipped.
pub fn shipped_methods_are_seen()
    ensures { (program : List ModuleParts) (noted : List NotedParts) → ShippedMethodsAreSeen program noted }
{}
