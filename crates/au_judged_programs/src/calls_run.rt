//! Calls in the bodies of a program, where they run.

ghost use Rattle.std.specs.Prelude.{ℕ, List};
ghost use Rattle.au_judged_types.specs.Bounds.{Bounded};
ghost use Rattle.au_type_texts.specs.Given.{Given};
ghost use Rattle.au_modules.specs.Programs.{ModuleParts};
ghost use Rattle.au_judged_bodies.specs.Trees.{NotedParts};
ghost use Rattle.au_judged_bodies.specs.Held.{IsPermitted, Permits};
ghost use Rattle.au_judged_bodies.specs.Keys.{Key};
ghost use Rattle.au_judged_bodies.specs.Known.{Calls};
ghost use Rattle.au_judged_programs.specs.Programs.{CallsOfBodiesRun};

/// Good calls in a body run in each frame that fits, where those of shipped functions and of methods are
/// seen, if their arguments are of types that may be handed on and calls may lead there.
pub fn calls_run<E, U, H>()
    ensures { (program : List ModuleParts) (trees : List NotedParts) (place : ℕ) (generics : List Bounded)
        (given : Given) (calls : Calls (Key program trees) E) (key : Key program trees) (handed : Permits U H)
        (from : U) → CallsOfBodiesRun program trees place generics given calls key (IsPermitted handed from) }
{}
