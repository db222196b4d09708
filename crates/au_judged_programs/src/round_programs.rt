//! What is known round the bodies of a checked program where they run.

ghost use Rattle.std.specs.Prelude.{ℕ, List, Option};
ghost use Rattle.au_judged_types.specs.Bounds.{Bounded};
ghost use Rattle.au_type_texts.specs.Given.{Given};
ghost use Rattle.au_type_texts.specs.Types.{ClosedType};
ghost use Rattle.au_modules.specs.Programs.{ModuleParts};
ghost use Rattle.au_judged_bodies.specs.Instances.{Instance};
ghost use Rattle.au_judged_bodies.specs.Trees.{NotedParts};
ghost use Rattle.au_judged_bodies.specs.Held.{IsPermitted, Permits};
ghost use Rattle.au_judged_bodies.specs.Known.{Callables};
ghost use Rattle.au_judged_programs.specs.RoundProgramsBodies.{RoundsFit};

/// What is known round a body of a checked program fits, where constants stand and calls run.
pub fn rounds_fit<K, U, H>()
    ensures { (program : List ModuleParts) (noted : List NotedParts) (place : ℕ) (generics : List Bounded)
        (given : Given) (owner : ClosedType → Option (List ℕ)) (known : Callables Instance K)
        (handed : Permits U H) (from : U)
        → RoundsFit program noted place generics given owner known (IsPermitted handed from) }
{}
