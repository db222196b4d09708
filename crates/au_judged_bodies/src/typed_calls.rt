//! The ways in which the functions of a program are called, and calls of functions as the meaning sees them.

ghost use Rattle.std.specs.Prelude.{ℕ, Bool, List, Option};
ghost use Rattle.au_syntax.specs.Plain.{Bytes};
ghost use Rattle.au_types.specs.declared.parameters.Parameter.{Parameter};
ghost use Rattle.au_matching.specs.Bindings.{Bindings};
ghost use Rattle.au_type_texts.specs.Given.{Given};
ghost use Rattle.au_type_texts.specs.Types.{ClosedType};
ghost use Rattle.au_memory.specs.Loans.{Types};
ghost use Rattle.au_modules.specs.Programs.{ModuleParts};
ghost use Rattle.au_typing.specs.Trees.{NotedParts};
ghost use Rattle.au_judged_bodies.specs.Functions.{BodyRuns, FunctionsAreSeen};

/// A call of a function that isn't shipped is seen to call it in one of its ways.
pub fn functions_are_seen()
    ensures { (types : Types) (owner : ClosedType → Option (List ℕ)) (program : List ModuleParts)
        (trees : List NotedParts) (place : ℕ) (params : List Parameter) (regions : List Bytes) (given : Given)
        (s : Bindings) (z : ℕ) (active : ℕ → Bool)
        → BodyRuns program params regions given s z active
        → FunctionsAreSeen types owner program trees place params regions given s z active }
{}
