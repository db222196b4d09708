//! Good expressions run, in each frame that fits their scope.

ghost use Rattle.std.specs.Prelude.{ℕ, Bool, List, Option};
ghost use Rattle.au_types.specs.Types.{Meaning};
ghost use Rattle.au_matching.specs.Bindings.{Bindings};
ghost use Rattle.au_type_texts.specs.Given.{Given};
ghost use Rattle.au_type_texts.specs.Types.{ClosedType};
ghost use Rattle.au_memory.specs.Loans.{Types};
ghost use Rattle.au_typing.specs.Notes.{Note};
ghost use Rattle.au_typing.specs.Scopes.{Scope};
ghost use Rattle.au_meaning.specs.Names as meaning;
ghost use Rattle.au_meaning.specs.Views.{View};
ghost use Rattle.au_running_lives.specs.Held.{IsPermitted, Permits};
ghost use Rattle.au_running_lives.specs.Known.{Callables};
ghost use Rattle.au_judged_bodies.specs.TypedRunsLaws.{ExpressionsRun};

/// A good expression runs in each frame that fits its scope, where calls run and the arguments of its calls
/// are of types that may be handed on.
pub fn expressions_run<I, K, U, H>()
    ensures { (types : Types) (owner : ClosedType → Option (List ℕ)) (see : View I Note (Unit {0}))
        (known : Callables I K) (handed : Permits U H) (from : U) (names : ℕ → Meaning) (active : ℕ → Bool)
        (sc : Scope) (scope : meaning.Scope) (s : Bindings) (given : Given) (z : ℕ)
        → ExpressionsRun types owner see known (IsPermitted handed from) names active sc scope s given z }
{}
