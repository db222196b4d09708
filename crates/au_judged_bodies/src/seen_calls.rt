//! What good calls call, as the meaning sees it where they run.

ghost use Rattle.std.specs.Prelude.{ℕ, Bool, List, Option};
ghost use Rattle.au_types.specs.declared.headings.Head.{Head};
ghost use Rattle.au_types.specs.declared.parameters.Parameter.{Parameter};
ghost use Rattle.au_types.specs.declared.types.DeclAt.{DeclAt};
ghost use Rattle.au_types.specs.Types.{Meaning};
ghost use Rattle.au_matching.specs.Bindings.{Bindings};
ghost use Rattle.au_type_texts.specs.Given.{Given};
ghost use Rattle.au_type_texts.specs.Types.{ClosedType};
ghost use Rattle.au_memory.specs.Loans.{Types};
ghost use Rattle.au_typing.specs.Notes.{Note};
ghost use Rattle.au_typing.specs.Scopes.{Scope};
ghost use Rattle.au_meaning.specs.Names as meaning;
ghost use Rattle.au_meaning.specs.Views.{View};
ghost use Rattle.au_running_lives.specs.Held.{IsPermitted, Permits};
ghost use Rattle.au_running_lives.specs.Known.{Callables, Calls};
ghost use Rattle.au_judged_bodies.specs.StandingTypesStanding.{StandsFor};
ghost use Rattle.au_judged_bodies.specs.Sights.{SeenCallsRun};

/// Good calls run where their arguments do, in the order of parameters and by labels, if the meaning sees
/// what they call and calls may lead there.
pub fn seen_calls_run<I, K, E, U, H>()
    ensures { (types : Types) (owner : ClosedType → Option (List ℕ)) (see : View I Note (Unit {0}))
        (known : Callables I K) (active : ℕ → Bool) (s : Bindings) (z : ℕ) (names : ℕ → Meaning) (sc : Scope)
        (scope : meaning.Scope) (given : Given) (calls : Calls K E) (key : K) (handed : Permits U H)
        (from : U)
        (heads : List (DeclAt × Head)) (params : List Parameter)
        → SeenCallsRun types owner see known active s z names sc scope given calls key
        (IsPermitted handed from)
        (StandsFor heads params given) }
{}
