//! Good blocks run, in each frame that fits their scope.

ghost use Rattle.std.specs.Prelude.{ℕ, List, Option};
ghost use Rattle.au_types.specs.declared.headings.Head.{Head};
ghost use Rattle.au_types.specs.declared.parameters.Parameter.{Parameter};
ghost use Rattle.au_types.specs.declared.types.DeclAt.{DeclAt};
ghost use Rattle.au_type_texts.specs.Given.{Given};
ghost use Rattle.au_type_texts.specs.Types.{ClosedType};
ghost use Rattle.au_memory.specs.Loans.{Types};
ghost use Rattle.au_typing.specs.Notes.{Note};
ghost use Rattle.au_meaning.specs.Views.{View};
ghost use Rattle.au_running_lives.specs.Held.{IsPermitted, Permits};
ghost use Rattle.au_running_lives.specs.Known.{Callables};
ghost use Rattle.au_judged_bodies.specs.StandingTypesStanding.{StandsFor};
ghost use Rattle.au_judged_bodies.specs.TypedBlocksLaws.{BlocksRun};

/// A good block runs in each frame that fits its scope, and its names hold what is permitted.
pub fn blocks_run<I, K, V, W, U, H>()
    ensures { (types : Types) (owner : ClosedType → Option (List ℕ)) (see : View I Note (Unit {0}))
        (known : Callables I K) (handed : Permits U H) (from : U) (heads : List (DeclAt × Head))
        (params : List Parameter) (given : Given)
        (permits : Permits V W) (key : V)
        → BlocksRun types owner see known (IsPermitted handed from) given (StandsFor heads params given)
        permits key }
{}
