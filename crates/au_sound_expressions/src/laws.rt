//! The law of expressions, as the contract of a call that does nothing.

ghost use Rattle.std.specs.Prelude.{ℕ, List, Option};
ghost use Rattle.au_type_texts.specs.Types.{ClosedType};
ghost use Rattle.au_memory.specs.Loans.{Types};
ghost use Rattle.au_meaning.specs.Ticks.{Action};
ghost use Rattle.au_meaning.specs.Views.{View};
ghost use Rattle.au_meaning.specs.Worlds.{Value};
ghost use Rattle.au_running_judgements.specs.Held.{Permits};
ghost use Rattle.au_running_judgements.specs.Known.{Callables};
ghost use Rattle.au_sound_expressions.specs.Laws.{ExpressionsAreSafe};

/// Whole expressions are safe where actions and calls are.
pub fn expressions_are_safe<I, T, C, K, V, W>()
    ensures { (types : Types) (owner : ClosedType → Option (List ℕ)) (permits : Permits V W)
        (see : View I T C) (known : Callables I K)
        (invoke : I → List Value → Action Value) → ExpressionsAreSafe types owner permits see known invoke }
{}
