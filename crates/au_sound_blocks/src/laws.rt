//! The law of statements, as the contract of a call that does nothing.

ghost use Rattle.std.specs.Prelude.{ℕ, List, Option};
ghost use Rattle.au_type_texts.specs.Types.{ClosedType};
ghost use Rattle.au_memory.specs.Loans.{Types};
ghost use Rattle.au_meaning.specs.Ticks.{Action};
ghost use Rattle.au_meaning.specs.Views.{View};
ghost use Rattle.au_meaning.specs.Worlds.{Value};
ghost use Rattle.au_sound_expressions.specs.Held.{Permits};
ghost use Rattle.au_sound_expressions.specs.Known.{Callables};
ghost use Rattle.au_sound_blocks.specs.Laws.{BodiesAreSafe};

/// Bodies that return on each way are safe where actions and calls are, and names hold what they may wherever
/// their run is cut off.
pub fn bodies_are_safe<I, T, C, K, V, W>()
    ensures { (types : Types) (owner : ClosedType → Option (List ℕ)) (permits : Permits V W)
        (see : View I T C) (known : Callables I K)
        (invoke : I → List Value → Action Value) → BodiesAreSafe types owner permits see known invoke }
{}
