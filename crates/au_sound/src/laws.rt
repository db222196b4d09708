//! The law of runs, as the contract of a call that does nothing.

ghost use Rattle.std.specs.Prelude.{ℕ, List, Option};
ghost use Rattle.au_type_texts.specs.Types.{ClosedType};
ghost use Rattle.au_memory.specs.Loans.{Types};
ghost use Rattle.au_meaning.specs.Views.{Function};
ghost use Rattle.au_safe_ships.specs.Sound.{AreTyped};
ghost use Rattle.au_sound_blocks.specs.Blocks.{AllRun};
ghost use Rattle.au_sound_blocks.specs.Held.{Permits};
ghost use Rattle.au_sound_blocks.specs.Known.{Callables, Calls};
ghost use Rattle.au_sound.specs.Runs.{CallsHold, RunsWell};

/// Where each function may be run at each key at which it is called, every run from an entry is seen well,
/// and names hold what they may wherever it is cut off; and so they do in each call.
pub fn judged_programs_run_safely<I, T, C, K, W, E>()
    ensures runs { (types : Types) (owner : ClosedType → Option (List ℕ)) → AreTyped types
        → (permits : Permits K W) (known : Callables I K) (calls : Calls K E)
        (functions : I → Option (Function I T C)) → RunsWell types owner permits known calls functions }
    ensures calls { (types : Types) (owner : ClosedType → Option (List ℕ)) → AreTyped types
        → (permits : Permits K W) (known : Callables I K) (calls : Calls K E)
        (functions : I → Option (Function I T C)) → AllRun types owner permits known calls functions
        → CallsHold types owner permits known functions }
{}
