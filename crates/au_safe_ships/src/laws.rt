//! Laws of calls, operations and names, each as the contract of a call that does nothing.

ghost use Rattle.std.specs.Prelude.{ℕ, List, Option};
ghost use Rattle.au_type_texts.specs.Types.{ClosedType};
ghost use Rattle.au_memory.specs.Forests.{Made};
ghost use Rattle.au_memory.specs.Loans.{Types};
ghost use Rattle.au_borrows.specs.Orders.{Act};
ghost use Rattle.au_running_judgements.specs.Frames.{Frame};
ghost use Rattle.au_meaning.specs.Worlds.{World};
ghost use Rattle.au_safe_ships.specs.Named.{EmptyNamesAreFree, NoNamedStatics, NoStatics, WritersLookWell};
ghost use Rattle.au_safe_ships.specs.Operated.{ComparesWell, ComputesWell, EquatesWell, NegatesWell};
ghost use Rattle.au_safe_ships.specs.Shipped.{ShipsWell};

/// Each shipped call is safe at the types at which it may be called.
pub fn shipped_calls_are_safe()
    ensures { (types : Types) (owner : ClosedType → Option (List ℕ)) (acts : List Act)
        (fs : List Frame) (sizes : List ℕ) (under : Made) (w : World) (ticks : ℕ)
        → ShipsWell types owner acts fs sizes under w ticks }
{}

/// Numbers and truth values under way are computed with, compared and negated.
pub fn operations_are_safe()
    ensures computed { (types : Types) (owner : ClosedType → Option (List ℕ)) (acts : List Act)
        (fs : List Frame) (sizes : List ℕ) (under : Made) (w : World) (ticks : ℕ)
        → ComputesWell types owner acts fs sizes under w ticks }
    ensures compared { (types : Types) (owner : ClosedType → Option (List ℕ)) (acts : List Act)
        (fs : List Frame) (sizes : List ℕ) (under : Made) (w : World) (ticks : ℕ)
        → ComparesWell types owner acts fs sizes under w ticks }
    ensures equated { (types : Types) (owner : ClosedType → Option (List ℕ)) (acts : List Act)
        (fs : List Frame) (sizes : List ℕ) (under : Made) (w : World) (ticks : ℕ)
        → EquatesWell types owner acts fs sizes under w ticks }
    ensures negated { (types : Types) (owner : ClosedType → Option (List ℕ)) (acts : List Act)
        (fs : List Frame) (sizes : List ℕ) (under : Made) (w : World) (ticks : ℕ)
        → NegatesWell types owner acts fs sizes under w ticks }
{}

/// There are no references of the region `Static`, and the types of names that are empty don't matter.
pub fn names_stand()
    ensures statics { (types : Types) (owner : ClosedType → Option (List ℕ)) (acts : List Act)
        (fs : List Frame) (sizes : List ℕ) (under : Made) (w : World)
        → NoStatics types owner acts fs sizes under w }
    ensures named { (types : Types) (owner : ClosedType → Option (List ℕ)) (acts : List Act) (f : Frame)
        (fs : List Frame) (sizes : List ℕ) (size : ℕ) (under : Made) (w : World)
        → NoNamedStatics types owner acts f fs sizes size under w }
    ensures retyped { (types : Types) (owner : ClosedType → Option (List ℕ)) (acts : List Act)
        (fs : List Frame) (sizes : List ℕ) (under : Made) (w : World)
        → EmptyNamesAreFree types owner acts fs sizes under w }
    ensures looked { (types : Types) (owner : ClosedType → Option (List ℕ)) (acts : List Act) (f : Frame)
        (fs : List Frame) (sizes : List ℕ) (size : ℕ) (under : Made) (w : World) (ticks : ℕ)
        → WritersLookWell types owner acts f fs sizes size under w ticks }
{}
