//! Laws of actions, each as the contract of a call that does nothing.

ghost use Rattle.std.specs.Prelude.{ℕ, List, Option};
ghost use Rattle.au_type_texts.specs.Types.{ClosedType};
ghost use Rattle.au_memory.specs.Forests.{Made};
ghost use Rattle.au_memory.specs.Loans.{Types};
ghost use Rattle.au_borrows.specs.Orders.{Act};
ghost use Rattle.au_frames.specs.Frames.{Frame};
ghost use Rattle.au_meaning.specs.Worlds.{World};
ghost use Rattle.au_safe_acts.specs.Behind.{ReadersReadWell, WritersPutWell, WritersReadWell};
ghost use Rattle.au_safe_acts.specs.Calling.{ComesSafely, GoesSafely};
ghost use Rattle.au_safe_acts.specs.Closing.{TokensBegin, TokensEnd};
ghost use Rattle.au_safe_acts.specs.Entering.{EntersWell, LeavesWell};
ghost use Rattle.au_safe_acts.specs.Lending.{LendsWell, ReadsWell, RelendsWell};
ghost use Rattle.au_safe_acts.specs.Making.{ApartWell, CopiesWell, MakesFreeWell, MakesLinearWell};
ghost use Rattle.au_safe_acts.specs.Naming.{HoldsWell, LooksWell, MovesWell, SetsWell};
ghost use Rattle.au_safe_acts.specs.Telling.{TellsReadersWell, TellsValuesWell, TellsWritersWell};

/// Names of the running frame are looked at, moved out of, filled and set.
pub fn names_are_safe()
    ensures looked { (types : Types) (owner : ClosedType → Option (List ℕ)) (acts : List Act) (f : Frame)
        (fs : List Frame) (sizes : List ℕ) (size : ℕ) (under : Made) (w : World) (ticks : ℕ)
        → LooksWell types owner acts f fs sizes size under w ticks }
    ensures moved { (types : Types) (owner : ClosedType → Option (List ℕ)) (acts : List Act) (f : Frame)
        (fs : List Frame) (sizes : List ℕ) (size : ℕ) (under : Made) (w : World) (ticks : ℕ)
        → MovesWell types owner acts f fs sizes size under w ticks }
    ensures held { (types : Types) (owner : ClosedType → Option (List ℕ)) (acts : List Act) (f : Frame)
        (fs : List Frame) (sizes : List ℕ) (size : ℕ) (under : Made) (w : World) (ticks : ℕ)
        → HoldsWell types owner acts f fs sizes size under w ticks }
    ensures put { (types : Types) (owner : ClosedType → Option (List ℕ)) (acts : List Act) (f : Frame)
        (fs : List Frame) (sizes : List ℕ) (size : ℕ) (under : Made) (w : World) (ticks : ℕ)
        → SetsWell types owner acts f fs sizes size under w ticks }
{}

/// A token begins, and the newest ends with the borrows that were opened since.
pub fn tokens_are_safe()
    ensures begun { (types : Types) (owner : ClosedType → Option (List ℕ)) (acts : List Act)
        (fs : List Frame) (sizes : List ℕ) (under : Made) (w : World)
        → TokensBegin types owner acts fs sizes under w }
    ensures ended { (types : Types) (owner : ClosedType → Option (List ℕ)) (acts : List Act)
        (fs : List Frame) (sizes : List ℕ) (under : Made) (w : World)
        → TokensEnd types owner acts fs sizes under w }
{}

/// Names are lent to write and to read, and references in names are lent again.
pub fn borrows_are_safe()
    ensures written { (types : Types) (owner : ClosedType → Option (List ℕ)) (acts : List Act) (f : Frame)
        (fs : List Frame) (sizes : List ℕ) (size : ℕ) (under : Made) (w : World) (ticks : ℕ)
        → LendsWell types owner acts f fs sizes size under w ticks }
    ensures read { (types : Types) (owner : ClosedType → Option (List ℕ)) (acts : List Act) (f : Frame)
        (fs : List Frame) (sizes : List ℕ) (size : ℕ) (under : Made) (w : World) (ticks : ℕ)
        → ReadsWell types owner acts f fs sizes size under w ticks }
    ensures again { (types : Types) (owner : ClosedType → Option (List ℕ)) (acts : List Act) (f : Frame)
        (fs : List Frame) (sizes : List ℕ) (size : ℕ) (under : Made) (w : World) (ticks : ℕ)
        → RelendsWell types owner acts f fs sizes size under w ticks }
{}

/// What operations and shipped calls come to is safe where it is good.
pub fn calls_are_safe()
    ensures operation { (types : Types) (owner : ClosedType → Option (List ℕ)) (acts : List Act)
        (fs : List Frame) (sizes : List ℕ) (under : Made) (w : World) (ticks : ℕ)
        → ComesSafely types owner acts fs sizes under w ticks }
    ensures shipped { (types : Types) (owner : ClosedType → Option (List ℕ)) (acts : List Act)
        (fs : List Frame) (sizes : List ℕ) (under : Made) (w : World) (ticks : ℕ)
        → GoesSafely types owner acts fs sizes under w ticks }
{}

/// Values of cases are made and taken apart, and what read references lead to is copied.
pub fn values_are_safe()
    ensures free { (types : Types) (owner : ClosedType → Option (List ℕ)) (acts : List Act)
        (fs : List Frame) (sizes : List ℕ) (under : Made) (w : World) (ticks : ℕ)
        → MakesFreeWell types owner acts fs sizes under w ticks }
    ensures linear { (types : Types) (owner : ClosedType → Option (List ℕ)) (acts : List Act)
        (fs : List Frame) (sizes : List ℕ) (under : Made) (w : World) (ticks : ℕ)
        → MakesLinearWell types owner acts fs sizes under w ticks }
    ensures apart { (types : Types) (owner : ClosedType → Option (List ℕ)) (acts : List Act)
        (fs : List Frame) (sizes : List ℕ) (under : Made) (w : World) (ticks : ℕ)
        → ApartWell types owner acts fs sizes under w ticks }
    ensures copied { (types : Types) (owner : ClosedType → Option (List ℕ)) (acts : List Act)
        (fs : List Frame) (sizes : List ℕ) (under : Made) (w : World) (ticks : ℕ)
        → CopiesWell types owner acts fs sizes under w ticks }
{}

/// What stands behind the reference in a name is copied and set.
pub fn references_are_safe()
    ensures written { (types : Types) (owner : ClosedType → Option (List ℕ)) (acts : List Act) (f : Frame)
        (fs : List Frame) (sizes : List ℕ) (size : ℕ) (under : Made) (w : World) (ticks : ℕ)
        → WritersReadWell types owner acts f fs sizes size under w ticks }
    ensures read { (types : Types) (owner : ClosedType → Option (List ℕ)) (acts : List Act) (f : Frame)
        (fs : List Frame) (sizes : List ℕ) (size : ℕ) (under : Made) (w : World) (ticks : ℕ)
        → ReadersReadWell types owner acts f fs sizes size under w ticks }
    ensures put { (types : Types) (owner : ClosedType → Option (List ℕ)) (acts : List Act) (f : Frame)
        (fs : List Frame) (sizes : List ℕ) (size : ℕ) (under : Made) (w : World) (ticks : ℕ)
        → WritersPutWell types owner acts f fs sizes size under w ticks }
{}

/// A frame begins with the arguments of a call, and ends where all that it holds may be dropped.
pub fn frames_are_safe()
    ensures entered { (types : Types) (owner : ClosedType → Option (List ℕ)) (acts : List Act)
        (fs : List Frame) (sizes : List ℕ) (under : Made) (w : World)
        → EntersWell types owner acts fs sizes under w }
    ensures left { (types : Types) (owner : ClosedType → Option (List ℕ)) (acts : List Act)
        (fs : List Frame) (sizes : List ℕ) (under : Made) (w : World)
        → LeavesWell types owner acts fs sizes under w }
{}

/// A value is told apart, and so is one behind a reference.
pub fn cases_are_safe()
    ensures value { (types : Types) (owner : ClosedType → Option (List ℕ)) (acts : List Act)
        (fs : List Frame) (sizes : List ℕ) (under : Made) (w : World) (ticks : ℕ)
        → TellsValuesWell types owner acts fs sizes under w ticks }
    ensures writer { (types : Types) (owner : ClosedType → Option (List ℕ)) (acts : List Act)
        (fs : List Frame) (sizes : List ℕ) (under : Made) (w : World) (ticks : ℕ)
        → TellsWritersWell types owner acts fs sizes under w ticks }
    ensures reader { (types : Types) (owner : ClosedType → Option (List ℕ)) (acts : List Act)
        (fs : List Frame) (sizes : List ℕ) (under : Made) (w : World) (ticks : ℕ)
        → TellsReadersWell types owner acts fs sizes under w ticks }
{}
