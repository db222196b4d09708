//! Laws of steps, each as the contract of a call that does nothing.

ghost use Rattle.std.specs.Prelude.{ℕ, List, Option};
ghost use Rattle.au_type_texts.specs.Types.{ClosedType};
ghost use Rattle.au_memory.specs.Forests.{Made};
ghost use Rattle.au_memory.specs.Loans.{Types};
ghost use Rattle.au_safe_acts.specs.Orders.{Act};
ghost use Rattle.au_safe_acts.specs.Frames.{Frame};
ghost use Rattle.au_meaning.specs.Worlds.{World};
ghost use Rattle.au_safe_steps.specs.Answering.{AnswersWell, HearsWell};
ghost use Rattle.au_safe_steps.specs.Beginning.{CountsLying, ExitsWell, FinishesWell};
ghost use Rattle.au_safe_steps.specs.Beginning.{RootsComeWell, StartsWell};
ghost use Rattle.au_safe_steps.specs.Binding.{FieldsAreBound, LabelsAreOrdered};
ghost use Rattle.au_safe_steps.specs.Coming.{DropsWell, NumbersAreTold, NumbersGoOn};
ghost use Rattle.au_safe_steps.specs.Coming.{PlainsComeWell, PlainsDropWell, ReordersWell};
ghost use Rattle.au_safe_steps.specs.Coming.{TellsWell, TruthsAreTold};
ghost use Rattle.au_safe_steps.specs.Filling.{EmptiesWell, FillsWell};
ghost use Rattle.au_safe_steps.specs.Leaving.{FramesHaveRoom, OthersStay, TokensEndTo};
ghost use Rattle.au_safe_steps.specs.Reaching.{CopiesWritersWell, OperandsCopyWell, RefersWell};
ghost use Rattle.au_safe_steps.specs.Regions.{NamesHaveTokens, ReferencesHaveTokens};

/// Values that hold nothing come under way, values take another order, are told, and are dropped.
pub fn values_come_and_go()
    ensures told { (types : Types) (owner : ClosedType → Option (List ℕ)) (acts : List Act)
        (fs : List Frame) (sizes : List ℕ) (under : Made) (w : World)
        → TellsWell types owner acts fs sizes under w }
    ensures come { (types : Types) (owner : ClosedType → Option (List ℕ)) (acts : List Act)
        (fs : List Frame) (sizes : List ℕ) (under : Made) (w : World)
        → PlainsComeWell types owner acts fs sizes under w }
    ensures ordered { (types : Types) (owner : ClosedType → Option (List ℕ)) (acts : List Act)
        (fs : List Frame) (sizes : List ℕ) (under : Made) (w : World)
        → ReordersWell types owner acts fs sizes under w }
    ensures plain { (types : Types) (owner : ClosedType → Option (List ℕ)) (acts : List Act)
        (fs : List Frame) (sizes : List ℕ) (under : Made) (w : World)
        → PlainsDropWell types owner acts fs sizes under w }
    ensures truths { (types : Types) (owner : ClosedType → Option (List ℕ)) (acts : List Act)
        (fs : List Frame) (sizes : List ℕ) (under : Made) (w : World)
        → TruthsAreTold types owner acts fs sizes under w }
    ensures numbers { (types : Types) (owner : ClosedType → Option (List ℕ)) (acts : List Act)
        (fs : List Frame) (sizes : List ℕ) (under : Made) (w : World)
        → NumbersAreTold types owner acts fs sizes under w }
    ensures dropped { (types : Types) (owner : ClosedType → Option (List ℕ)) (acts : List Act)
        (fs : List Frame) (sizes : List ℕ) (under : Made) (w : World)
        → DropsWell types owner acts fs sizes under w }
    ensures next { NumbersGoOn }
{}

/// Names are filled in a row, and emptied in a row.
pub fn names_are_filled_in_rows()
    ensures filled { (types : Types) (owner : ClosedType → Option (List ℕ)) (acts : List Act) (f : Frame)
        (fs : List Frame) (sizes : List ℕ) (size : ℕ) (under : Made) (w : World)
        → FillsWell types owner acts f fs sizes size under w }
    ensures emptied { (types : Types) (owner : ClosedType → Option (List ℕ)) (acts : List Act) (f : Frame)
        (fs : List Frame) (sizes : List ℕ) (size : ℕ) (under : Made) (w : World)
        → EmptiesWell types owner acts f fs sizes size under w }
{}

/// What write references lead to is copied, and read references to parts are made; their regions are tokens.
pub fn references_are_reached()
    ensures writer { (types : Types) (owner : ClosedType → Option (List ℕ)) (acts : List Act)
        (fs : List Frame) (sizes : List ℕ) (under : Made) (w : World) (ticks : ℕ)
        → CopiesWritersWell types owner acts fs sizes under w ticks }
    ensures part { (types : Types) (owner : ClosedType → Option (List ℕ)) (acts : List Act) (f : Frame)
        (fs : List Frame) (sizes : List ℕ) (size : ℕ) (under : Made) (w : World) (ticks : ℕ)
        → RefersWell types owner acts f fs sizes size under w ticks }
    ensures operand { (types : Types) (owner : ClosedType → Option (List ℕ)) (acts : List Act) (f : Frame)
        (fs : List Frame) (sizes : List ℕ) (size : ℕ) (under : Made) (w : World) (ticks : ℕ)
        → OperandsCopyWell types owner acts f fs sizes size under w ticks }
    ensures regions { ReferencesHaveTokens }
    ensures names { NamesHaveTokens }
{}

/// What shipped calls come to is safe, also where they wait for a byte.
pub fn answers_are_safe()
    ensures told { (types : Types) (owner : ClosedType → Option (List ℕ)) (acts : List Act)
        (fs : List Frame) (sizes : List ℕ) (under : Made) (w : World) (ticks : ℕ)
        → AnswersWell types owner acts fs sizes under w ticks }
    ensures heard { (types : Types) (owner : ClosedType → Option (List ℕ)) (acts : List Act)
        (fs : List Frame) (sizes : List ℕ) (under : Made) (w : World) (ticks : ℕ)
        → HearsWell types owner acts fs sizes under w ticks }
{}

/// A run begins with a world that is as it should be, and ends with one of which all is told.
pub fn runs_begin_and_end()
    ensures started { StartsWell }
    ensures rooted { (types : Types) (owner : ClosedType → Option (List ℕ)) (acts : List Act)
        (fs : List Frame) (sizes : List ℕ) (under : Made) (w : World)
        → RootsComeWell types owner acts fs sizes under w }
    ensures left { (types : Types) (owner : ClosedType → Option (List ℕ)) (acts : List Act)
        (fs : List Frame) (sizes : List ℕ) (under : Made) (w : World)
        → ExitsWell types owner acts fs sizes under w }
    ensures lying { (types : Types) (owner : ClosedType → Option (List ℕ)) (acts : List Act)
        (fs : List Frame) (sizes : List ℕ) (under : Made) (w : World)
        → CountsLying types owner acts fs sizes under w }
    ensures finished { FinishesWell }
{}

/// Fields that are bound, and arguments under labels, are the values that stand under their names.
pub fn names_bind_in_any_order()
    ensures fields { FieldsAreBound }
    ensures labels { LabelsAreOrdered }
{}

/// Many tokens end at once, frames that wait for none of them stay, and a new frame has room for its names.
pub fn frames_come_to_ends()
    ensures ended { TokensEndTo }
    ensures stay { OthersStay }
    ensures room { FramesHaveRoom }
{}
