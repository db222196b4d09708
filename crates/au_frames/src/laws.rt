//! Laws of frames, each as the contract of a call that does nothing.

ghost use Rattle.std.specs.Prelude.{ℕ, List, Option};
ghost use Rattle.au_places.specs.Memories.{Memory};
ghost use Rattle.au_memory.specs.Forests.{Made};
ghost use Rattle.au_memory.specs.Loans.{Types};
ghost use Rattle.au_borrows.specs.Orders.{Act};
ghost use Rattle.au_borrows.specs.Told.{Told};
ghost use Rattle.au_frames.specs.Frames.{Frame};
ghost use Rattle.au_frames.specs.Laws.{FramesBegin, FramesEnd, NamesAreOfFrames};

/// What is said of a name of the newest frame is said of the frame.
pub fn names_are_of_frames()
    ensures { NamesAreOfFrames }
{}

/// A frame begins with the values of its parameters, and ends where all that it holds may be dropped.
pub fn frames_come_and_go<B>()
    ensures begun { (types : Types) (owner : B → Option (List ℕ)) (acts : List Act) (fs : List Frame)
        (under : Made) (m : Memory (List ℕ)) (w : Told B)
        → FramesBegin B types owner acts fs under m w }
    ensures ended { (types : Types) (owner : B → Option (List ℕ)) (acts : List Act) (fs : List Frame)
        (under : Made) (m : Memory (List ℕ)) (w : Told B)
        → FramesEnd B types owner acts fs under m w }
{}
