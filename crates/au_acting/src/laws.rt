//! Laws of actions on the invariant, each as the contract of a call that does nothing.

ghost use Rattle.std.specs.Prelude.{ℕ, List, Option};
ghost use Rattle.au_places.specs.Memories.{Memory};
ghost use Rattle.au_types.specs.Types.{Meaning};
ghost use Rattle.au_memory.specs.Forests.{Holds, Made};
ghost use Rattle.au_memory.specs.Loans.{Types};
ghost use Rattle.au_borrows.specs.Orders.{Act};
ghost use Rattle.au_borrows.specs.Told.{Told};
ghost use Rattle.au_acting.specs.Casing.{DropsReaders, HasParts, SeesItems, SeesParts};
ghost use Rattle.au_acting.specs.Ending.{Begins, Ends, Finishes, Tells};
ghost use Rattle.au_acting.specs.Granting.{EndsRoots, EndsTerminals, MakesRoots, MakesTerminals};
ghost use Rattle.au_acting.specs.Granting.{UsesRoots, UsesTerminals};
ghost use Rattle.au_acting.specs.Naming.{Fills, Lends, Looks, LooksBehind, Mentions, Puts, PutsBehind};
ghost use Rattle.au_acting.specs.Naming.{Reads, Relends};
ghost use Rattle.au_acting.specs.Referring.{Copies, CopiesItems, LendsContents, LendsParts, Moves};
ghost use Rattle.au_acting.specs.Referring.{PutsItems, SeesContents, Swaps, TakesItems};
ghost use Rattle.au_acting.specs.Starting.{Agrees, Starts};
ghost use Rattle.au_acting.specs.Turning.{DropsPlains, Turns, UsesReaders, UsesSeconds, UsesWriters};
ghost use Rattle.au_acting.specs.Valuing.{Drops, DropsWriters, EndsBuffers, MakesBoxes, MakesBuffers};
ghost use Rattle.au_acting.specs.Valuing.{MakesFree, MakesLinear, OpensBoxes, OpensCases, Plains};

/// A name is mentioned, and another takes the newest value.
pub fn names_come_and_go<B>()
    ensures mentioned { (types : Types) (owner : B → Option (List ℕ)) (acts : List Act) (hold : Holds)
        (type : ℕ → ℕ → Meaning) (under : Made) (m : Memory (List ℕ)) (w : Told B)
        → Mentions B types owner acts hold type under m w }
    ensures filled { (types : Types) (owner : B → Option (List ℕ)) (acts : List Act) (hold : Holds)
        (type : ℕ → ℕ → Meaning) (under : Made) (m : Memory (List ℕ)) (w : Told B)
        → Fills B types owner acts hold type under m w }
{}

/// A name is lent to write or to read, and the reference in one is lent again: the next borrow is opened.
pub fn names_are_lent<B>()
    ensures lent { (types : Types) (owner : B → Option (List ℕ)) (acts : List Act) (hold : Holds)
        (type : ℕ → ℕ → Meaning) (under : Made) (m : Memory (List ℕ)) (w : Told B)
        → Lends B types owner acts hold type under m w }
    ensures read { (types : Types) (owner : B → Option (List ℕ)) (acts : List Act) (hold : Holds)
        (type : ℕ → ℕ → Meaning) (under : Made) (m : Memory (List ℕ)) (w : Told B)
        → Reads B types owner acts hold type under m w }
    ensures again { (types : Types) (owner : B → Option (List ℕ)) (acts : List Act) (hold : Holds)
        (type : ℕ → ℕ → Meaning) (under : Made) (m : Memory (List ℕ)) (w : Told B)
        → Relends B types owner acts hold type under m w }
{}

/// Parts of Free type are copied out of names, and from behind references in them.
pub fn parts_are_looked_at<B>()
    ensures looked { (types : Types) (owner : B → Option (List ℕ)) (acts : List Act) (hold : Holds)
        (type : ℕ → ℕ → Meaning) (under : Made) (m : Memory (List ℕ)) (w : Told B)
        → Looks B types owner acts hold type under m w }
    ensures behind { (types : Types) (owner : B → Option (List ℕ)) (acts : List Act) (hold : Holds)
        (type : ℕ → ℕ → Meaning) (under : Made) (m : Memory (List ℕ)) (w : Told B)
        → LooksBehind B types owner acts hold type under m w }
{}

/// Parts of Free type give way to other values, in names and behind references in them.
pub fn parts_give_way<B>()
    ensures put { (types : Types) (owner : B → Option (List ℕ)) (acts : List Act) (hold : Holds)
        (type : ℕ → ℕ → Meaning) (under : Made) (m : Memory (List ℕ)) (w : Told B)
        → Puts B types owner acts hold type under m w }
    ensures behind { (types : Types) (owner : B → Option (List ℕ)) (acts : List Act) (hold : Holds)
        (type : ℕ → ℕ → Meaning) (under : Made) (m : Memory (List ℕ)) (w : Told B)
        → PutsBehind B types owner acts hold type under m w }
{}

/// Values are exchanged behind write references, and these give way to references to contents and parts.
pub fn writers_are_used<B>()
    ensures swapped { (types : Types) (owner : B → Option (List ℕ)) (acts : List Act) (hold : Holds)
        (type : ℕ → ℕ → Meaning) (under : Made) (m : Memory (List ℕ)) (w : Told B)
        → Swaps B types owner acts hold type under m w }
    ensures content { (types : Types) (owner : B → Option (List ℕ)) (acts : List Act) (hold : Holds)
        (type : ℕ → ℕ → Meaning) (under : Made) (m : Memory (List ℕ)) (w : Told B)
        → LendsContents B types owner acts hold type under m w }
    ensures parts { (types : Types) (owner : B → Option (List ℕ)) (acts : List Act) (hold : Holds)
        (type : ℕ → ℕ → Meaning) (under : Made) (m : Memory (List ℕ)) (w : Told B)
        → LendsParts B types owner acts hold type under m w }
{}

/// Read references move on, and give way to copies.
pub fn readers_are_used<B>()
    ensures moved { (types : Types) (owner : B → Option (List ℕ)) (acts : List Act) (hold : Holds)
        (type : ℕ → ℕ → Meaning) (under : Made) (m : Memory (List ℕ)) (w : Told B)
        → Moves B types owner acts hold type under m w }
    ensures content { (types : Types) (owner : B → Option (List ℕ)) (acts : List Act) (hold : Holds)
        (type : ℕ → ℕ → Meaning) (under : Made) (m : Memory (List ℕ)) (w : Told B)
        → SeesContents B types owner acts hold type under m w }
    ensures copied { (types : Types) (owner : B → Option (List ℕ)) (acts : List Act) (hold : Holds)
        (type : ℕ → ℕ → Meaning) (under : Made) (m : Memory (List ℕ)) (w : Told B)
        → Copies B types owner acts hold type under m w }
{}

/// Elements of buffers are put, exchanged, taken and copied.
pub fn items_are_used<B>()
    ensures put { (types : Types) (owner : B → Option (List ℕ)) (acts : List Act) (hold : Holds)
        (type : ℕ → ℕ → Meaning) (under : Made) (m : Memory (List ℕ)) (w : Told B)
        → PutsItems B types owner acts hold type under m w }
    ensures taken { (types : Types) (owner : B → Option (List ℕ)) (acts : List Act) (hold : Holds)
        (type : ℕ → ℕ → Meaning) (under : Made) (m : Memory (List ℕ)) (w : Told B)
        → TakesItems B types owner acts hold type under m w }
    ensures copied { (types : Types) (owner : B → Option (List ℕ)) (acts : List Act) (hold : Holds)
        (type : ℕ → ℕ → Meaning) (under : Made) (m : Memory (List ℕ)) (w : Told B)
        → CopiesItems B types owner acts hold type under m w }
{}

/// Values that hold nothing come under way, and such values are dropped.
pub fn values_hold_nothing<B>()
    ensures plain { (types : Types) (owner : B → Option (List ℕ)) (acts : List Act) (hold : Holds)
        (type : ℕ → ℕ → Meaning) (under : Made) (m : Memory (List ℕ)) (w : Told B)
        → Plains B types owner acts hold type under m w }
    ensures dropped { (types : Types) (owner : B → Option (List ℕ)) (acts : List Act) (hold : Holds)
        (type : ℕ → ℕ → Meaning) (under : Made) (m : Memory (List ℕ)) (w : Told B)
        → Drops B types owner acts hold type under m w }
    ensures writer { (types : Types) (owner : B → Option (List ℕ)) (acts : List Act) (hold : Holds)
        (type : ℕ → ℕ → Meaning) (under : Made) (m : Memory (List ℕ)) (w : Told B)
        → DropsWriters B types owner acts hold type under m w }
{}

/// Boxes, buffers, records and unions are made.
pub fn births_begin<B>()
    ensures boxes { (types : Types) (owner : B → Option (List ℕ)) (acts : List Act) (hold : Holds)
        (type : ℕ → ℕ → Meaning) (under : Made) (m : Memory (List ℕ)) (w : Told B)
        → MakesBoxes B types owner acts hold type under m w }
    ensures buffers { (types : Types) (owner : B → Option (List ℕ)) (acts : List Act) (hold : Holds)
        (type : ℕ → ℕ → Meaning) (under : Made) (m : Memory (List ℕ)) (w : Told B)
        → MakesBuffers B types owner acts hold type under m w }
    ensures free { (types : Types) (owner : B → Option (List ℕ)) (acts : List Act) (hold : Holds)
        (type : ℕ → ℕ → Meaning) (under : Made) (m : Memory (List ℕ)) (w : Told B)
        → MakesFree B types owner acts hold type under m w }
    ensures linear { (types : Types) (owner : B → Option (List ℕ)) (acts : List Act) (hold : Holds)
        (type : ℕ → ℕ → Meaning) (under : Made) (m : Memory (List ℕ)) (w : Told B)
        → MakesLinear B types owner acts hold type under m w }
{}

/// Boxes are opened, records and unions are taken apart, and buffers end.
pub fn births_end<B>()
    ensures boxes { (types : Types) (owner : B → Option (List ℕ)) (acts : List Act) (hold : Holds)
        (type : ℕ → ℕ → Meaning) (under : Made) (m : Memory (List ℕ)) (w : Told B)
        → OpensBoxes B types owner acts hold type under m w }
    ensures cases { (types : Types) (owner : B → Option (List ℕ)) (acts : List Act) (hold : Holds)
        (type : ℕ → ℕ → Meaning) (under : Made) (m : Memory (List ℕ)) (w : Told B)
        → OpensCases B types owner acts hold type under m w }
    ensures buffers { (types : Types) (owner : B → Option (List ℕ)) (acts : List Act) (hold : Holds)
        (type : ℕ → ℕ → Meaning) (under : Made) (m : Memory (List ℕ)) (w : Told B)
        → EndsBuffers B types owner acts hold type under m w }
{}

/// A token begins, and the newest ends with its borrows.
pub fn tokens_come_and_go<B>()
    ensures begun { (types : Types) (owner : B → Option (List ℕ)) (acts : List Act) (hold : Holds)
        (type : ℕ → ℕ → Meaning) (under : Made) (m : Memory (List ℕ)) (w : Told B)
        → Begins B types owner acts hold type under m w }
    ensures ended { (types : Types) (owner : B → Option (List ℕ)) (acts : List Act) (hold : Holds)
        (type : ℕ → ℕ → Meaning) (under : Made) (m : Memory (List ℕ)) (w : Told B)
        → Ends B types owner acts hold type under m w }
{}

/// What is told is as it should be at each moment, and all of it at the end.
pub fn runs_are_as_they_should_be<B>()
    ensures always { (types : Types) (owner : B → Option (List ℕ)) (acts : List Act) (hold : Holds)
        (type : ℕ → ℕ → Meaning) (under : Made) (m : Memory (List ℕ)) (w : Told B)
        → Tells B types owner acts hold type under m w }
    ensures finished { (types : Types) (owner : B → Option (List ℕ)) (acts : List Act) (hold : Holds)
        (type : ℕ → ℕ → Meaning) (under : Made) (m : Memory (List ℕ)) (w : Told B)
        → Finishes B types owner acts hold type under m w }
{}

/// A run starts in a state that is as it should be.
pub fn runs_start<B>()
    ensures { (types : Types) (owner : B → Option (List ℕ)) → Starts B types owner }
{}

/// Two states are one where names stand alike and memory holds the same.
pub fn states_agree<B>()
    ensures { (types : Types) (owner : B → Option (List ℕ)) (acts : List Act) (hold : Holds)
        (type : ℕ → ℕ → Meaning) (under : Made) (m : Memory (List ℕ)) (w : Told B)
        → Agrees B types owner acts hold type under m w }
{}

/// The root and terminals are born, used and end.
pub fn grants_come_and_go<B>()
    ensures terminal { (types : Types) (owner : B → Option (List ℕ)) (acts : List Act) (hold : Holds)
        (type : ℕ → ℕ → Meaning) (under : Made) (m : Memory (List ℕ)) (w : Told B)
        → MakesTerminals B types owner acts hold type under m w }
    ensures root { (types : Types) (owner : B → Option (List ℕ)) (acts : List Act) (hold : Holds)
        (type : ℕ → ℕ → Meaning) (under : Made) (m : Memory (List ℕ)) (w : Told B)
        → MakesRoots B types owner acts hold type under m w }
    ensures terminal_ended { (types : Types) (owner : B → Option (List ℕ)) (acts : List Act) (hold : Holds)
        (type : ℕ → ℕ → Meaning) (under : Made) (m : Memory (List ℕ)) (w : Told B)
        → EndsTerminals B types owner acts hold type under m w }
    ensures root_ended { (types : Types) (owner : B → Option (List ℕ)) (acts : List Act) (hold : Holds)
        (type : ℕ → ℕ → Meaning) (under : Made) (m : Memory (List ℕ)) (w : Told B)
        → EndsRoots B types owner acts hold type under m w }
    ensures terminal_used { (types : Types) (owner : B → Option (List ℕ)) (acts : List Act) (hold : Holds)
        (type : ℕ → ℕ → Meaning) (under : Made) (m : Memory (List ℕ)) (w : Told B)
        → UsesTerminals B types owner acts hold type under m w }
    ensures root_used { (types : Types) (owner : B → Option (List ℕ)) (acts : List Act) (hold : Holds)
        (type : ℕ → ℕ → Meaning) (under : Made) (m : Memory (List ℕ)) (w : Told B)
        → UsesRoots B types owner acts hold type under m w }
{}

/// What references lead to is seen: parts of cases, and elements of buffers.
pub fn cases_are_seen<B>()
    ensures parts { (types : Types) (owner : B → Option (List ℕ)) (acts : List Act) (hold : Holds)
        (type : ℕ → ℕ → Meaning) (under : Made) (m : Memory (List ℕ)) (w : Told B)
        → HasParts B types owner acts hold type under m w }
    ensures seen { (types : Types) (owner : B → Option (List ℕ)) (acts : List Act) (hold : Holds)
        (type : ℕ → ℕ → Meaning) (under : Made) (m : Memory (List ℕ)) (w : Told B)
        → SeesParts B types owner acts hold type under m w }
    ensures items { (types : Types) (owner : B → Option (List ℕ)) (acts : List Act) (hold : Holds)
        (type : ℕ → ℕ → Meaning) (under : Made) (m : Memory (List ℕ)) (w : Told B)
        → SeesItems B types owner acts hold type under m w }
    ensures dropped { (types : Types) (owner : B → Option (List ℕ)) (acts : List Act) (hold : Holds)
        (type : ℕ → ℕ → Meaning) (under : Made) (m : Memory (List ℕ)) (w : Told B)
        → DropsReaders B types owner acts hold type under m w }
{}

/// Values change places, those that hold nothing are dropped, and borrows are used.
pub fn values_turn<B>()
    ensures turned { (types : Types) (owner : B → Option (List ℕ)) (acts : List Act) (hold : Holds)
        (type : ℕ → ℕ → Meaning) (under : Made) (m : Memory (List ℕ)) (w : Told B)
        → Turns B types owner acts hold type under m w }
    ensures plain { (types : Types) (owner : B → Option (List ℕ)) (acts : List Act) (hold : Holds)
        (type : ℕ → ℕ → Meaning) (under : Made) (m : Memory (List ℕ)) (w : Told B)
        → DropsPlains B types owner acts hold type under m w }
    ensures writer { (types : Types) (owner : B → Option (List ℕ)) (acts : List Act) (hold : Holds)
        (type : ℕ → ℕ → Meaning) (under : Made) (m : Memory (List ℕ)) (w : Told B)
        → UsesWriters B types owner acts hold type under m w }
    ensures reader { (types : Types) (owner : B → Option (List ℕ)) (acts : List Act) (hold : Holds)
        (type : ℕ → ℕ → Meaning) (under : Made) (m : Memory (List ℕ)) (w : Told B)
        → UsesReaders B types owner acts hold type under m w }
    ensures second { (types : Types) (owner : B → Option (List ℕ)) (acts : List Act) (hold : Holds)
        (type : ℕ → ℕ → Meaning) (under : Made) (m : Memory (List ℕ)) (w : Told B)
        → UsesSeconds B types owner acts hold type under m w }
{}
