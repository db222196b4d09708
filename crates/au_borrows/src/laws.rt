//! Laws of the invariant, each as the contract of a call that does nothing.

ghost use Rattle.std.specs.Prelude.{ℕ, List, Option};
ghost use Rattle.au_places.specs.Memories.{Memory};
ghost use Rattle.au_types.specs.Types.{Meaning};
ghost use Rattle.au_memory.specs.Forests.{Core, Holds, Made};
ghost use Rattle.au_memory.specs.Loans.{Table, Types};
ghost use Rattle.au_borrows.specs.Invariants.{Inv};
ghost use Rattle.au_borrows.specs.Laws.{BearsOn, BeginsOn, EndsOn, EndsWell, KeepsOn, OpensOn, SpendsOn};
ghost use Rattle.au_borrows.specs.Laws.{UsesOn};
ghost use Rattle.au_borrows.specs.Orders.{is_active, Act};
ghost use Rattle.au_borrows.specs.Told.{Told};

/// An action keeps the invariant that tells nothing, or that a birth begins or ends.
pub fn births_go_on<B>()
    ensures kept { (types : Types) (owner : B → Option (List ℕ)) (acts : List Act) (hold : Holds)
        (type : ℕ → ℕ → Meaning) (under : Made) (s : Table) (m : Memory (List ℕ)) (w : Told B)
        (inv : Inv types owner acts hold type under s m w)
        (clock : ℕ) (others : Holds) (kinds : ℕ → ℕ → Meaning) (now : Made) (q : Table)
        (n : Memory (List ℕ))
        (after : Core types clock (is_active acts) (is_active acts) others kinds now q n)
        → KeepsOn B types owner acts hold type under s m w inv clock others kinds now q n after }
    ensures born { (types : Types) (owner : B → Option (List ℕ)) (acts : List Act) (hold : Holds)
        (type : ℕ → ℕ → Meaning) (under : Made) (s : Table) (m : Memory (List ℕ)) (w : Told B)
        (inv : Inv types owner acts hold type under s m w)
        (clock : ℕ) (others : Holds) (kinds : ℕ → ℕ → Meaning) (now : Made) (q : Table)
        (n : Memory (List ℕ))
        (after : Core types clock (is_active acts) (is_active acts) others kinds now q n)
        → BearsOn B types owner acts hold type under s m w inv clock others kinds now q n after }
    ensures spent { (types : Types) (owner : B → Option (List ℕ)) (acts : List Act) (hold : Holds)
        (type : ℕ → ℕ → Meaning) (under : Made) (s : Table) (m : Memory (List ℕ)) (w : Told B)
        (inv : Inv types owner acts hold type under s m w)
        (clock : ℕ) (others : Holds) (kinds : ℕ → ℕ → Meaning) (now : Made) (q : Table)
        (n : Memory (List ℕ))
        (after : Core types clock (is_active acts) (is_active acts) others kinds now q n)
        → SpendsOn B types owner acts hold type under s m w inv clock others kinds now q n after }
{}

/// So does one that opens a borrow for the newest token, or uses one whose token is active.
pub fn borrows_go_on<B>()
    ensures opened { (types : Types) (owner : B → Option (List ℕ)) (acts : List Act) (hold : Holds)
        (type : ℕ → ℕ → Meaning) (under : Made) (s : Table) (m : Memory (List ℕ)) (w : Told B)
        (inv : Inv types owner acts hold type under s m w)
        → OpensOn B types owner acts hold type under s m w inv }
    ensures used { (types : Types) (owner : B → Option (List ℕ)) (acts : List Act) (hold : Holds)
        (type : ℕ → ℕ → Meaning) (under : Made) (s : Table) (m : Memory (List ℕ)) (w : Told B)
        (inv : Inv types owner acts hold type under s m w)
        → UsesOn B types owner acts hold type under s m w inv }
{}

/// A token may begin, and the newest may end, with the borrows that were opened since it began.
pub fn tokens_go_on<B>()
    ensures begun { (types : Types) (owner : B → Option (List ℕ)) (acts : List Act) (hold : Holds)
        (type : ℕ → ℕ → Meaning) (under : Made) (s : Table) (m : Memory (List ℕ)) (w : Told B)
        (inv : Inv types owner acts hold type under s m w)
        → BeginsOn B types owner acts hold type under s m w inv }
    ensures ended { (types : Types) (owner : B → Option (List ℕ)) (acts : List Act) (hold : Holds)
        (type : ℕ → ℕ → Meaning) (under : Made) (s : Table) (m : Memory (List ℕ)) (w : Told B)
        (inv : Inv types owner acts hold type under s m w)
        → EndsOn B types owner acts hold type under s m w inv }
{}

/// At the end each birth was consumed once where nothing is held, and each borrow closed where none lies
/// open.
pub fn runs_end_well<B>()
    ensures { (types : Types) (owner : B → Option (List ℕ)) (acts : List Act) (hold : Holds)
        (type : ℕ → ℕ → Meaning) (under : Made) (s : Table) (m : Memory (List ℕ)) (w : Told B)
        (inv : Inv types owner acts hold type under s m w)
        → EndsWell B types owner acts hold type under s m w inv }
{}
