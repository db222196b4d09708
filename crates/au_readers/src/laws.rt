//! Laws of what is seen, each as the contract of a call that does nothing.

ghost use Rattle.std.specs.Prelude.{ℕ, Bool, List};
ghost use Rattle.au_places.specs.Memories.{Memory};
ghost use Rattle.au_types.specs.Types.{Meaning};
ghost use Rattle.au_memory.specs.Forests.{Core, Holds, Made};
ghost use Rattle.au_memory.specs.Loans.{Table, Types};
ghost use Rattle.au_readers.specs.Exclusive.{WritersAreApart, WritersAreApartFromReads};
ghost use Rattle.au_readers.specs.Sparing.{NamesSpareReads, WritersSpareReads};

/// The places of write references that are held, and of names that are ready, are apart from what open read
/// borrows see.
pub fn reads_are_spared()
    ensures writers { (types : Types) (clock : ℕ) (scope act : ℕ → Bool) (hold : Holds)
        (type : ℕ → ℕ → Meaning)
        (under : Made) (s : Table) (m : Memory (List ℕ))
        (core : Core types clock scope act hold type under s m)
        → WritersSpareReads types clock scope act hold type under s m core }
    ensures names { (types : Types) (clock : ℕ) (scope act : ℕ → Bool) (hold : Holds) (type : ℕ → ℕ → Meaning)
        (under : Made) (s : Table) (m : Memory (List ℕ))
        (core : Core types clock scope act hold type under s m)
        → NamesSpareReads types clock scope act hold type under s m core }
{}

/// Borrows are exclusive: where each loan of a borrow writes and its token is in scope, no two of the
/// references that are held for it have overlapping places, and none has one that overlaps that of an open
/// read borrow.
pub fn borrows_are_exclusive()
    ensures writers { (types : Types) (clock : ℕ) (scope act : ℕ → Bool) (hold : Holds)
        (type : ℕ → ℕ → Meaning)
        (under : Made) (s : Table) (m : Memory (List ℕ))
        (core : Core types clock scope act hold type under s m)
        → WritersAreApart types clock scope act hold type under s m core }
    ensures reads { (types : Types) (clock : ℕ) (scope act : ℕ → Bool) (hold : Holds) (type : ℕ → ℕ → Meaning)
        (under : Made) (s : Table) (m : Memory (List ℕ))
        (core : Core types clock scope act hold type under s m)
        → WritersAreApartFromReads types clock scope act hold type under s m core }
{}
