//! Laws of trees, each as the contract of a call that does nothing.

ghost use Rattle.std.specs.Prelude.{ℕ, Bool, List};
ghost use Rattle.au_places.specs.Memories.{Memory};
ghost use Rattle.au_types.specs.Types.{Meaning};
ghost use Rattle.au_memory.specs.Forests.{Core, Holds, Made};
ghost use Rattle.au_memory.specs.Laws.{FreeTreesCountNothing, HeldLoansAreApart, HeldLoansAreUsable};
ghost use Rattle.au_memory.specs.Laws.{PointsStand, TreesGrow, TreesStay};
ghost use Rattle.au_memory.specs.Loans.{Table, Types};

/// A tree of a Free type counts for nothing.
pub fn free_trees_count_nothing()
    ensures { FreeTreesCountNothing }
{}

/// Trees stay what they are when a place is written that isn't theirs, and when more is lent.
pub fn trees_stay()
    ensures written { TreesStay }
    ensures grown { TreesGrow }
{}

/// What a read borrow sees stands in memory as long as the tree does that was lent.
pub fn points_stand()
    ensures { PointsStand }
{}

/// A write reference that is held may be used while its token is in scope, and no two of them lead to places
/// of which one covers the other.
pub fn held_loans_are_usable()
    ensures usable { (types : Types) (clock : ℕ) (scope act : ℕ → Bool) (hold : Holds)
        (type : ℕ → ℕ → Meaning) (under : Made) (s : Table) (m : Memory (List ℕ))
        (core : Core types clock scope act hold type under s m)
        → HeldLoansAreUsable types clock scope act hold type under s m core }
    ensures apart { (types : Types) (clock : ℕ) (scope act : ℕ → Bool) (hold : Holds)
        (type : ℕ → ℕ → Meaning) (under : Made) (s : Table) (m : Memory (List ℕ))
        (core : Core types clock scope act hold type under s m)
        → HeldLoansAreApart types clock scope act hold type under s m core }
{}
