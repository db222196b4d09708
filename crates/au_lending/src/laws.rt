//! Laws of actions on memory, each as the contract of a call that does nothing.

ghost use Rattle.std.specs.Prelude.{◌∷◌, ℕ, Bool, List};
ghost use Rattle.au_places.specs.Memories.{Memory};
ghost use Rattle.au_running_types.specs.Running.{token};
ghost use Rattle.au_types.specs.Types.{Meaning, reads, writes};
ghost use Rattle.au_memory.specs.Forests.{Core, Holds, Made};
ghost use Rattle.au_memory.specs.Loans.{Table, Types};
ghost use Rattle.au_memory.specs.Trees.{Value};
ghost use Rattle.au_lending.specs.Laws.{BoxesAreMade, BoxesOpen, ContentsAreLent};
ghost use Rattle.au_lending.specs.Laws.{Begun, Dropped, FreeValuesPush, LoansEnd, MentionsEmpty};
ghost use Rattle.au_lending.specs.Laws.{NamesAreRead};
ghost use Rattle.au_lending.specs.Laws.{NamesFill, NamesLend};
ghost use Rattle.au_lending.specs.Laws.{ReferencesLend, ReferencesSwap};
ghost use Rattle.au_lending.specs.Parting.{PartsAreLent, PartsRejoin};
ghost use Rattle.au_lending.specs.Buffers.{BuffersAreMade, BuffersEnd, ItemsArePut, ItemsAreSeen};
ghost use Rattle.au_lending.specs.Buffers.{ItemsAreTaken};
ghost use Rattle.au_lending.specs.Ending.{TokensEnd};
ghost use Rattle.au_lending.specs.Putting.{PartsArePut, PartsArePutBehind};
ghost use Rattle.au_lending.specs.Records.{onto, RecordsAreMade, RecordsOpen};
ghost use Rattle.au_lending.specs.Seeing.{ContentsAreSeen, NamesAreLookedAt, NamesLookBehind, ReadersCopy};
ghost use Rattle.au_lending.specs.Seeing.{ReadersMove, ReadersSee};

/// A consuming mention moves the value out of a name that is ready.
pub fn mentions_empty()
    ensures { (types : Types) (clock : ℕ) (scope act : ℕ → Bool) (hold : Holds) (type : ℕ → ℕ → Meaning)
        (under : Made) (s : Table) (m : Memory (List ℕ))
        (core : Core types clock scope act hold type under s m) (frame x : ℕ)
        → MentionsEmpty types clock scope act hold type under s m core frame x }
{}

/// A name that is empty takes the newest value under way.
pub fn names_fill()
    ensures { (types : Types) (clock : ℕ) (scope act : ℕ → Bool) (hold : Holds) (type : ℕ → ℕ → Meaning)
        (v : Value) (t : Meaning) (under : Made) (s : Table) (m : Memory (List ℕ))
        (core : Core types clock scope act hold type ((v, t) ∷ under) s m) (frame x : ℕ)
        → NamesFill types clock scope act hold type v t under s m core frame x }
{}

/// A name that is ready may be lent to write for a token that is active.
pub fn names_lend()
    ensures { (types : Types) (clock : ℕ) (scope act : ℕ → Bool) (hold : Holds) (type : ℕ → ℕ → Meaning)
        (under : Made) (s : Table) (m : Memory (List ℕ))
        (core : Core types clock scope act hold type under s m) (frame x b z : ℕ)
        → NamesLend types clock scope act hold type under s m core frame x b z }
{}

/// A value of a Free type may come under way, as a copy of one that is shown; and the newest one may be
/// dropped.
pub fn values_come_and_go()
    ensures pushed { (types : Types) (clock : ℕ) (scope act : ℕ → Bool) (hold : Holds)
        (type : ℕ → ℕ → Meaning) (under : Made) (s : Table) (m : Memory (List ℕ))
        (core : Core types clock scope act hold type under s m) (v : Value) (t : Meaning)
        → FreeValuesPush types clock scope act hold type under s m core v t }
    ensures dropped { (types : Types) (clock : ℕ) (scope act : ℕ → Bool) (hold : Holds)
        (type : ℕ → ℕ → Meaning) (v : Value) (t : Meaning) (under : Made) (s : Table) (m : Memory (List ℕ))
        (core : Core types clock scope act hold type ((v, t) ∷ under) s m)
        → Dropped types clock scope act hold type v t under s m core }
{}

/// The reference in a name that is ready may be lent again.
pub fn references_lend()
    ensures { (types : Types) (clock : ℕ) (scope act : ℕ → Bool) (hold : Holds) (type : ℕ → ℕ → Meaning)
        (under : Made) (s : Table) (m : Memory (List ℕ))
        (core : Core types clock scope act hold type under s m) (frame x b z : ℕ) (t : Meaning) (y : ℕ)
        → ReferencesLend types clock scope act hold type under s m core frame x b z t y }
{}

/// A value may be put behind a write reference whose token is in scope, for what stood there.
pub fn references_swap()
    ensures { (types : Types) (clock : ℕ) (scope act : ℕ → Bool) (hold : Holds) (type : ℕ → ℕ → Meaning)
        (new : Value) (t : Meaning) (r : Value) (z : ℕ) (under : Made) (s : Table) (m : Memory (List ℕ))
        (core : Core types clock scope act hold type ((new, t) ∷ (r, writes t (token z)) ∷ under) s m)
        → ReferencesSwap types clock scope act hold type new t r z under s m core }
{}

/// A token may begin at any time.
pub fn tokens_begin()
    ensures { (types : Types) (clock : ℕ) (scope act : ℕ → Bool) (hold : Holds) (type : ℕ → ℕ → Meaning)
        (under : Made) (s : Table) (m : Memory (List ℕ))
        (core : Core types clock scope act hold type under s m)
        → Begun types clock scope act hold type under s m core }
{}

/// A loan whose token isn't in scope any more gives back what it was lent.
pub fn loans_end()
    ensures { (types : Types) (clock : ℕ) (scope act : ℕ → Bool) (hold : Holds) (type : ℕ → ℕ → Meaning)
        (under : Made) (s : Table) (m : Memory (List ℕ))
        (core : Core types clock scope act hold type under s m)
        → LoansEnd types clock scope act hold type under s m core }
{}

/// A name that is ready, or lent to read, may be lent to read for a token that is active.
pub fn names_are_read()
    ensures { (types : Types) (clock : ℕ) (scope act : ℕ → Bool) (hold : Holds) (type : ℕ → ℕ → Meaning)
        (under : Made) (s : Table) (m : Memory (List ℕ))
        (core : Core types clock scope act hold type under s m) (frame x b z : ℕ)
        → NamesAreRead types clock scope act hold type under s m core frame x b z }
{}

/// A box is made of the newest value, and opened.
pub fn boxes_are_made_and_opened()
    ensures made { (types : Types) (clock : ℕ) (scope act : ℕ → Bool) (hold : Holds)
        (type : ℕ → ℕ → Meaning) (v : Value) (of : Meaning) (under : Made) (s : Table) (m : Memory (List ℕ))
        (core : Core types clock scope act hold type ((v, of) ∷ under) s m) (t : Meaning) (i : ℕ)
        → BoxesAreMade types clock scope act hold type v of under s m core t i }
    ensures opened { (types : Types) (clock : ℕ) (scope act : ℕ → Bool) (hold : Holds)
        (type : ℕ → ℕ → Meaning) (v : Value) (t of : Meaning) (under : Made) (s : Table) (m : Memory (List ℕ))
        (core : Core types clock scope act hold type ((v, t) ∷ under) s m)
        → BoxesOpen types clock scope act hold type v t of under s m core }
{}

/// The content of a box behind a write reference whose token is in scope may be lent on.
pub fn contents_are_lent()
    ensures { (types : Types) (clock : ℕ) (scope act : ℕ → Bool) (hold : Holds) (type : ℕ → ℕ → Meaning)
        (r : Value) (t of : Meaning) (z : ℕ) (under : Made) (s : Table) (m : Memory (List ℕ))
        (core : Core types clock scope act hold type ((r, writes t (token z)) ∷ under) s m)
        → ContentsAreLent types clock scope act hold type r t of z under s m core }
{}

/// The parts of a value of a case behind a write reference whose token is in scope may be lent on.
pub fn parts_are_lent()
    ensures { (types : Types) (clock : ℕ) (scope act : ℕ → Bool) (hold : Holds) (type : ℕ → ℕ → Meaning)
        (r : Value) (t : Meaning) (z : ℕ) (under : Made) (s : Table) (m : Memory (List ℕ))
        (core : Core types clock scope act hold type ((r, writes t (token z)) ∷ under) s m)
        → PartsAreLent types clock scope act hold type r t z under s m core }
{}

/// A part whose token isn't in scope any more goes back, the newest of its parent first.
pub fn parts_rejoin()
    ensures { (types : Types) (clock : ℕ) (scope act : ℕ → Bool) (hold : Holds) (type : ℕ → ℕ → Meaning)
        (under : Made) (s : Table) (m : Memory (List ℕ))
        (core : Core types clock scope act hold type under s m)
        → PartsRejoin types clock scope act hold type under s m core }
{}

/// The newest token that is active may end, with all its loans.
pub fn tokens_end()
    ensures { (types : Types) (clock : ℕ) (scope act : ℕ → Bool) (hold : Holds) (type : ℕ → ℕ → Meaning)
        (under : Made) (s : Table) (m : Memory (List ℕ))
        (core : Core types clock scope act hold type under s m)
        → TokensEnd types clock scope act hold type under s m core }
{}

/// A value of a record or a union is made of the newest values, and taken apart.
pub fn records_are_made_and_opened()
    ensures made { (types : Types) (clock : ℕ) (scope act : ℕ → Bool) (hold : Holds)
        (type : ℕ → ℕ → Meaning) (vs under : Made) (s : Table) (m : Memory (List ℕ))
        (core : Core types clock scope act hold type (onto vs under) s m)
        → RecordsAreMade types clock scope act hold type vs under s m core }
    ensures opened { (types : Types) (clock : ℕ) (scope act : ℕ → Bool) (hold : Holds)
        (type : ℕ → ℕ → Meaning) (v : Value) (t : Meaning) (under : Made) (s : Table) (m : Memory (List ℕ))
        (core : Core types clock scope act hold type ((v, t) ∷ under) s m)
        → RecordsOpen types clock scope act hold type v t under s m core }
{}

/// While its token is in scope a read reference leads to a value of its type. It may give way to one to a
/// part of that or to the content of a box, and what it leads to may be copied where it is Free.
pub fn readers_see()
    ensures seen { (types : Types) (clock : ℕ) (scope act : ℕ → Bool) (hold : Holds)
        (type : ℕ → ℕ → Meaning) (r : Value) (t : Meaning) (z : ℕ) (under : Made) (s : Table)
        (m : Memory (List ℕ))
        (core : Core types clock scope act hold type ((r, reads t (token z)) ∷ under) s m)
        → ReadersSee types clock scope act hold type r t z under s m core }
    ensures moved { (types : Types) (clock : ℕ) (scope act : ℕ → Bool) (hold : Holds)
        (type : ℕ → ℕ → Meaning) (r : Value) (t : Meaning) (z : ℕ) (under : Made) (s : Table)
        (m : Memory (List ℕ))
        (core : Core types clock scope act hold type ((r, reads t (token z)) ∷ under) s m)
        → ReadersMove types clock scope act hold type r t z under s m core }
    ensures content { (types : Types) (clock : ℕ) (scope act : ℕ → Bool) (hold : Holds)
        (type : ℕ → ℕ → Meaning) (r : Value) (t : Meaning) (z : ℕ) (under : Made) (s : Table)
        (m : Memory (List ℕ))
        (core : Core types clock scope act hold type ((r, reads t (token z)) ∷ under) s m)
        → ContentsAreSeen types clock scope act hold type r t z under s m core }
    ensures copied { (types : Types) (clock : ℕ) (scope act : ℕ → Bool) (hold : Holds)
        (type : ℕ → ℕ → Meaning) (r : Value) (t : Meaning) (z : ℕ) (under : Made) (s : Table)
        (m : Memory (List ℕ))
        (core : Core types clock scope act hold type ((r, reads t (token z)) ∷ under) s m)
        → ReadersCopy types clock scope act hold type r t z under s m core }
{}

/// What is Free is copied out of a name, and from behind the write reference in one.
pub fn names_are_looked_at()
    ensures looked { (types : Types) (clock : ℕ) (scope act : ℕ → Bool) (hold : Holds)
        (type : ℕ → ℕ → Meaning) (under : Made) (s : Table) (m : Memory (List ℕ))
        (core : Core types clock scope act hold type under s m) (frame x : ℕ)
        → NamesAreLookedAt types clock scope act hold type under s m core frame x }
    ensures behind { (types : Types) (clock : ℕ) (scope act : ℕ → Bool) (hold : Holds)
        (type : ℕ → ℕ → Meaning) (under : Made) (s : Table) (m : Memory (List ℕ))
        (core : Core types clock scope act hold type under s m) (frame x : ℕ)
        → NamesLookBehind types clock scope act hold type under s m core frame x }
{}

/// The newest value is put in the place of a part of Free type: of what a name holds, or behind the write
/// reference in one.
pub fn parts_are_put()
    ensures put { (types : Types) (clock : ℕ) (scope act : ℕ → Bool) (hold : Holds)
        (type : ℕ → ℕ → Meaning) (v : Value) (u : Meaning) (under : Made) (s : Table) (m : Memory (List ℕ))
        (core : Core types clock scope act hold type ((v, u) ∷ under) s m)
        → PartsArePut types clock scope act hold type v u under s m core }
    ensures behind { (types : Types) (clock : ℕ) (scope act : ℕ → Bool) (hold : Holds)
        (type : ℕ → ℕ → Meaning) (v : Value) (u : Meaning) (under : Made) (s : Table) (m : Memory (List ℕ))
        (core : Core types clock scope act hold type ((v, u) ∷ under) s m)
        → PartsArePutBehind types clock scope act hold type v u under s m core }
{}

/// Behind a write reference whose token is in scope the newest value becomes the last element of a buffer,
/// or is exchanged for one.
pub fn items_are_put()
    ensures { (types : Types) (clock : ℕ) (scope act : ℕ → Bool) (hold : Holds) (type : ℕ → ℕ → Meaning)
        (new r : Value) (t of : Meaning) (z : ℕ) (under : Made) (s : Table) (m : Memory (List ℕ))
        (core : Core types clock scope act hold type ((new, of) ∷ (r, writes t (token z)) ∷ under) s m)
        → ItemsArePut types clock scope act hold type new r t of z under s m core }
{}

/// The last element of a buffer may be taken out through such a reference.
pub fn items_are_taken()
    ensures { (types : Types) (clock : ℕ) (scope act : ℕ → Bool) (hold : Holds) (type : ℕ → ℕ → Meaning)
        (r : Value) (t of : Meaning) (z : ℕ) (under : Made) (s : Table) (m : Memory (List ℕ))
        (core : Core types clock scope act hold type ((r, writes t (token z)) ∷ under) s m)
        → ItemsAreTaken types clock scope act hold type r t of z under s m core }
{}

/// A buffer is made without elements, and ends where it has none.
pub fn buffers_are_made_and_end()
    ensures made { (types : Types) (clock : ℕ) (scope act : ℕ → Bool) (hold : Holds)
        (type : ℕ → ℕ → Meaning) (under : Made) (s : Table) (m : Memory (List ℕ))
        (core : Core types clock scope act hold type under s m) (t of : Meaning) (i : ℕ)
        → BuffersAreMade types clock scope act hold type under s m core t of i }
    ensures ended { (types : Types) (clock : ℕ) (scope act : ℕ → Bool) (hold : Holds)
        (type : ℕ → ℕ → Meaning) (v : Value) (t of : Meaning) (under : Made) (s : Table) (m : Memory (List ℕ))
        (core : Core types clock scope act hold type ((v, t) ∷ under) s m)
        → BuffersEnd types clock scope act hold type v t of under s m core }
{}

/// While its token is in scope a read reference to a buffer leads to its elements, and what is Free is
/// copied.
pub fn items_are_seen()
    ensures { (types : Types) (clock : ℕ) (scope act : ℕ → Bool) (hold : Holds) (type : ℕ → ℕ → Meaning)
        (r : Value) (t : Meaning) (z : ℕ) (under : Made) (s : Table) (m : Memory (List ℕ))
        (core : Core types clock scope act hold type ((r, reads t (token z)) ∷ under) s m)
        → ItemsAreSeen types clock scope act hold type r t z under s m core }
{}
