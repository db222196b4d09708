//! Laws of the types of good trees, each as the contract of a call that does nothing.

ghost use Rattle.au_known_types.specs.Laws.{BoundScopesAreKnown, CallsAreKnown, NamedCallsAreKnown};
ghost use Rattle.au_known_types.specs.Laws.{NotesAreKnown};
ghost use Rattle.au_known_types.specs.Laws.{ScopesStayKnown, TestsAreOne};

/// The type of a good expression is known where what is wanted of it is.
pub fn notes_are_known()
    ensures { NotesAreKnown }
{}

/// What a good call puts for type parameters is known and fits them, and fixes all that is written over them.
pub fn calls_are_known()
    ensures in_order { CallsAreKnown }
    ensures by_labels { NamedCallsAreKnown }
{}

/// Scopes stay known.
pub fn scopes_stay_known()
    ensures behind { ScopesStayKnown }
    ensures bound { BoundScopesAreKnown }
{}

/// The test of typing for `~` is that of types which outlast a whole expression.
pub fn tests_are_one()
    ensures { TestsAreOne }
{}
