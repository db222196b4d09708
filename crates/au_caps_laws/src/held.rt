//! Laws of what names hold while an accepted program runs.

ghost use Rattle.au_caps_laws.specs.Held.{AcceptedCallsAreHeld, AcceptedEntriesAreListed};
ghost use Rattle.au_caps_laws.specs.Held.{AcceptedRunsAreListed};

/// Wherever a run of an accepted program from an entry is cut off, each name that holds something holds a
/// value of a type that reaches only what the function or method of its frame holds, by the report's list, or
/// what is given for its type parameters reaches; and so it is wherever each call is cut off.
pub fn names_hold_what_is_listed()
    ensures ways { AcceptedRunsAreListed }
    ensures calls { AcceptedCallsAreHeld }
    ensures entries { AcceptedEntriesAreListed }
{}
