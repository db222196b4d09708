//! Laws of the definitions, each as the contract of a call that does nothing: programs of a few
//! instructions, and what they do.

ghost use Rattle.au_low.specs.Kept.{KeepingChangesEventsAlone};
ghost use Rattle.au_low.specs.Shown.{OperandsAreShown, SlotsAreShown, CallsAreShown, BorrowsAreShown};
ghost use Rattle.au_low.specs.ShownCalls.{PrintsAreShown, BoxesAreShown, BuffersAreShown, TerminalsAreShown};
ghost use Rattle.au_low.specs.ShownStuck.{MissingIsStuck, OtherIsStuck, BeginningIsShown};

/// Instructions that push, operate on operands and go to labels.
pub fn operands_are_shown()
    ensures { OperandsAreShown }
{}

/// Instructions on slots, records and unions.
pub fn slots_are_shown()
    ensures { SlotsAreShown }
{}

/// Calls, returns and exits.
pub fn calls_are_shown()
    ensures { CallsAreShown }
{}

/// Borrows and uses.
pub fn borrows_are_shown()
    ensures { BorrowsAreShown }
{}

/// Printing, texts, the abort of a call, and a swap.
pub fn prints_are_shown()
    ensures { PrintsAreShown }
{}

/// Boxes.
pub fn boxes_are_shown()
    ensures { BoxesAreShown }
{}

/// Buffers.
pub fn buffers_are_shown()
    ensures { BuffersAreShown }
{}

/// The root and the terminal.
pub fn terminals_are_shown()
    ensures { TerminalsAreShown }
{}

/// Where something isn't there, no rule applies.
pub fn missing_is_stuck()
    ensures { MissingIsStuck }
{}

/// Where something isn't of the form that is wanted, no rule applies.
pub fn other_is_stuck()
    ensures { OtherIsStuck }
{}

/// Where a run begins, and where it can't.
pub fn beginning_is_shown()
    ensures { BeginningIsShown }
{}

/// A run whose events aren't kept is the run whose events are, but for the events.
pub fn keeping_changes_events_alone()
    ensures { KeepingChangesEventsAlone }
{}
