//! How a run of lowered code ends.

use au_shipped::AbortKind;

/// How a run of at most so many steps ends.
#[derive(Clone, Copy, Debug, PartialEq, Eq)]
pub enum Ending {
    /// The entry returned success or failure.
    Exit(bool),
    /// The program aborted.
    Abort(AbortKind),
    /// So many steps were made, and the program hasn't ended.
    Steps,
    /// No rule applies to the next instruction.
    Stuck,
}
