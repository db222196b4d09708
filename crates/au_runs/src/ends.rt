//! How a call of `run` ends.

use au_shipped::AbortKind;

/// How a run of at most so many steps ended, or what kept it from its end.
#[derive(Clone, Copy, Debug, PartialEq, Eq)]
pub enum End {
    /// The entry returned success or failure.
    Exit(bool),
    /// The program aborted.
    Abort(AbortKind),
    /// So many steps were made, and the program hasn't ended.
    Steps,
    /// No rule applies to the next instruction.
    Stuck,
    /// The program waits for a byte of the input, which couldn't be read.
    ReadFault,
    /// Bytes that the program writes couldn't be written.
    WriteFault,
}
