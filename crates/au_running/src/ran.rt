//! How a run of a program ended, or why it didn't begin, and what is told of it.

use au_base::{Limit, Text};

/// How a run of a program ended, or why it didn't begin.
#[derive(Drop)]
pub enum Ran {
    /// There is no such entry, or it hasn't the form of one.
    NoEntry,
    /// An instance, the instances or the code of the program pass a limit.
    Limit(Limit),
    /// The entry returned success or failure.
    Exit(bool),
    /// The program aborted, for a cause that is told in these words: for a call of `abort` its text.
    Abort(Text),
    /// The steps were spent, and the program hasn't ended.
    Steps,
    /// The input couldn't be read.
    ReadFault,
    /// What the program writes couldn't be written.
    WriteFault,
}

/// What is told of a run of a program.
#[derive(Drop)]
pub struct Report {
    /// How it ended, or why it didn't begin.
    pub ran: Ran,
    /// The lines of its events, if they were to be told.
    pub events: Vec<u8>,
}
