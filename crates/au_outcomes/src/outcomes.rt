//! What a program comes to before it runs, and why it is not run.

use crate::Refusal;
use au_base::{Limit, Text};
use au_caps::Report;
use au_explain::{Lives, NotedProgram};

/// What is asked of the program of files.
#[derive(Clone, Copy, Debug, PartialEq, Eq)]
pub enum Aim {
    /// To run.
    Run,
    /// To be compiled.
    Compile,
    /// To be judged, and no more.
    Check,
    /// To tell the lives of its variables.
    Explain,
    /// To be laid out, and not to be judged.
    Format,
    /// To tell what its functions can do with capabilities.
    Caps,
}

/// What words and files come to, where nothing fails and memory is there.
#[derive(Drop)]
pub enum Outcome {
    /// The words are no job.
    NoJob,
    /// No file has this name.
    Missing(Text),
    /// A quantity passes its limit.
    Passes(Limit),
    /// The program is refused.
    Refused(Refusal),
    /// The program is accepted, and no more is asked of it.
    Accepted,
    /// The program is accepted, and these are the lives of its variables.
    Explained(Lives),
    /// The files have trees, and this is their layout.
    Laid(Text),
    /// The program is accepted, and this is what its functions can do with capabilities.
    Reported(Report),
    /// The program is accepted, and it is to run.
    Runs(NotedProgram),
    /// The program is accepted, and it is to be compiled.
    Compiles(NotedProgram),
}
