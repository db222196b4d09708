//! From the words of a command line to the job that they ask for.
//!
//! `specs/Jobs.antt` says what the jobs are and how words spell them, `read_words` reads them by `clap`, and
//! `laws` says that words ask for one job at most.
#![tactic(auto)]

mod counts;
mod jobs;
pub mod laws;
mod names;
mod program;
mod values;
mod words;

pub use jobs::{Command, Job, WordsFault};
pub use words::read_words;
