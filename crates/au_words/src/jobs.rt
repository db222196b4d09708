//! What the words of a command line ask for.

use au_base::{Entry, Memory};
use clap::error::ErrorKind;
use std::alloc::{AllocError, AllocFailed};
use thiserror::Error;

/// What to do with a program.
#[derive(Clone, Copy, Debug, PartialEq, Eq)]
pub enum Command {
    /// Run it.
    Run,
    /// Compile it.
    Compile,
    /// Say why it is refused.
    Explain,
    /// Say whether it is refused.
    Check,
    /// Lay out a file.
    Format,
    /// Tell what its functions can do with capabilities.
    Caps,
}

/// A command, and what it is to work on.
#[derive(Debug, Drop)]
pub struct Job {
    pub command: Command,
    /// The names of the program's files in order.
    pub files: Vec<String>,
    /// The function that the program begins with, if it is given.
    pub entry: Option<Entry>,
    /// How many steps a run may take.
    pub steps: u64,
    /// Whether the lives of values are told.
    pub life: bool,
}

/// Why words are no job.
#[derive(Clone, Copy, Debug, PartialEq, Eq, Error)]
pub enum WordsFault {
    /// The words ask for nothing that the program does.
    #[error("the words are no job")]
    NoJob,
    /// No memory was found.
    #[error("out of memory")]
    Memory,
}

impl From<AllocError> for WordsFault {
    ghost use Rattle.std.specs.Prelude.{◌≡◌};
    ghost use Rattle.au_words.specs.declared.jobs.WordsFault.TheVariants as fault;

    ghost from_gives = { λ _ e. e ≡ fault.Memory };

    fn from(_e: AllocError) -> WordsFault {
        WordsFault::Memory
    }
}

impl<T: Drop> From<AllocFailed<T>> for WordsFault {
    ghost use Rattle.std.specs.Prelude.{◌≡◌};
    ghost use Rattle.au_words.specs.declared.jobs.WordsFault.TheVariants as fault;

    ghost from_gives = { λ _ e. e ≡ fault.Memory };

    fn from(_e: AllocFailed<T>) -> WordsFault {
        WordsFault::Memory
    }
}

impl From<Memory> for WordsFault {
    ghost use Rattle.std.specs.Prelude.{◌≡◌};
    ghost use Rattle.au_words.specs.declared.jobs.WordsFault.TheVariants as fault;

    ghost from_gives = { λ _ e. e ≡ fault.Memory };

    fn from(_e: Memory) -> WordsFault {
        WordsFault::Memory
    }
}

impl From<clap::Error> for WordsFault {
    ghost use Rattle.std.specs.Prelude.{◌≡◌, ◌≢◌};
    ghost use Rattle.clap.specs.Words.{kind_of};
    ghost use Rattle.clap.specs.declared.error.kind.ErrorKind.TheVariants as kind;
    ghost use Rattle.au_words.specs.declared.jobs.WordsFault.TheVariants as fault;

    ghost from_gives = { λ error e. (kind_of error ≡ kind.OutOfMemory → e ≡ fault.Memory)
        × (kind_of error ≢ kind.OutOfMemory → e ≡ fault.NoJob) };

    fn from(error: clap::Error) -> WordsFault {
        match error.kind() {
            ErrorKind::OutOfMemory => WordsFault::Memory,
            _ => WordsFault::NoJob,
        }
    }
}
