//! What can be wrong with a case file.

use std::alloc::{AllocError, AllocFailed};

/// What is wrong with a line of a case file.
#[derive(Clone, Copy)]
pub enum LineFault {
    /// The line belongs to a case, and none has begun.
    NoCase,
    /// The line gives bytes, and no head above it takes them.
    NoRoom,
    /// The line is no head of a case.
    NoHead,
    /// The value isn't numbers that fit.
    NoNumber,
    /// The line isn't UTF-8.
    NoText,
    /// No memory was found.
    Memory,
}

impl LineFault {
    /// The fault in words.
    pub fn words(self) -> &'static str {
        match self {
            LineFault::NoCase => "no case has begun",
            LineFault::NoRoom => "no head takes these bytes",
            LineFault::NoHead => "no such head",
            LineFault::NoNumber => "no such number",
            LineFault::NoText => "a head that isn't UTF-8",
            LineFault::Memory => "out of memory",
        }
    }
}

impl From<AllocError> for LineFault {
    fn from(_e: AllocError) -> LineFault {
        LineFault::Memory
    }
}

impl<T: Drop> From<AllocFailed<T>> for LineFault {
    fn from(_e: AllocFailed<T>) -> LineFault {
        LineFault::Memory
    }
}

/// A case file that can't be read: the first line with something wrong, counted from 1, and what it is.
#[derive(Clone, Copy)]
pub struct Malformed {
    /// The line.
    pub line: usize,
    /// What is wrong with it.
    pub fault: LineFault,
}
