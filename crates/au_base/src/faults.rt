//! Running out of memory.

use std::alloc::{AllocError, AllocFailed};
use thiserror::Error;

/// No memory was found. Every call that allocates may answer it, and no clause says when.
#[derive(Clone, Copy, Debug, PartialEq, Eq, Error)]
#[error("out of memory")]
pub struct Memory;

impl From<AllocError> for Memory {
    fn from(_e: AllocError) -> Memory {
        Memory
    }
}

impl<T: Drop> From<AllocFailed<T>> for Memory {
    fn from(_e: AllocFailed<T>) -> Memory {
        Memory
    }
}
