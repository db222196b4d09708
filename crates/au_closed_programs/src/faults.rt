//! Why a program isn't closed.

use au_base::{Limit, Pos};
use thiserror::Error;

/// Why a program isn't closed.
#[derive(Clone, Copy, Debug, PartialEq, Eq, Error)]
pub enum CloseFault {
    /// No module of the name has a body with a function of the name.
    #[error("there is no such entry")]
    NoEntry,
    /// The function at this place hasn't the form of an entry.
    #[error("a function of another form can't be the entry")]
    BadEntry(Pos),
    /// The first instance, breadth first, that passes a limit.
    #[error("a limit is passed")]
    Limit(Limit),
    /// Memory ran out.
    #[error("out of memory")]
    Memory,
}
