//! Why a program isn't lowered.

use au_base::Limit;
use thiserror::Error;

/// Why a program isn't lowered.
#[derive(Clone, Copy, Debug, PartialEq, Eq, Error)]
pub enum LowerFault {
    /// It has more instructions than a program may have.
    #[error("a limit is passed")]
    Limit(Limit),
    /// Memory ran out.
    #[error("out of memory")]
    Memory,
}
