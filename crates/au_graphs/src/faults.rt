//! Why a walk gives no list.

use au_base::{Limit, Memory};
use std::alloc::{AllocError, AllocFailed};
use thiserror::Error;

/// Why a walk gives no list.
#[derive(Clone, Copy, Debug, PartialEq, Eq, Error)]
pub enum WalkFault {
    /// The first element, breadth first, that passes a limit.
    #[error("a limit is passed")]
    Limit(Limit),
    /// No memory was found.
    #[error("out of memory")]
    Memory,
}

impl From<Memory> for WalkFault {
    ghost use Rattle.std.specs.Prelude.{◌≡◌};
    ghost use Rattle.au_graphs.specs.declared.faults.WalkFault.TheVariants as faults;

    ghost from_gives = { λ _ e. e ≡ faults.Memory };

    fn from(_e: Memory) -> WalkFault {
        WalkFault::Memory
    }
}

impl From<AllocError> for WalkFault {
    ghost use Rattle.std.specs.Prelude.{◌≡◌};
    ghost use Rattle.au_graphs.specs.declared.faults.WalkFault.TheVariants as faults;

    ghost from_gives = { λ _ e. e ≡ faults.Memory };

    fn from(_e: AllocError) -> WalkFault {
        WalkFault::Memory
    }
}

impl<T: Drop> From<AllocFailed<T>> for WalkFault {
    ghost use Rattle.std.specs.Prelude.{◌≡◌};
    ghost use Rattle.au_graphs.specs.declared.faults.WalkFault.TheVariants as faults;

    ghost from_gives = { λ _ e. e ≡ faults.Memory };

    fn from(_e: AllocFailed<T>) -> WalkFault {
        WalkFault::Memory
    }
}
