//! Why a layout isn't written whole.

ghost use Rattle.std.specs.Prelude.{◌≡◌};

use au_base::{Memory, WriteFault};
use thiserror::Error;

/// Why a layout isn't written whole.
#[derive(Clone, Copy, Debug, PartialEq, Eq, Error)]
pub enum FormatFault {
    /// The sink failed.
    #[error("the sink failed")]
    Write,
    /// No memory was found.
    #[error("out of memory")]
    Memory,
}

impl From<Memory> for FormatFault {
    ghost use Rattle.au_format.specs.declared.faults.FormatFault.TheVariants as fault;

    ghost from_gives = { λ _ e. e ≡ fault.Memory };

    fn from(_e: Memory) -> FormatFault {
        FormatFault::Memory
    }
}

impl From<WriteFault> for FormatFault {
    ghost use Rattle.au_format.specs.declared.faults.FormatFault.TheVariants as fault;

    ghost from_gives = { λ _ e. e ≡ fault.Write };

    fn from(_e: WriteFault) -> FormatFault {
        FormatFault::Write
    }
}
