//! Why a report isn't written whole.

ghost use Rattle.std.specs.Prelude.{◌≡◌};

use au_base::{Memory, WriteFault};
use thiserror::Error;

/// Why a report isn't written whole.
#[derive(Clone, Copy, Debug, PartialEq, Eq, Error)]
pub enum CapsFault {
    /// The sink failed.
    #[error("the sink failed")]
    Write,
    /// No memory was found.
    #[error("out of memory")]
    Memory,
}

impl From<Memory> for CapsFault {
    ghost use Rattle.au_caps_text.specs.declared.faults.CapsFault.TheVariants as fault;

    ghost from_gives = { λ _ e. e ≡ fault.Memory };

    fn from(_e: Memory) -> CapsFault {
        CapsFault::Memory
    }
}

impl From<WriteFault> for CapsFault {
    ghost use Rattle.au_caps_text.specs.declared.faults.CapsFault.TheVariants as fault;

    ghost from_gives = { λ _ e. e ≡ fault.Write };

    fn from(_e: WriteFault) -> CapsFault {
        CapsFault::Write
    }
}
