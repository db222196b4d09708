//! Why C text isn't written whole.

ghost use Rattle.std.specs.Prelude.{◌≡◌};

use au_base::{Memory, WriteFault};
use thiserror::Error;

/// Why C text isn't written whole.
#[derive(Clone, Copy, Debug, PartialEq, Eq, Error)]
pub enum PrintFault {
    /// The sink failed.
    #[error("the sink failed")]
    Write,
    /// No memory was found.
    #[error("out of memory")]
    Memory,
}

impl From<Memory> for PrintFault {
    ghost use Rattle.au_cprint.specs.declared.faults.PrintFault.TheVariants as fault;

    ghost from_gives = { λ _ e. e ≡ fault.Memory };

    fn from(_e: Memory) -> PrintFault {
        PrintFault::Memory
    }
}

impl From<WriteFault> for PrintFault {
    ghost use Rattle.au_cprint.specs.declared.faults.PrintFault.TheVariants as fault;

    ghost from_gives = { λ _ e. e ≡ fault.Write };

    fn from(_e: WriteFault) -> PrintFault {
        PrintFault::Write
    }
}
