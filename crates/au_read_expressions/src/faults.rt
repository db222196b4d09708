//! Why reading stops.

use au_base::{Limit, Memory};
use std::alloc::{AllocError, AllocFailed};

/// What is wrong with tokens, with the number of tokens that are left from there on.
#[derive(Clone, Copy, Debug, PartialEq, Eq)]
pub enum Fault {
    /// A token that doesn't fit, or none is left.
    Syntax(usize),
    /// What is read passes a limit.
    Passed(Limit, usize),
}

/// Why reading stops: no memory, or what is wrong with the tokens.
#[derive(Debug, Drop)]
pub enum Stop {
    /// No memory was found.
    Memory,
    /// The tokens are not read.
    Fault(Fault),
}

impl From<Memory> for Stop {
    ghost use Rattle.std.specs.Prelude.{◌≡◌};
    ghost use Rattle.au_read_expressions.specs.declared.faults.Stop.TheVariants as stop;

    ghost from_gives = { λ _ e. e ≡ stop.Memory };

    fn from(_e: Memory) -> Stop {
        Stop::Memory
    }
}

impl From<AllocError> for Stop {
    ghost use Rattle.std.specs.Prelude.{◌≡◌};
    ghost use Rattle.au_read_expressions.specs.declared.faults.Stop.TheVariants as stop;

    ghost from_gives = { λ _ e. e ≡ stop.Memory };

    fn from(_e: AllocError) -> Stop {
        Stop::Memory
    }
}

impl<T: Drop> From<AllocFailed<T>> for Stop {
    ghost use Rattle.std.specs.Prelude.{◌≡◌};
    ghost use Rattle.au_read_expressions.specs.declared.faults.Stop.TheVariants as stop;

    ghost from_gives = { λ _ e. e ≡ stop.Memory };

    fn from(_e: AllocFailed<T>) -> Stop {
        Stop::Memory
    }
}
