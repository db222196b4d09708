//! Why a program is refused.

ghost use Rattle.std.specs.Prelude.{◌≡◌};
ghost use Rattle.au_program_lives.specs.declared.faults.LinearFault.TheVariants as fault;

use crate::choices::Choices;
use au_base::{Memory, Name, Pos};
use au_lives::lives::LifeKind;
use thiserror::Error;

/// Why a program is refused: a variable has no good life.
#[derive(Debug, Drop, Error)]
pub enum LinearFault {
    /// A path through the scope of the variable breaks its life.
    #[error("a path breaks the life of a variable")]
    Life {
        /// The name of the function or method.
        function: Name,
        /// The name of the variable.
        variable: Name,
        /// Where the variable is declared.
        at: Pos,
        /// How its life is broken, the first way on the path.
        kind: LifeKind,
        /// The path.
        path: Choices,
    },
    /// The variable is consumed in a loop.
    #[error("a variable is consumed in a loop")]
    InLoop {
        /// The name of the variable.
        variable: Name,
        /// The first such place.
        at: Pos,
    },
    /// The variable is consumed where an expression may leave out to look.
    #[error("a variable is consumed in a part")]
    InPart {
        /// The name of the variable.
        variable: Name,
        /// The first such place.
        at: Pos,
    },
    /// No memory was found.
    #[error("out of memory")]
    Memory,
}

impl From<Memory> for LinearFault {
    ghost from_gives = { λ _ e. e ≡ fault.Memory };

    fn from(_fault: Memory) -> LinearFault {
        LinearFault::Memory
    }
}
