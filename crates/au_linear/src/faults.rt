//! Why a body is refused.

ghost use Rattle.std.specs.Prelude.{◌≡◌};
ghost use Rattle.au_linear.specs.declared.faults.LinearFault.TheVariants as fault;

use au_base::{Memory, Name, Pos};
use au_lives::lives::LifeKind;
use thiserror::Error;

/// Why a variable has no good life.
#[derive(Debug, Drop)]
pub enum Why {
    /// It is consumed in a loop, at this place first.
    InLoop(Pos),
    /// It is consumed where an expression may leave out to look, at this place first.
    InPart(Pos),
    /// A path breaks its life in this way first: the number of each choice that the path makes, up to the
    /// last that isn't 0.
    OnPath(LifeKind, Vec<usize>),
}

/// A variable that has no good life.
#[derive(Debug, Drop)]
pub struct Refused {
    /// Its name.
    pub variable: Name,
    /// Where it is declared.
    pub at: Pos,
    /// What is wrong with its life.
    pub why: Why,
}

/// Why a body is refused.
#[derive(Debug, Drop, Error)]
pub enum LinearFault {
    /// A variable has no good life.
    #[error("a variable has no good life")]
    Refused(Refused),
    /// No memory was found.
    #[error("out of memory")]
    Memory,
}

impl From<Memory> for LinearFault {
    ghost from_gives = { λ _ e. e ≡ fault.Memory };

    fn from(_fault: Memory) -> LinearFault {
        LinearFault::Memory
    }
}
