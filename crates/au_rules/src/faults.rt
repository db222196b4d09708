//! Why declarations are refused.

ghost use Rattle.std.specs.Prelude.{◌≡◌};
ghost use Rattle.au_rules.specs.declared.faults.DeclFault.TheVariants as fault;

use au_base::{Memory, Name, Pos};
use thiserror::Error;

/// Why a declaration is refused.
#[derive(Debug, Drop, Error)]
pub enum DeclFault {
    /// The field at this place has a type that is above the universe of its record or union.
    #[error("a field is above its universe")]
    UniverseBelow(Pos),
    /// The type that is declared at this place leads back to itself.
    #[error("a type is infinite")]
    Infinite(Pos),
    /// The union at this place has no case.
    #[error("a union has no case")]
    EmptyUnion(Pos),
    /// The name at this place is declared again while it is in scope.
    #[error("a name is declared again")]
    Again(Pos, Name),
    /// What is written at this place isn't well formed: a type, a name that stands for a class, or the
    /// universe of what stands there.
    #[error("a type is malformed")]
    Malformed(Pos),
    /// No memory was found.
    #[error("out of memory")]
    Memory,
}

impl From<Memory> for DeclFault {
    ghost from_gives = { λ _ e. e ≡ fault.Memory };

    fn from(_fault: Memory) -> DeclFault {
        DeclFault::Memory
    }
}
