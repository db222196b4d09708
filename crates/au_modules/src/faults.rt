//! Why files are no program.

ghost use Rattle.std.specs.Prelude.{◌≡◌};
ghost use Rattle.au_modules.specs.declared.faults.ModuleFault.TheVariants as fault;

use au_base::{Limit, Memory, Name, Pos};
use thiserror::Error;

/// Why files were not taken as the modules of a program.
#[derive(Debug, Drop, Error)]
pub enum ModuleFault {
    /// An earlier file gave this part of the module of this name, or it's the name of a shipped module.
    #[error("a module is given twice")]
    TwiceGiven(Name),
    /// The module of this name has an interface and no body.
    #[error("a module has no body")]
    NoBody(Name),
    /// A module of the user has the pragma of unsafe modules, at this place.
    #[error("a module is unsafe")]
    Unsafe(Pos),
    /// A declaration passes this limit.
    #[error("a limit is passed")]
    Limit(Limit),
    /// No memory was found.
    #[error("out of memory")]
    Memory,
}

impl From<Memory> for ModuleFault {
    ghost from_gives = { λ _ e. e ≡ fault.Memory };

    fn from(_fault: Memory) -> ModuleFault {
        ModuleFault::Memory
    }
}
