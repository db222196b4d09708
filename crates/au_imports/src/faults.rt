//! Why modules are refused for their names and promises.

ghost use Rattle.std.specs.Prelude.{◌≡◌};
ghost use Rattle.au_imports.specs.Importing as spec;
ghost use Rattle.au_imports.specs.declared.faults.ImportFault.TheVariants as fault;

use crate::name_faults::NameFault;
use au_base::{Memory, Name, Pos};
use au_promises::PromiseFault;
use thiserror::Error;

/// Why modules are refused for their names and promises.
#[derive(Debug, Drop, Error)]
pub enum ImportFault {
    /// An import names a module, at this place, that the program doesn't have.
    #[error("there is no such module")]
    NoModule(Pos, Name),
    /// An import names a module, at this place, that stands later, or the module itself.
    #[error("a module stands later")]
    Late(Pos, Name),
    /// The name at this place isn't offered by the interface that it is imported from, or it is written for a
    /// type, a class or a region and means nothing.
    #[error("a name is not visible")]
    NotVisible(Pos, Name),
    /// The name at this place means something else already.
    #[error("a name has two meanings")]
    NameTwice(Pos, Name),
    /// What the interface declares at this place isn't defined by the body.
    #[error("a declaration is not defined")]
    NotDefined(Pos, Name),
    /// What the interface declares at the first place, the body defines differently at the second.
    #[error("a definition differs from its declaration")]
    Differs(Pos, Pos, Name),
    /// No memory was found.
    #[error("out of memory")]
    Memory,
}

impl From<Memory> for ImportFault {
    ghost from_gives = { λ _ e. e ≡ fault.Memory };

    fn from(_fault: Memory) -> ImportFault {
        ImportFault::Memory
    }
}

impl From<NameFault> for ImportFault {
    ghost from_gives = { λ f e. e ≡ spec.of_names f };

    fn from(found: NameFault) -> ImportFault {
        match found {
            NameFault::NoModule(at, name) => ImportFault::NoModule(at, name),
            NameFault::Late(at, name) => ImportFault::Late(at, name),
            NameFault::NotVisible(at, name) => ImportFault::NotVisible(at, name),
            NameFault::NameTwice(at, name) => ImportFault::NameTwice(at, name),
        }
    }
}

impl From<PromiseFault> for ImportFault {
    ghost from_gives = { λ f e. e ≡ spec.of_promises f };

    fn from(found: PromiseFault) -> ImportFault {
        match found {
            PromiseFault::NotDefined(at, name) => ImportFault::NotDefined(at, name),
            PromiseFault::Differs(at, other, name) => ImportFault::Differs(at, other, name),
        }
    }
}
