//! Why it is known what a program comes to before it is whole, or why it isn't known.

ghost use Rattle.std.specs.Prelude.{◌≡◌};
ghost use Rattle.au_outcomes.specs.Halts.{known_or_memory, lex_halt};
ghost use Rattle.au_outcomes.specs.Programs.{class_outcome, declaration_outcome, import_outcome};
ghost use Rattle.au_outcomes.specs.Programs.{life_outcome, module_outcome, type_outcome};
ghost use Rattle.au_outcomes.specs.declared.halts.CheckFault.TheVariants as fault;
ghost use Rattle.au_outcomes.specs.declared.halts.Halt.TheVariants as halt;

use crate::Refusal;
use crate::outcomes::Outcome;
use au_base::Memory;
use au_classes::ClassFault;
use au_imports::ImportFault;
use au_lexer::LexFault;
use au_modules::ModuleFault;
use au_program_lives::LinearFault;
use au_rules::DeclFault;
use au_sights::TypeFault;
use std::alloc::{AllocError, AllocFailed};
use thiserror::Error;

/// Why it isn't known what a program comes to.
#[derive(Clone, Copy, Debug, PartialEq, Eq, Error)]
pub enum CheckFault {
    /// The shelf failed.
    #[error("a file could not be read")]
    Read,
    /// No memory was found.
    #[error("out of memory")]
    Memory,
}

/// Why a step ends the call.
#[derive(Drop)]
pub enum Halt {
    /// It is known what the program comes to.
    Known(Outcome),
    /// It isn't known.
    Unknown(CheckFault),
}

impl From<Memory> for Halt {
    ghost from_gives = { λ _ e. e ≡ halt.Unknown fault.Memory };

    fn from(_e: Memory) -> Halt {
        Halt::Unknown(CheckFault::Memory)
    }
}

impl From<AllocError> for Halt {
    ghost from_gives = { λ _ e. e ≡ halt.Unknown fault.Memory };

    fn from(_e: AllocError) -> Halt {
        Halt::Unknown(CheckFault::Memory)
    }
}

impl<T: Drop> From<AllocFailed<T>> for Halt {
    ghost from_gives = { λ _ e. e ≡ halt.Unknown fault.Memory };

    fn from(_e: AllocFailed<T>) -> Halt {
        Halt::Unknown(CheckFault::Memory)
    }
}

impl From<LexFault> for Halt {
    ghost from_gives = { λ e h. h ≡ lex_halt e };

    fn from(e: LexFault) -> Halt {
        match e {
            LexFault::Byte(at) => Halt::Known(Outcome::Refused(Refusal::Byte(at))),
            LexFault::Limit(limit) => Halt::Known(Outcome::Passes(limit)),
            LexFault::Memory => Halt::Unknown(CheckFault::Memory),
        }
    }
}

impl From<ModuleFault> for Halt {
    ghost from_gives = { λ e h. h ≡ known_or_memory (module_outcome e) };

    fn from(e: ModuleFault) -> Halt {
        match e {
            ModuleFault::Limit(limit) => Halt::Known(Outcome::Passes(limit)),
            ModuleFault::Memory => Halt::Unknown(CheckFault::Memory),
            fault => Halt::Known(Outcome::Refused(Refusal::Pair(fault))),
        }
    }
}

impl From<ImportFault> for Halt {
    ghost from_gives = { λ e h. h ≡ known_or_memory (import_outcome e) };

    fn from(e: ImportFault) -> Halt {
        match e {
            ImportFault::Memory => Halt::Unknown(CheckFault::Memory),
            fault => Halt::Known(Outcome::Refused(Refusal::Import(fault))),
        }
    }
}

impl From<DeclFault> for Halt {
    ghost from_gives = { λ e h. h ≡ known_or_memory (declaration_outcome e) };

    fn from(e: DeclFault) -> Halt {
        match e {
            DeclFault::Memory => Halt::Unknown(CheckFault::Memory),
            fault => Halt::Known(Outcome::Refused(Refusal::Declaration(fault))),
        }
    }
}

impl From<ClassFault> for Halt {
    ghost from_gives = { λ e h. h ≡ known_or_memory (class_outcome e) };

    fn from(e: ClassFault) -> Halt {
        match e {
            ClassFault::Memory => Halt::Unknown(CheckFault::Memory),
            fault => Halt::Known(Outcome::Refused(Refusal::Instance(fault))),
        }
    }
}

impl From<TypeFault> for Halt {
    ghost from_gives = { λ e h. h ≡ known_or_memory (type_outcome e) };

    fn from(e: TypeFault) -> Halt {
        match e {
            TypeFault::Limit(limit) => Halt::Known(Outcome::Passes(limit)),
            TypeFault::Memory => Halt::Unknown(CheckFault::Memory),
            fault => Halt::Known(Outcome::Refused(Refusal::Typing(fault))),
        }
    }
}

impl From<LinearFault> for Halt {
    ghost from_gives = { λ e h. h ≡ known_or_memory (life_outcome e) };

    fn from(e: LinearFault) -> Halt {
        match e {
            LinearFault::Memory => Halt::Unknown(CheckFault::Memory),
            fault => Halt::Known(Outcome::Refused(Refusal::Linear(fault))),
        }
    }
}
