//! Why the table of a program's instances isn't good.

ghost use Rattle.std.specs.Prelude.{◌≡◌};
ghost use Rattle.au_classes.specs.declared.faults.ClassFault.TheVariants as fault;

use au_base::{Memory, Pos};
use thiserror::Error;

/// Why the table of a program's instances isn't good. An instance stands at its first token: in the
/// interface, where it's declared there.
#[derive(Debug, Drop, Error)]
pub enum ClassFault {
    /// The instance at the first place is for the class and the head constructor of an earlier one, at the
    /// second.
    #[error("an instance overlaps another")]
    Overlap(Pos, Pos),
    /// The instance stands neither in the module of its class nor in that of its head type.
    #[error("an instance is an orphan")]
    Orphan(Pos),
    /// The head of the instance has no constructor, isn't over distinct parameters or closed types, lacks a
    /// type parameter of the instance, or doesn't fit the universe of the class's parameter.
    #[error("the head of an instance is bad")]
    BadHead(Pos),
    /// A method of the instance's class is missing, one is added, or one has another signature.
    #[error("a method of an instance differs from its class's")]
    MethodDiffers(Pos),
    /// No memory was found.
    #[error("out of memory")]
    Memory,
}

impl From<Memory> for ClassFault {
    ghost from_gives = { λ _ e. e ≡ fault.Memory };

    fn from(_fault: Memory) -> ClassFault {
        ClassFault::Memory
    }
}
