//! Why a program isn't well typed.

ghost use Rattle.std.specs.Prelude.{◌≡◌};
ghost use Rattle.au_sights.specs.declared.faults.TypeFault.TheVariants as fault;

use au_base::{IntKind, Limit, Memory, Name, Pos, Text};
use thiserror::Error;

/// What is wanted of a part that has another form.
#[derive(Clone, Copy, Debug)]
pub enum Form {
    /// A record that is known there.
    Record,
    /// A union that is known there.
    Union,
    /// A reference.
    Reference,
    /// A write reference.
    WriteReference,
    /// An integer.
    Integer,
    /// A variable that may be assigned to.
    Assignable,
    /// A Linear type.
    Linear,
    /// A region.
    Region,
    /// So many arguments.
    Arguments(usize),
    /// Each label once.
    Labels,
    /// Each case once.
    Arms,
    /// A number in the range of this kind.
    Range(IntKind),
}

/// Why a statement isn't well typed: the clause of a rule that fails. While notes are looked for, it names
/// types and classes as they are; where it is told, by their texts.
#[derive(Debug, Drop)]
pub enum Why<Type, Class> {
    /// The name means nothing there.
    Unknown(Name),
    /// Another type is wanted than is found.
    Different {
        /// The type that is wanted.
        wanted: Type,
        /// The type that is found.
        found: Type,
    },
    /// The call leaves this type parameter unfixed.
    Unfixed(Name),
    /// The class has no instance at the type.
    NoInstance {
        /// The class.
        class: Class,
        /// The type.
        of: Type,
    },
    /// The type isn't Free.
    NotFree {
        /// The type.
        of: Type,
    },
    /// Another form is wanted.
    Shape {
        /// The form that is wanted.
        wanted: Form,
    },
    /// The statement stands after a return.
    AfterReturn,
    /// A path through the function ends without a return.
    FallsOut,
}

/// Why a program isn't well typed.
#[derive(Debug, Drop, Error)]
pub enum TypeFault {
    /// The statement at this place isn't well typed.
    #[error("a statement is not well typed")]
    Statement {
        /// The place of the statement.
        at: Pos,
        /// What is wrong with it.
        why: Why<Text, Text>,
    },
    /// A type that is noted passes a limit.
    #[error("a limit is passed")]
    Limit(Limit),
    /// No memory was found.
    #[error("out of memory")]
    Memory,
}

impl From<Memory> for TypeFault {
    ghost from_gives = { λ _ e. e ≡ fault.Memory };

    fn from(_fault: Memory) -> TypeFault {
        TypeFault::Memory
    }
}
