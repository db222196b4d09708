//! Why noting a statement stops.

ghost use Rattle.std.specs.Prelude.{◌≡◌};
ghost use Rattle.au_judgements.specs.Refusing.{refused_with};
ghost use Rattle.au_judgements.specs.declared.refusals.Refused.TheVariants as told;

use au_base::{Limit, Memory, Pos};
use au_noting::Fault;
use au_sights::Why;
use au_types::{DeclAt, Ty};

/// Why noting a statement stops.
#[derive(Drop)]
pub enum Refused {
    /// The statement at this place has no good notes.
    Statement {
        /// The place of the statement.
        at: Pos,
        /// The clause that fails.
        cause: Why<Ty, DeclAt>,
    },
    /// A type of a note passes a limit.
    Limit(Limit),
    /// No memory was found.
    Memory,
}

impl From<Memory> for Refused {
    ghost from_gives = { λ _ e. e ≡ told.Memory };

    fn from(_fault: Memory) -> Refused {
        Refused::Memory
    }
}

/// Why noting the statement at a place stops.
pub fn refused_at(at: Pos, fault: Fault) -> Refused
    ensures { result ≡ refused_with at fault }
{
    match fault {
        Fault::Why(cause) => Refused::Statement { at, cause },
        Fault::Limit(passed) => Refused::Limit(passed),
        Fault::Memory => Refused::Memory,
    }
}
