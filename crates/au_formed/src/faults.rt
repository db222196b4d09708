//! What a declaration is refused for, beside names that are declared again and infinite types.

use au_base::Pos;

/// What a declaration is refused for, beside names that are declared again and infinite types.
#[derive(Clone, Copy, Debug, PartialEq, Eq)]
pub enum FormFault {
    /// What is written at this place isn't well formed: a type, a name that stands for a class, or the
    /// universe of what stands there.
    Malformed(Pos),
    /// The union at this place has no case.
    EmptyUnion(Pos),
    /// The type of the field at this place is above the universe of its record or union.
    UniverseBelow(Pos),
}
