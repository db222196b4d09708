//! What heads a type.

ghost use Rattle.std.specs.Prelude.{◌≡◌};
ghost use Rattle.au_types.specs.Views.{meaning};
ghost use Rattle.au_type_texts.specs.Views.{closed_meaning};
ghost use Rattle.au_instances.specs.Constructors as spec;

use au_base::IntKind;
use au_type_texts::Closed;
use au_types::{DeclAt, Ty};

/// What heads a type that is neither a type parameter nor a reference.
#[derive(Clone, Copy, Debug, PartialEq, Eq)]
pub enum Constructor {
    /// The type of `nil`.
    Unit,
    /// The two truth values.
    Bool,
    /// One of the nine kinds of integers.
    Int(IntKind),
    /// The texts that are written in a program.
    Text,
    /// A declared type.
    Declared(DeclAt),
}

/// The constructor that heads a type, and `None` exactly for a type parameter and for a reference.
#[tactic(auto, using(au_types::proofs::TypeLemmas::type_steps))]
pub fn constructor_of(of: &Ty) -> Option<Constructor>
    ensures { result ≡ spec.constructor_of (meaning of.now) }
{
    match of {
        Ty::Unit => Some(Constructor::Unit),
        Ty::Bool => Some(Constructor::Bool),
        Ty::Int(kind) => Some(Constructor::Int(*kind)),
        Ty::Text => Some(Constructor::Text),
        Ty::Param(_) => None,
        Ty::Named { of, .. } => Some(Constructor::Declared(*of)),
        Ty::Read { .. } => None,
        Ty::Write { .. } => None,
    }
}

/// The constructor that heads a closed type, and `None` exactly for a reference.
#[tactic(auto, using(au_type_texts::proofs::ClosedLemmas::closed_steps))]
pub fn constructor_of_closed(of: &Closed) -> Option<Constructor>
    ensures { result ≡ spec.closed_constructor (closed_meaning of.now) }
{
    match of {
        Closed::Unit => Some(Constructor::Unit),
        Closed::Bool => Some(Constructor::Bool),
        Closed::Int(kind) => Some(Constructor::Int(*kind)),
        Closed::Text => Some(Constructor::Text),
        Closed::Named { of, .. } => Some(Constructor::Declared(*of)),
        Closed::Read(_) => None,
        Closed::Write(_) => None,
    }
}
