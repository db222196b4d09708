//! What is given for type parameters.

use crate::Closed;
use au_base::Name;

/// A type parameter by its name, and the closed type that is given for it.
#[derive(Drop)]
pub struct GivenType {
    /// The name.
    pub name: Name,
    /// The type.
    pub of: Closed,
}
