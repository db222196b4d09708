//! The names that a declaration declares and writes.

use au_base::{Name, Pos};
use au_types::Space;

/// A name in a declaration, with its place.
#[derive(Drop)]
pub enum Mention {
    /// The declaration brings the name in to this space.
    Declares(Space, Name, Pos),
    /// The name is written for a type, a class or a region.
    Writes(Name, Pos),
}
