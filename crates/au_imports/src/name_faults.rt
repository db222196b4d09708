//! Why the names of a program are refused.

use au_base::{Name, Pos};

/// Why the names of a program are refused, with the place of the name in the text.
#[derive(Debug, Drop)]
pub enum NameFault {
    /// An import names a module that the program doesn't have.
    NoModule(Pos, Name),
    /// An import names a module that stands later, or the module itself.
    Late(Pos, Name),
    /// The interface that an import names doesn't offer this name, or the name is written for a type, a class
    /// or a region and means nothing.
    NotVisible(Pos, Name),
    /// The name means something else before this place.
    NameTwice(Pos, Name),
}
