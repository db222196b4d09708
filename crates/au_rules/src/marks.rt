//! What the text of a declaration says of names and of their scopes.

use au_base::{Name, Pos};

/// What a name is declared as: a name of one of the three spaces, or a field.
#[derive(Clone, Copy)]
pub enum Kind {
    /// Variables, parameters and constants.
    Values,
    /// Functions, methods of classes, records and cases of unions.
    Callables,
    /// Types, classes, type parameters and regions.
    Types,
    /// Fields of one record or of one case.
    Fields,
}

/// How a name is declared.
#[derive(Clone, Copy)]
pub enum Role {
    /// In a block, as a variable, a parameter, a type parameter, a region or a field.
    Local,
    /// At the top of a module, for itself.
    Whole,
    /// At the top of an interface, as what the body is to define.
    Promise,
    /// At the top of a body, as what may define what its interface promises.
    Definition,
}

/// What stands in the text for the scopes of names.
#[derive(Drop)]
pub enum Mark {
    /// A block begins.
    Opens,
    /// The innermost block ends.
    Closes,
    /// The name at this place is declared. A local name is in scope up to the end of its block.
    Declares(Role, Kind, Name, Pos),
}
