//! The rows of a table of instances.

use au_judged_types::Generics;
use au_types::{DeclAt, Ty};

/// Which class: where it is declared.
pub type ClassAt = DeclAt;

/// Which instance: where it is declared.
pub type InstanceAt = DeclAt;

/// An instance of a class.
#[derive(Drop)]
pub struct Row {
    /// Which instance it is.
    pub instance: InstanceAt,
    /// Its class.
    pub class: ClassAt,
    /// Its type parameters, with the classes that constrain them.
    pub generics: Generics,
    /// The type that it is for. Its type parameters and regions of a name are those of the instance.
    pub head: Ty,
}
