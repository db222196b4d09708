//! What is called, and what a value is taken apart into.

use au_base::Name;
use au_judged_types::Generics;
use au_names::Target;
use au_types::{DeclAt, Ty};

/// A field or a parameter with its type.
#[derive(Drop)]
pub struct Typed {
    /// Its name.
    pub name: Name,
    /// Its type.
    pub of: Ty,
}

/// What is called.
#[derive(Drop)]
pub struct Callable {
    /// Its type parameters with the classes that constrain them.
    pub generics: Generics,
    /// Its parameters in declared order.
    pub parameters: Vec<Typed>,
    /// The type of its result.
    pub result: Ty,
    /// Of a method the type parameter of its class, and the class.
    pub class: Option<(Name, DeclAt)>,
}

/// A case of a union.
#[derive(Drop)]
pub struct Case {
    /// What its name means.
    pub target: Target,
    /// Its fields, with the types that they have in the type that is taken apart.
    pub fields: Vec<Typed>,
}
