//! The spaces of names.

/// A space of names. A name may be declared once in each.
#[derive(Clone, Copy, Debug, PartialEq, Eq)]
pub enum Space {
    /// Constants, and in bodies variables and parameters.
    Values,
    /// Functions, methods of classes, records and cases of unions.
    Callables,
    /// Types and classes, and in declarations type parameters and regions.
    Types,
}
