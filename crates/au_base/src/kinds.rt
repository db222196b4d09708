//! The kinds of integers.

/// The nine integer types. The number in a name is how many bits the type has, and `Index` has 64.
/// `Nat` kinds and `Index` are without sign, and `Int` kinds have one.
#[derive(Clone, Copy, Debug, PartialEq, Eq)]
pub enum IntKind {
    Nat8,
    Nat16,
    Nat32,
    Nat64,
    Int8,
    Int16,
    Int32,
    Int64,
    Index,
}
