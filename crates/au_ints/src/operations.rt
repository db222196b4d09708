//! The operations on integers.

/// An operation that traps where its result leaves the range of its kind.
#[derive(Clone, Copy, Debug, PartialEq, Eq)]
pub enum IntOp {
    Add,
    Subtract,
    Multiply,
    /// Division towards zero.
    Divide,
}

/// An operation that wraps where its result leaves the range of its kind.
#[derive(Clone, Copy, Debug, PartialEq, Eq)]
pub enum WrapOp {
    Add,
    Subtract,
    Multiply,
}

/// How two numbers are compared.
#[derive(Clone, Copy, Debug, PartialEq, Eq)]
pub enum Order {
    Equal,
    NotEqual,
    Less,
    LessEqual,
    Greater,
    GreaterEqual,
}
