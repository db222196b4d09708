//! What is told of a variable and of its life.

/// What the type of a variable asks of its life.
#[derive(Clone, Copy, Debug, PartialEq, Eq)]
pub enum Sort {
    /// The type is Free: the variable is never consumed.
    Free,
    /// The type is a write reference: the variable is consumed at most once.
    WriteReference,
    /// Any other type that isn't Free: the variable is consumed exactly once.
    Linear,
}

/// How a life is broken.
#[derive(Clone, Copy, Debug, PartialEq, Eq)]
pub enum LifeKind {
    /// It ends, and the variable wasn't consumed.
    Unused,
    /// The variable is met after its consumption.
    Again,
    /// One step does what can't be done in one step.
    Clash,
    /// A step does what an open borrow statement forbids.
    Borrowed,
}
