//! The integers of the language: every operation of the nine kinds, exact for every pair of
//! operands.
//!
//! A number is an `i128` that lies in the range of its kind. `trap` gives up where a result leaves
//! that range, `wrap` turns it back into the range, `compare` compares, and `convert` goes to
//! another kind. The contracts speak of whole numbers, by the definitions of `specs/`.
#![tactic(auto)]

pub mod calls;
pub mod laws;
pub mod operations;
pub mod ranges;

pub use calls::{compare, convert, trap, wrap};
pub use operations::{IntOp, Order, WrapOp};
pub use ranges::Kind;
