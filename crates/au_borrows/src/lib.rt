//! What every action keeps of a running program: memory, what is told of it, and the order of its borrows.
//! The crate holds definitions, in `specs/`, and laws about them.
#![tactic(auto)]

pub mod laws;
