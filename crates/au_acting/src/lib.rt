//! What actions make of the invariant: each action on memory, with what it tells, leads from a state that
//! is as it should be to another. The crate holds definitions, in `specs/`, and laws about them.
#![tactic(auto)]

pub mod laws;
