//! The store of a running program as a memory, and as what is told of it: what is done to the store is done
//! to these. The crate holds definitions, in `specs/`, and laws about them.
#![tactic(auto)]

pub mod laws;
