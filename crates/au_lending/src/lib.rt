//! What actions make of the memory of a running program: names are mentioned and filled, and lent. The crate
//! holds definitions, in `specs/`, and laws about them.
#![tactic(auto)]

pub mod laws;
