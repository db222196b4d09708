//! Nothing is written where an open read borrow sees. The crate holds definitions, in `specs/`, and laws
//! about them.
#![tactic(auto)]

pub mod laws;
