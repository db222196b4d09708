//! What lies ahead of each variable by itself is what lies ahead of all names of a frame that is run. The
//! crate holds definitions, in `specs/`, and laws about them.
#![tactic(auto)]

pub mod laws;
