//! Frames of a running program: how the names of each stand, how a call makes one, and how a return ends
//! it. The crate holds definitions, in `specs/`, and laws about them.
#![tactic(auto)]

pub mod laws;
