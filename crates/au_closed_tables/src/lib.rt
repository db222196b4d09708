//! The types of a program as its meaning knows them. The crate holds definitions, in `specs/`, and laws
//! about them.
#![tactic(auto)]

pub mod laws;
