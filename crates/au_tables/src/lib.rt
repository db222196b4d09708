//! The types of a program as the memory of a running program asks for them. The crate holds definitions, in
//! `specs/`, and laws about them.
#![tactic(auto)]

pub mod laws;
