//! What is known of types in the bodies of programs of good declarations. The crate holds definitions, in
//! `specs/`, and laws about them.
#![tactic(auto)]

pub mod laws;
