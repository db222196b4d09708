//! What is known of the types of trees that are good by the rules of typing: they are well formed, and the
//! names in them are in scope. The crate holds definitions, in `specs/`, and laws about them.
#![tactic(auto)]

pub mod laws;
