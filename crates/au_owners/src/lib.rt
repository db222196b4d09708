//! Which closed types are opaque and whose they are. The crate holds definitions, in `specs/`, and laws
//! about them.
#![tactic(auto)]

pub mod laws;
