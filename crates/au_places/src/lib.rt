//! Places of a memory, and what is counted at them: two places of which neither covers the other are
//! independent. The crate holds definitions, in `specs/`, and laws about them.
#![tactic(auto)]

pub mod laws;
