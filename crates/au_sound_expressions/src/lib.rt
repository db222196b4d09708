//! Expressions of a running program are safe: there is a rule for each, and what it leaves is as it should
//! be. The crate holds definitions, in `specs/`, and laws about them.
#![tactic(auto)]

pub mod laws;
