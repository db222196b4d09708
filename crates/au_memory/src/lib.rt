//! The memory of a running program as a forest of trees: what names hold, what is lent, and what every action
//! keeps of it. The crate holds definitions, in `specs/`, and laws about them.
#![tactic(auto)]

pub mod laws;
