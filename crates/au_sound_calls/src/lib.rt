//! Shipped calls go well on stores that are as they should be: there is a rule for each, and what it gives
//! is as it should be. The crate holds definitions, in `specs/`, and laws about them.
#![tactic(auto)]

pub mod laws;
