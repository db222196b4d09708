//! Shipped calls and operations at the running types of the judgement: each leaves a world that is as it
//! should be. The crate holds definitions, in `specs/`, and laws about them.
#![tactic(auto)]

pub mod laws;
