//! Laws that join the rules with what they are for.
#![tactic(auto)]

pub mod laws;
pub mod row_laws;
pub mod rules;
pub mod sort_laws;
