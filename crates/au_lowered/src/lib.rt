//! The code that a closed program is lowered to, and that it does what the program means.
#![tactic(auto)]

pub mod follow_laws;
pub mod laws;
pub mod step_laws;
