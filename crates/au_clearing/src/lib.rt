//! The lives of all variables of a body by one walk: how the body deals with each variable, on all paths
//! together, and which lives that shows to be good. Each statement costs what it mentions, and each level of
//! nesting what is mentioned inside.
#![tactic(auto)]

pub mod clearing;
pub mod combining;
pub mod dealings;
pub mod deals;
pub mod declaring;
pub mod laws;
pub mod mentions;
pub mod statements;
pub mod tables;
pub mod touches;

pub use clearing::{clears, lives};
pub use dealings::{Dealing, Dealings, Life};
