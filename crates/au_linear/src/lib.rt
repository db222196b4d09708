//! The lives of the variables of a body: whether each is good, and of the first that isn't, how it is broken
//! and on which path.
#![tactic(auto)]

pub mod checking;
pub mod faults;
pub mod judging;
pub mod laws;
pub mod placing;
pub mod sought;
pub mod tasks;

pub use checking::check_body;
pub use faults::{LinearFault, Refused, Why};
