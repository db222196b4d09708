//! What is reached from some starts, and the first node of a directed graph that lies on a cycle.
#![tactic(auto)]

pub mod cycles;
pub mod faults;
pub mod finding;
pub mod graphs;
pub mod grounds;
pub mod laws;
mod marks;
mod peeling;
mod searching;

pub use cycles::first_on_cycle;
pub use faults::WalkFault;
pub use finding::{Finds, reach};
pub use graphs::Graph;
pub use grounds::Ground;
