//! What the variables of functions and methods can hold of capabilities, and what they hand on.
#![tactic(auto)]

mod bodies;
mod entries;
mod handing;
mod holding;
pub mod laws;
mod lists;
mod mentions;
mod parameters;
mod scopes;

pub use bodies::{Body, Home, bodies_of};
pub use entries::push_heads;
pub use lists::{hands_of, holds_of};
pub use parameters::params_of;
pub use scopes::scope_of;
