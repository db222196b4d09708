//! Which capabilities the values of a type can be, hold or refer to.
#![tactic(auto)]

mod declarers;
mod graphs;
mod heads;
mod naming;
mod namings;
mod reached;

pub use heads::{head_of, is_kept};
pub use reached::{Reaching, reaching_of};
