//! The values of a machine, and piles of items in one vector.
#![tactic(auto)]

pub mod cells;
pub mod copying;
pub mod forms;
pub mod numbers;
pub mod paths;
pub mod stacking;

pub use cells::{Borrowed, Cell, Computed, Parts, Start};
pub use stacking::Piles;
