//! Reads statements and blocks.
#![tactic(auto)]

mod first;
mod heads;
pub mod parts;
mod simple;
pub mod statements;

pub use parts::{RenamingPart, end_place, renaming};
pub use statements::block;
