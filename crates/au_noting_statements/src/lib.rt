//! Noting statements and blocks: the notes of their expressions in the order in which the rules judge them,
//! or the first clause that fails, with the place of its statement.
//!
//! - `parts` notes what a statement says itself, without its blocks, each call as its function of the search.
//! - `single` finishes the statements that hold no block, `entering` what stands before a block, and `blocks`
//!   goes down into blocks.
#![tactic(auto)]

pub mod blocks;
mod entering;
mod lists;
mod parts;
mod single;
mod vectors;

pub use au_noting_expressions::{note_boxed, paired, type_of};
pub use blocks::note_block;
