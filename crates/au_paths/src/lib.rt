//! The walk along the paths of a body, for one variable: how it is held at each place, what each step does to
//! it, and the first path that breaks its life.
#![tactic(auto)]

mod borrows;
pub mod fates;
mod hiding;
pub mod holds;
pub mod meeting;
pub mod reaches;
pub mod walks;

pub use fates::is_free;
pub use holds::{
    Hold, access_of, held_after, held_beside, held_beside_binds, held_in_borrow, is_named,
};
pub use reaches::{Broken, Reached, Stop};
pub use walks::check_paths;
