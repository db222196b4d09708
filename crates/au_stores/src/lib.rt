//! What a machine that runs lowered code changes besides its operands: the slots of its frames, what boxes
//! and buffers hold, the borrows, and the events. Each call is a definition of `au_effects` on the world
//! that the stores are (`specs/Stores.antt`).
#![tactic(auto)]

pub mod answers;
pub mod beginning;
pub mod births;
pub mod borrows;
pub mod boxes;
pub mod buffers;
pub mod cases;
pub mod keeping;
pub mod laws;
pub mod places;
pub mod slots;
pub mod terminals;
pub mod worlds;

pub use answers::Answered;
pub use cases::{Taken, Told};
pub use keeping::Births;
pub use worlds::{Held, World};
