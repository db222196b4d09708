//! The modules that come with the compiler: the trees of their interfaces, their files, whole, and their
//! calls by name.
#![tactic(auto)]

pub mod boxes;
pub mod buffers;
mod building;
mod declaring;
pub mod files;
pub mod laws;
mod parts;
pub mod pervasive;
pub mod prims;
mod rows;
pub mod terminal;

pub use building::place;
pub use files::shipped;
pub use prims::{AbortKind, ShippedCall, prim_of};
