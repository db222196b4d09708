//! The view of closed trees, and that a closed program does what the program with notes does.
#![tactic(auto)]

pub mod calls;
pub mod laws;
pub mod lookups;
pub mod renoting;
pub mod shipped;

pub use calls::{Act, Called, Found};
pub use lookups::Lookup;
pub use shipped::{born, shipped_parameters};
