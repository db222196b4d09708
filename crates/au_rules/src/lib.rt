//! Whether the declarations of a program are good.
#![tactic(auto)]

pub mod declarations;
pub mod doubles;
pub mod faults;
mod finding;
pub mod laws;
pub mod listing;
pub mod marks;
pub mod nests;
mod outside;
mod pushing;
pub mod rule_laws;
mod scopes;
mod statements;

pub use declarations::declarations_hold;
pub use doubles::{Double, Doubles};
pub use faults::DeclFault;
pub use listing::marks_of;
pub use marks::{Kind, Mark, Role};
pub use nests::Nest;
