//! What noting expressions and statements stands on: the scope at a place of a function, why noting stops,
//! what names, parts and written types mean in a scope, and the notes of single nodes.
//!
//! - A call that may stop answers what the search of the rules gives (`specs/Giving.antt`, `Gives`), and is
//!   named as its function of the search.
#![tactic(auto)]

pub mod called;
pub mod faults;
pub mod lookups;
pub mod nodes;
pub mod rules;
pub mod scopes;

pub use au_typing::{Variable, Variables};
pub use faults::Fault;
pub use scopes::{Bounds, Scope};
