//! The rules of typing, the search for the one noting, and the laws that join the two.
#![tactic(auto)]

pub mod class_texts;
pub mod derivation_laws;
pub mod laws;
pub mod places;
pub mod typing_laws;
pub mod variables;

pub use class_texts::class_text;
pub use variables::{Variable, Variables};
