//! The table of a program's instances of classes, and which instance a class has at a type.
#![tactic(auto)]

pub mod becoming;
pub mod closed;
pub mod constructors;
pub mod finding;
pub mod forms;
pub mod instances;
pub mod keys;
pub mod lacking;
pub mod laws;
pub mod rows;
pub mod universes;

pub use constructors::{Constructor, constructor_of, constructor_of_closed};
pub use forms::has_form;
pub use instances::Instances;
pub use rows::{ClassAt, InstanceAt, Row};
