//! The classes and instances of a program, and whether they are good.
#![tactic(auto)]

pub mod class_laws;
pub mod class_texts;
pub mod comparing;
pub mod declaring;
pub mod definitions;
pub mod faults;
pub mod finding;
pub mod gathering;
pub mod instance_texts;
pub mod judging;
pub mod knowing;
pub mod known;
pub mod laws;
pub mod marks;
pub mod methods;
pub mod rows;
pub mod signatures;

pub use class_texts::{ClassText, class_at};
pub use declaring::{Classes, declare};
pub use faults::ClassFault;
pub use gathering::instances_of;
pub use instance_texts::InstanceText;
pub use signatures::are_methods;
