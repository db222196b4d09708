//! What is noted at an expression, and what a part of a module sees outside of its functions.
#![tactic(auto)]

mod arguments;
pub mod bindings;
mod callables;
pub mod called;
mod constants;
mod faults;
mod insides;
pub mod laws;
mod lines;
mod makers;
pub mod names;
mod noted;
mod notes;
mod standing;
pub mod surroundings;
pub mod texts;
mod typing;

pub use bindings::{copy_bind, copy_binds, copy_borrow_names};
pub use called::{Callable, Case, Typed};
pub use faults::{Form, TypeFault, Why};
pub use lines::why_text;
pub use names::{copy_name, copy_names, copy_renamed};
pub use noted::Noted;
pub use notes::Notes;
pub use surroundings::Surroundings;
pub use texts::copy_text_of_type;
