//! What is wrong with declarations beyond their names: types that aren't well formed, unions without a case,
//! fields above the universe of their record or union, and types that are infinite.
#![tactic(auto)]

mod declarers;
pub mod faults;
pub mod fields;
pub mod forms;
mod graphs;
pub mod infinite;
pub mod laws;
pub mod listing;
pub mod malformed;
pub mod naming;
pub mod namings;
mod pushing;
pub mod texts;
mod values;
pub mod visible;
pub mod writings;

pub use faults::FormFault;
pub use forms::form_fault;
pub use infinite::first_infinite;
pub use naming::type_of;
pub use namings::{Naming, namings_of};
pub use texts::{Spot, all_declarations};
pub use visible::{Visible, visible_at};
