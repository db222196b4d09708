//! The entry of a program, what calls lead to, and the instances that are reached.
#![tactic(auto)]

pub mod calls;
pub mod classes;
pub mod closing;
pub mod closing_finding;
pub mod closing_laws;
pub mod entries;
mod finding;
mod forms;
pub mod functions;
pub mod instances;
mod keys;
pub mod laws;
pub mod leading;
pub mod names;
pub mod reached;
pub mod rows;
pub mod shipped;
mod told;
pub mod walk_laws;
mod walks;

pub use calls::Calls;
pub use closing::{Listed, block_closed};
pub use closing_finding::instances_called;
pub use entries::{Begin, EntryFault, entry_of};
pub use instances::{Instance, Lead, is_same_instance};
pub use leading::{Sight, call_leads};
pub use names::{case_name, name_of};
pub use reached::{Reached, reached_instances};
