//! Trees whose types are closed, and the closed types that occur in them.
#![tactic(auto)]

pub mod calls;
pub mod cases;
pub mod changes;
pub mod expressions;
pub mod gathering;
pub mod listing;
pub mod names;
pub mod notes;
pub mod occurring;
pub mod parts;
pub mod phase;
pub mod statements;
pub mod trees;
pub mod type_names;
pub mod written;

pub use calls::calls_in_block;
pub use cases::cases_of;
pub use changes::{Closer, Finder};
pub use gathering::{Gathered, gather};
pub use listing::types_reached;
pub use notes::{Callee, ClosedNote, Literal};
pub use parts::{ClosedCase, ClosedField};
pub use phase::ClosedTrees;
pub use statements::close_block;
pub use trees::add_types_in_block;
pub use type_names::{is_region, push_given};
pub use written::{Written, field_under, written_under};
