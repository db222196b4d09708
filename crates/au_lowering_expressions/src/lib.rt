//! The code of expressions in closed trees, behind other code, with texts and types that stand for
//! themselves.
#![tactic(auto)]

pub mod calls;
pub mod drafts;
pub mod expressions;
pub mod leaves;
pub mod locals;
pub mod opening;
pub mod operations;
pub mod orders;
pub mod parts;
pub mod types;

pub use drafts::{Draft, end_jump, end_test, here, patch, put, put_draft};
pub use expressions::{note_of, write_expression, write_whole};
pub use locals::{Local, Locals};
pub use parts::{Part, part_of, part_past};
