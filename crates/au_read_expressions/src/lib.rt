//! Reads tokens, lists of parts, written types and expressions.
#![tactic(auto)]

mod atoms;
pub mod expressions;
pub mod faults;
mod first;
pub mod lists;
pub mod names;
mod nodes;
pub mod parts;
mod stops;
pub mod tokens;
pub mod types;

pub use expressions::{call, expression};
pub use faults::{Fault, Stop};
pub use lists::{bracketed, listed, repeated, separated};
pub use names::{FieldEntry, NamePart, dotted, fields};
pub use parts::{Entry, Part};
pub use tokens::{
    Expected, after, expect, is_sign, is_word, name, number, place, stop_before, text,
};
pub use types::written_type;
