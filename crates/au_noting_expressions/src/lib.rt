//! Noting expressions.
#![tactic(auto)]

pub mod argument_types;
pub mod arguments;
pub mod calls;
mod fixed;
mod halves;
pub mod leaves;
pub mod makers;
mod noted_operands;
mod noting;
pub mod operands;
pub mod places;
mod rules;

pub use arguments::{is_parameter, take_as, take_as_int32, unlike_int32};
pub use calls::{make_call, make_named_call, with_arguments};
pub use leaves::{note_negative, note_nil, note_number, note_text, note_truth};
pub use makers::{
    make_arithmetic, make_choice, make_comparison, make_dereference, make_logical, make_negation,
    make_parenthesized, make_typed,
};
pub use noting::{note, note_boxed, paired};
pub use operands::{boxed, truth, type_of};
pub use places::{note_arrow, note_borrow, note_borrow_part, note_path};
pub use rules::note_well;
