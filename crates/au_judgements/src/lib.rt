//! What the rules judge of single statements beside their expressions, and how the scope at a place changes
//! by statements.
//!
//! - A call that may stop answers what the search of the rules gives (`specs/Giving.antt` of `au_noting`, and
//!   `specs/Refusing.antt`), and is named as its function of the search.
#![tactic(auto)]

pub mod arms;
pub mod assigning;
pub mod binding;
pub mod borrowing;
pub mod declaring;
pub mod leaving;
pub mod literals;
pub mod places;
pub mod refusals;
pub mod returning;
pub mod unions;

pub use refusals::{Refused, refused_at};
