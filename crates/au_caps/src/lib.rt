//! What the functions and methods of a program can do with capabilities.
#![tactic(auto)]

mod callees;
mod calls;
mod edges;
mod keys;
pub mod laws;
mod programs;
mod rows;
mod webs;

pub use au_caps_text::{CapsFault, Report, Row, print_report};
pub use programs::caps_report;
