//! Closing: a program from an entry as the list of its instances with their closed trees, and of its closed
//! types; and where the bodies of its functions and methods stand.
#![tactic(auto)]

pub mod bodies;
mod calls;
pub mod closing;
pub mod constants;
pub mod defining;
pub mod faults;
mod functions;
mod headers;
mod known;
pub mod laws;
mod listing;
pub mod programs;
pub mod rows;
mod types;

pub use au_noting_programs::NotedProgram;
pub use bodies::{Body, body_of};
pub use calls::Bodies;
pub use closing::close;
pub use constants::value_of;
pub use defining::all_definitions;
pub use faults::CloseFault;
pub use functions::ClosedFunction;
pub use listing::closed_functions;
pub use programs::ClosedProgram;
pub use rows::TypeRow;
