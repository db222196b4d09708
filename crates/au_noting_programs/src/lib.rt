//! From the modules of a program to the same with a note at each expression, or to the first fault of a
//! statement.
#![tactic(auto)]

pub mod bodies;
mod constants;
mod copies;
mod declarations;
mod heads;
pub mod judging;
pub mod laws;
mod lists;
pub mod modules;
mod noting;
mod parameters;
pub mod programs;
pub mod sights;
mod telling;

pub use au_noting_statements::{paired, type_of};
pub use judging::note_program;
pub use modules::{NotedFile, NotedModule};
pub use programs::NotedProgram;
