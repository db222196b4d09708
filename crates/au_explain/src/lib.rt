//! The lists of lives of a program, and their text.
#![tactic(auto)]

mod blocks;
mod entering;
mod faults;
mod functions;
pub mod laws;
mod lines;
mod listing;
mod lists;
mod marks;
mod mentions;
mod printing;
mod programs;
mod variables;

pub use au_noting_programs::{NotedProgram, note_program};
pub use faults::PrintFault;
pub use lists::{FunctionLives, Lives, Mention, MentionKind, VariableLives};
pub use printing::explain;
pub use programs::lives_of;
