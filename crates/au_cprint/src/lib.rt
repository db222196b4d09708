//! Lowered code as C text: a prelude of fixed bytes, and a line for each text, type, function and
//! instruction.
#![tactic(auto)]

mod adding;
pub mod counting;
mod faults;
mod instructions;
pub mod laws;
mod lines;
pub mod macros;
mod printing;
pub mod runtime;
mod words;

pub use counting::COUNTING;
pub use faults::PrintFault;
pub use macros::MACROS;
pub use printing::print_c;
pub use runtime::RUNTIME;
