//! Running an accepted program from its entry: it is closed and lowered, and the machine runs its code.
//!
//! `specs/Ran.antt` says what a call has done, by the code that the program is lowered to, and what that
//! shows of what the program means. The laws say that runs of lowered code show what the program means from
//! its entry (`laws`), and that the functions that a derived program closes to are such as lowered code can
//! follow (`good_programs`).
#![tactic(auto)]

mod coding;
mod ends;
pub mod good_programs;
pub mod laws;
mod ran;
mod running;
mod telling;

pub use coding::{Uncoded, program_code};
pub use ran::{Ran, Report};
pub use running::run_program;
