//! Lowered code: functions with numbers for names, and flat instructions with labels; and what it does, as
//! one function of steps (`specs/Runs.antt`).
#![tactic(auto)]

pub mod code;
pub mod endings;
pub mod events;
pub mod instructions;
pub mod laws;

pub use code::{Code, Function, LowType};
pub use events::Event;
pub use instructions::{Instr, Mode};
