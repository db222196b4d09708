//! The machine that runs lowered code: its steps, and whole runs.
#![tactic(auto)]

pub mod arguing;
pub mod beginning;
pub mod calling;
pub mod ends;
pub mod fetching;
pub mod looping;
pub mod machines;
pub mod shipping;
pub mod stepping;
pub mod steps;
pub mod waiting;

pub use ends::End;
pub use machines::Machine;
pub use steps::{act, fetched, hear};
