//! The meaning of source programs: what a noted program does, as one function of ticks
//! (`specs/Meanings.antt`).
#![tactic(auto)]

pub mod laws;
