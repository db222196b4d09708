//! That an accepted program has the judgement, and that its runs are seen well. The crate holds
//! definitions, in `specs/`, and a law about each step of the way.
#![tactic(auto)]

pub mod called_bodies;
pub mod calls_run;
pub mod checked;
pub mod checked_bodies;
pub mod checked_calls;
pub mod checked_programs;
pub mod judged_programs;
pub mod own_definitions;
pub mod round_programs;
pub mod running_bodies;
pub mod seen_methods;
pub mod shipped_calls;
pub mod shipped_methods;
pub mod sound;
pub mod sound_entries;
pub mod sound_programs;
pub mod standing_constants;
pub mod typed_programs;
