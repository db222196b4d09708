//! That bodies which are good by the rules of typing and of lives have the judgement where they run. The
//! crate holds definitions, in `specs/`, and a law about each step of the way.
#![tactic(auto)]

pub mod asked_bodies;
pub mod called_types;
pub mod kept_parts;
pub mod lived_bodies;
pub mod names_ahead;
pub mod new_names;
pub mod numbered_lives;
pub mod once_fields;
pub mod once_parameters;
pub mod running_records;
pub mod seen_calls;
pub mod seen_fields;
pub mod seen_makers;
pub mod seen_views;
pub mod sound_samples;
pub mod standing_types;
pub mod typed_blocks;
pub mod typed_bodies;
pub mod typed_calls;
pub mod typed_lives;
pub mod typed_runs;
