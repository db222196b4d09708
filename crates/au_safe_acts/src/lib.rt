//! What the meaning does is safe: each of its actions, in a world that is as it should be, leaves such a
//! world. The crate holds definitions, in `specs/`, and laws about them.
#![tactic(auto)]

pub mod laws;
