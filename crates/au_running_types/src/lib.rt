//! Types while a program runs, whose regions are tokens: they are what the written types become where a
//! function runs, and keep their universes, their form and their closed types. The crate holds
//! definitions, in `specs/`, and laws about them.
#![tactic(auto)]

pub mod laws;
