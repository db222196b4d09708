//! What may be born while a function runs, by what the calls in its text do (`laws`); what closed types
//! reach (`reach`); what names hold in runs (`held`); and of which types is what calls are passed, whatever
//! they do, and what functions return (`passing`). The crate holds definitions, in `specs/`, and laws about
//! them.
#![tactic(auto)]

pub mod held;
pub mod laws;
pub mod passing;
pub mod reach;
