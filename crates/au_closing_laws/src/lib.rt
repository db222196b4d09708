//! Why each call of a reached instance leads somewhere (`laws`), why the calls of a program with notes are
//! typed (`typed_calls`), and what of this holds of every program that is gathered of the shipped files and
//! of parsed ones, and so of every accepted program (`gathered`).
#![tactic(auto)]

pub mod gathered;
pub mod laws;
pub mod typed_calls;
