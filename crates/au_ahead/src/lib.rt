//! Lives by structure: what lies ahead of a variable with a good life, statement by statement, and what each
//! action of a step asks of it. The crate holds definitions, in `specs/`, and laws about them.
#![tactic(auto)]

pub mod laws;
