//! What the actions of a running program do, for the meaning of its source and for the code that it is
//! lowered to: values, arithmetic on them, places, references, births, borrows, and the shipped calls. The
//! crate holds definitions, in `specs/`, and laws about them.
#![tactic(auto)]

pub mod laws;
