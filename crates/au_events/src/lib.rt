//! The events of a run, and what they are to be like: each birth is consumed at most once, or once; each use
//! of a borrow stands inside of it; what is born of an opaque type is born in its own module. The crate holds
//! definitions, in `specs/`, and laws about them.
#![tactic(auto)]

pub mod laws;
