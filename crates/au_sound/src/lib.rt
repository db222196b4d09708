//! Programs whose trees are judged so run safely: no run is stuck, each birth is consumed at most once, and
//! exactly once where the program exits. The crate holds definitions, in `specs/`, and laws about them.
#![tactic(auto)]

pub mod laws;
