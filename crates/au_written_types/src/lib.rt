//! What written types mean while a program runs. The crate holds definitions, in `specs/`, and laws about
//! them.
#![tactic(auto)]

pub mod laws;
