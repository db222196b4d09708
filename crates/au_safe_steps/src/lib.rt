//! What single steps of expressions and statements need besides the actions: each leaves a world that is as
//! it should be. The crate holds definitions, in `specs/`, and laws about them.
#![tactic(auto)]

pub mod laws;
