//! What the evaluator of a running program needs to know of the trees that it runs: which running type each
//! expression has, and what is still to come of each variable. The crate holds definitions, in `specs/`.
#![tactic(auto)]
