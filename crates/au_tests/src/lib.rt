//! Tests of base, trees, tokens and types that no case can be, in a crate of their own: a crate with tests is
//! proved twice.
#![tactic(auto)]

#[cfg(test)]
mod base;
#[cfg(test)]
mod cells;
#[cfg(test)]
mod counted;
#[cfg(test)]
mod forming;
#[cfg(test)]
mod graphs;
#[cfg(test)]
mod integers;
#[cfg(test)]
mod judged;
#[cfg(test)]
mod lengths;
#[cfg(test)]
mod sources;
#[cfg(test)]
mod tokens;
#[cfg(test)]
mod tree_tests;
