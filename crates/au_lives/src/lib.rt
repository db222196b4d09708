//! Lives of variables: paths, steps, mentions, and when a life is good.
#![tactic(auto)]

pub mod counting;
pub mod laws;
pub mod lives;
pub mod readings;
pub mod steps;
pub mod tallies;
pub mod use_laws;

pub use counting::{counts, is_variable};
pub use readings::choices;
pub use steps::{State, Verdict, step};
pub use tallies::{Few, Tally};
