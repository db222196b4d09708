//! Substitutions and matching, and the universes of types.
#![tactic(auto)]

pub mod fixing;
pub mod forming;
pub mod judging;
pub mod laws;
pub mod matching;
pub mod substituting;
pub mod substitutions;
pub mod universe_laws;
pub mod universe_substituting;
pub mod universes;

pub use fixing::fixes;
pub use forming::{fits, is_well_formed, stands_over};
pub use judging::universe_of;
pub use matching::{Match, match_types};
pub use substituting::substitute;
pub use substitutions::Substitution;
pub use universes::{TypeUniverse, takes};
