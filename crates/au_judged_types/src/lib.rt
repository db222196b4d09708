//! What written types are judged to mean, and type parameters with their classes.
#![tactic(auto)]

pub mod bounds;
pub mod fitting;
pub mod generic_laws;
pub mod judging;
pub mod laws;
pub mod reading;
pub mod reasons;
pub mod regions;

pub use bounds::Generics;
pub use judging::judge_type;
pub use reading::{Meant, Misfit, generics_of};
pub use reasons::{Judged, Reason};
pub use regions::judge_region;
