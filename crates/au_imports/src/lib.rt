//! From the modules of a program to a program in which every name means one thing and every promise of an
//! interface is kept. What names are refused for: imports of modules that aren't there or stand later, names
//! that an interface doesn't offer or that mean nothing, and names that mean two things.
#![tactic(auto)]

pub mod brought;
pub mod built_in;
mod clashes;
pub mod declaring;
pub mod faults;
pub mod finding;
pub mod importing;
pub mod judged;
pub mod laws;
mod members;
pub mod name_faults;
pub mod offers;
pub mod programs;
pub mod resolving;

pub use faults::ImportFault;
pub use finding::name_fault;
pub use name_faults::NameFault;
pub use programs::Resolved;
pub use resolving::resolve;
