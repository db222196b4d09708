//! The names that a declaration declares and writes, and whether bodies keep what interfaces promise.
#![tactic(auto)]

pub mod agreeing;
pub mod definitions;
pub mod faults;
pub mod finding;
pub mod keeping;
pub mod keys;
pub mod laws;
pub mod listing;
pub mod mentions;
mod pushing;
pub mod scopes;
pub mod sights;
mod values;
pub mod wording;

pub use faults::PromiseFault;
pub use finding::promise_fault;
pub use listing::mentions_of;
pub use mentions::Mention;
pub use scopes::type_parameters;
