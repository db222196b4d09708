//! Whether every variable of a program has a good life, by what its type asks of it.
#![tactic(auto)]

mod choices;
mod faults;
mod functions;
pub mod laws;
mod lines;
pub mod program_laws;
mod programs;
mod pushing;
pub mod scopes;
pub mod sorts;
mod types;

pub use choices::Choices;
pub use faults::LinearFault;
pub use lines::linear_text;
pub use programs::check_linear;
pub use scopes::TypeScope;
pub use sorts::sorts_of;
