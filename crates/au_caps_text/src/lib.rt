//! Reports on capabilities and their text, lists that are sets, and labels that spread over a graph.
#![tactic(auto)]

mod faults;
pub mod laws;
mod lines;
mod listing;
mod printing;
mod reports;
mod searching;
mod spreading;
mod turning;

pub use faults::CapsFault;
pub use listing::list_of;
pub use printing::print_report;
pub use reports::{Report, Row};
pub use spreading::spread;
