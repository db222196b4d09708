//! From the files of a program to its modules.
#![tactic(auto)]

pub mod counts;
pub mod faults;
pub mod gathering;
pub mod laws;
pub mod limits;
pub mod modules;
pub mod parts;
pub mod rounds;

pub use counts::are_few;
pub use faults::ModuleFault;
pub use gathering::gather;
pub use modules::Modules;
pub use parts::dotted_text;
