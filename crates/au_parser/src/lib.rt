//! From the tokens of a file to its tree: declarations, modules, files.
#![tactic(auto)]

pub mod declarations;
pub mod faults;
pub mod functions;
pub mod imports;
pub mod laws;
pub mod modules;
pub mod parsing;
pub mod parts;
pub mod types;

pub use faults::ParseFault;
pub use modules::file;
pub use parsing::parse;
