//! The outside of the system: files, standard input, standard output and standard error, as the traits of the
//! outside have them.
#![tactic(auto)]

mod adapters;
mod block;

pub use adapters::{DiskShelf, StderrSink, StdinSource, StdoutSink};
