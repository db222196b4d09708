//! The one layout of a file: its tokens and remarks as they stand, in lines that its structure gives.
//!
//! `specs/Marks.antt` says which tokens open and end levels and lines, `specs/Gaps.antt` what stands
//! between two pieces of a file, and `specs/Layout.antt` what the layout of a file is. `lay_out` gives it
//! and `layout` writes it, and `laws` says that it keeps all tokens and remarks, and that a file that is
//! laid out stays as it is.
#![tactic(auto)]

mod adding;
mod faults;
mod fronts;
mod kinds;
pub mod laws;
mod laying;
mod layouts;
mod marks;
mod places;
mod remarks;
mod scanning;
mod standings;

pub use faults::FormatFault;
pub use laying::lay_out;
pub use layouts::layout;
