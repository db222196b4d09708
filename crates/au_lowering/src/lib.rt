//! The code that a closed program is lowered to: the drafts of its functions, then texts and types by their
//! numbers, and what is told of the types.
#![tactic(auto)]

pub mod coding;
pub mod drafting;
pub mod faults;
pub mod functions;
pub mod lookups;
pub mod lowering;
pub mod mixing;
pub mod numbering;
pub mod placing;
pub mod rows;
pub mod seen;
pub mod tables;
pub mod telling;

pub use au_closed_programs::{CloseFault, NotedProgram, close};
pub use coding::lower_drafted;
pub use faults::LowerFault;
pub use functions::{Drafted, collect_functions, number_functions, passes_limit};
pub use lowering::lower;
pub use numbering::{collect, number_all};
pub use tables::{Tables, TextTable, TypeTable};
pub use telling::{TypeRows, tell_rows, tell_types};
