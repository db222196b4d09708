//! From the names of files to what their program comes to, and why it is refused.
#![tactic(auto)]

mod checking;
mod fetching;
mod halts;
mod judging;
pub mod laws;
mod layouts;
mod lines;
mod outcomes;
mod reading;
mod refusals;

pub use au_caps::{CapsFault, Report, print_report};
pub use au_explain::{Lives, NotedProgram, PrintFault, explain};
pub use checking::{MOST_FILES, check};
pub use halts::{CheckFault, Halt};
pub use judging::judge;
pub use lines::{abort_line, limit_line, missing_line, refusal_text, steps_line};
pub use outcomes::{Aim, Outcome};
pub use reading::read_all;
pub use refusals::Refusal;
