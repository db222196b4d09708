//! The call that the program is: words and files in, output and a status out.
//!
//! `specs/Promises.antt` says what is promised of a call, `specs/Calls.antt` how it ends and what it leaves,
//! `specs/Dues.antt` what is due, `specs/Runs.antt` what a run comes to, and `specs/Texts.antt` what is due
//! where a program is compiled.
#![tactic(auto)]

mod answering;
mod asking;
mod compiling;
mod entries;
mod running;
mod saying;
mod top;

pub use top::austral;
