//! Runs cases: calls of the compiler over files, input and sinks in memory, with what is due for each.
//! `docs/CASES.md` tells the form of the files that hold them.
#![tactic(auto)]

mod calling;
mod cases;
mod choosing;
mod comparing;
mod faults;
mod reading;
mod reports;
mod running;

use anyhow::Result;
use choosing::{choice_of, chosen_cases};
use running::{Tally, run_cases};
use std::process::ExitCode;

/// Ends with 0 where all cases passed, with 1 where one failed, and with 2 where a file can't be read.
fn main(rt: HostRuntime) -> ExitCode {
    match run(&rt) {
        Ok(tally) if tally.failed == 0 => ExitCode::SUCCESS,
        Ok(_) => ExitCode::FAILURE,
        Err(error) => {
            let _ = eprintln!(rt; "{error}");
            ExitCode::from(2)
        }
    }
}

/// Runs the cases that the command line chooses, and prints how many passed.
fn run(rt: &HostRuntime) -> Result<Tally> {
    let choice = choice_of(rt)?;
    let cases = chosen_cases(rt, &choice)?;
    let tally = run_cases(rt, cases)?;
    println!(rt; "{} passed, {} failed", tally.passed, tally.failed)?;
    Ok(tally)
}
