//! The job that words ask for.

ghost use Rattle.std.specs.Prelude.{◌≡◌, ◌≢◌, [], Err, IfOk, map};
ghost use Rattle.std.specs.String.{string_bytes};
ghost use Rattle.clap.specs.Words.{fault_of, found_of, rows_of, subcommand_of, subcommand_rows_of};
ghost use Rattle.au_words.specs.Given as given;
ghost use Rattle.au_words.specs.Given.{program};
ghost use Rattle.au_words.specs.Jobs as asked;
ghost use Rattle.au_words.specs.Jobs.{command_word};
ghost use Rattle.au_words.specs.Reading as read;

use crate::jobs::{Command, Job, WordsFault};
use crate::program::program;
use crate::values::job;
use clap::ArgMatches;
use std::alloc::Global;

/// The command that a word is.
#[tactic(auto, unfolding(crate::specs::Reading::command_at))]
fn command(word: &str) -> Option<Command>
    ensures { result ≡ read.command_at word.now }
{
    if word == "run" {
        Some(Command::Run)
    } else if word == "compile" {
        Some(Command::Compile)
    } else if word == "explain" {
        Some(Command::Explain)
    } else if word == "check" {
        Some(Command::Check)
    } else if word == "format" {
        Some(Command::Format)
    } else if word == "caps" {
        Some(Command::Caps)
    } else {
        None
    }
}

/// What `clap` finds in words.
fn found_in<'a>(alloc: Global, words: &'a [String]) -> Result<ArgMatches<'a>, WordsFault>
    ensures passes { IfOk result (λ found. fault_of program (map string_bytes words.entry.now) ≡ []) }
    ensures rows { IfOk result (λ found. subcommand_rows_of found
        ≡ subcommand_of program (map string_bytes words.entry.now)) }
    ensures fails { result ≡ Err WordsFault.NoJob → fault_of program (map string_bytes words.entry.now) ≢ [] }
{
    let command = program(alloc)?;
    let found = command.try_get_matches_from(words)?;
    Ok(found)
}

/// The job of the command that a word is, from what was found behind it.
fn job_of(alloc: Global, word: &str, behind: &ArgMatches) -> Result<Job, WordsFault>
    ensures { (asked : Command) (what : given.Given) → word.now ≡ command_word asked
        → given.Shows (rows_of (found_of behind.now)) what
        → read.GivesTask asked result (read.said_for asked what) }
{
    match command(word) {
        Some(command) => job(alloc, command, behind),
        None => Err(WordsFault::NoJob),
    }
}

/// The job that the words of a command line ask for, the program's name left out.
///
/// # Errors
///
/// `NoJob` where they ask for none, and `Memory` where no memory is found.
pub fn read_words(alloc: Global, words: &[String]) -> Result<Job, WordsFault>
    ensures job { IfOk result (λ job. asked.IsJob (map string_bytes words.now) (asked.task_of job)) }
    ensures no_job { result ≡ Err WordsFault.NoJob → asked.IsNoJob (map string_bytes words.now) }
{
    let found = found_in(alloc, words)?;
    match found.subcommand() {
        Some((word, behind)) => job_of(alloc, word, behind),
        None => Err(WordsFault::NoJob),
    }
}
