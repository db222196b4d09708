//! The job of a command, from what `clap` found in the words behind it.

ghost use Rattle.std.specs.Prelude.{◌≡◌, ◌↔◌, IsTrue, Some, codes, map, option_map};
ghost use Rattle.clap.specs.Words.{found_of, one_of, rows_of};
ghost use Rattle.au_words.specs.Given as given;
ghost use Rattle.au_words.specs.Jobs as asked;
ghost use Rattle.au_words.specs.Reading as read;

use crate::counts::steps;
use crate::jobs::{Command, Job, WordsFault};
use crate::names::{entry, part};
use au_base::Entry;
use clap::ArgMatches;
use std::alloc::Global;

/// The steps without the option.
const USUAL_STEPS: u64 = 1_000_000_000;

/// The file names in parts, in order.
fn files(alloc: Global, parts: &[&str]) -> Result<Vec<String>, WordsFault>
    ensures { read.FindsFiles result (read.files_at (map (λ part. part.now) parts.now)) }
{
    let mut files = Vec::new(alloc);
    for word in parts {
        let mut names = part(alloc, *word)?;
        files.append(&mut names)?;
    }
    Ok(files)
}

/// The entry that a value spells, where there is one.
fn optional_entry(alloc: Global, value: Option<&str>) -> Result<Option<Entry>, WordsFault>
    ensures { read.Finds result (read.optional read.entry_at (option_map (λ text. text.now) value.entry)) }
{
    match value {
        Some(text) => Ok(Some(entry(alloc, text.as_bytes())?)),
        None => Ok(None),
    }
}

/// The number of steps that a value spells, where there is one.
fn optional_steps(value: Option<&str>) -> Result<Option<u64>, WordsFault>
    ensures { read.Finds result (read.optional read.steps_at (option_map (λ text. text.now) value.entry)) }
{
    match value {
        Some(text) => Ok(Some(steps(text.as_bytes())?)),
        None => Ok(None),
    }
}

/// Whether a command takes so many files.
fn takes_files(command: Command, count: usize) -> bool
    ensures { result ≡ asked.takes_files command count }
{
    match command {
        Command::Format => count == 1,
        Command::Run | Command::Compile | Command::Explain | Command::Check | Command::Caps => true,
    }
}

/// The job of a command, by the texts that are given.
#[tactic(auto, unfolding(crate::specs::Reading::said_at, crate::specs::Reading::counted_for))]
fn task(
    alloc: Global,
    command: Command,
    parts: &[&str],
    entry: Option<&str>,
    steps: Option<&str>,
    life: bool,
) -> Result<Job, WordsFault>
    ensures { read.GivesTask command result (read.said_for command (record {
      parts = map (λ part. part.now) parts.now;
      entry = option_map (λ text. text.now) entry.entry;
      steps = option_map (λ text. text.now) steps.entry;
      life = life;
    })) }
{
    let files = files(alloc, parts)?;
    let entry = optional_entry(alloc, entry)?;
    let steps = optional_steps(steps)?;
    if !takes_files(command, files.len()) {
        return Err(WordsFault::NoJob);
    }
    Ok(Job {
        command,
        files,
        entry,
        steps: steps.unwrap_or(USUAL_STEPS),
        life,
    })
}

/// Whether the option `--life` is found. (`get_flag` says nothing of a text that is neither `true` nor
/// `false`.)
fn has_life(found: &ArgMatches) -> bool
    ensures { (one_of (codes "life") (rows_of (found_of found.now)) ≡ Some (codes "true")) ↔ IsTrue result }
{
    found.get_one::<bool>("life").unwrap_or(false)
}

/// The job of a command, from what was found behind it.
pub fn job(alloc: Global, command: Command, found: &ArgMatches) -> Result<Job, WordsFault>
    ensures { (what : given.Given) → given.Shows (rows_of (found_of found.now)) what
        → read.GivesTask command result (read.said_for command what) }
{
    let Some(parts) = found.get_strs("part") else {
        return Err(WordsFault::NoJob);
    };
    let entry = found.get_str("entry");
    let steps = found.get_str("steps");
    task(alloc, command, parts, entry, steps, has_life(found))
}
