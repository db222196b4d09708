//! Word lists and the jobs that they ask for, written by hand from the rule.

use crate::interfaces::behind;
use au_base::{Entry, Memory};
use au_words::{Command, Job, laws, read_words};
use std::alloc::Global;

/// The steps of a run whose words give none.
const USUAL: u64 = 1_000_000_000;

/// Words with `|` between, and the job that they ask for: its command, its files with `|` behind each and a
/// dot at the end, its entry as `M:f` or nothing, its steps, and whether lives are told.
struct Row {
    words: &'static str,
    command: Command,
    files: &'static str,
    entry: &'static str,
    steps: u64,
    life: bool,
}

/// Words that ask for a job of which no program shows all: lives that are told, programs that are compiled, a
/// file's name with a blank, and the most steps. `words.cases` of `austral_cases` has the others.
const JOBS: [Row; 6] = [
    Row {
        words: "run|--life|a.aum",
        command: Command::Run,
        files: "a.aum|.",
        entry: "",
        steps: USUAL,
        life: true,
    },
    Row {
        words: "run|a.aum|--life|--entry|A.B_2.C:main_1|--steps|10",
        command: Command::Run,
        files: "a.aum|.",
        entry: "A.B_2.C:main_1",
        steps: 10,
        life: true,
    },
    Row {
        words: "compile|a.aum",
        command: Command::Compile,
        files: "a.aum|.",
        entry: "",
        steps: USUAL,
        life: false,
    },
    Row {
        words: "compile|a.aum|--entry=M:f",
        command: Command::Compile,
        files: "a.aum|.",
        entry: "M:f",
        steps: USUAL,
        life: false,
    },
    Row {
        words: "check|a b.aum,-b",
        command: Command::Check,
        files: "a b.aum|-b|.",
        entry: "",
        steps: USUAL,
        life: false,
    },
    Row {
        words: "run|--steps|1000000000000|a.aum",
        command: Command::Run,
        files: "a.aum|.",
        entry: "",
        steps: 1_000_000_000_000,
        life: false,
    },
];

/// The words that a text gives with `|` between.
fn words_of(alloc: Global, text: &str) -> Result<Vec<String>, Memory> {
    let mut words = Vec::new(alloc);
    for word in text.split('|') {
        words.push(String::from_str(alloc, word)?)?;
    }
    Ok(words)
}

/// Whether names are those of a text with `|` behind each, and a dot at its end.
fn are_named(names: &[String], text: &str) -> bool {
    let mut rest = text.as_bytes();
    for name in names {
        rest = behind(behind(rest, name.as_bytes()), b"|");
    }
    rest == b".".as_slice()
}

/// Whether an entry is the one of a text `M:f`, or none of an empty text.
fn is_entered(entry: &Option<Entry>, text: &str) -> bool {
    match (entry, text.split_once(':')) {
        (Some(entry), Some((home, function))) => {
            entry.module.as_bytes() == home.as_bytes()
                && entry.function.as_bytes() == function.as_bytes()
        }
        (None, None) => true,
        _ => false,
    }
}

/// Whether a job is the one of a row.
fn is_job(job: &Job, row: &Row) -> bool {
    job.command == row.command
        && job.steps == row.steps
        && job.life == row.life
        && are_named(job.files.as_slice(), row.files)
        && is_entered(&job.entry, row.entry)
}

/// Whether the words of a row ask for its job.
fn is_asked(alloc: Global, row: &Row) -> Result<bool, Memory> {
    let words = words_of(alloc, row.words)?;
    match read_words(alloc, words.as_slice()) {
        Ok(job) => Ok(is_job(&job, row)),
        Err(_) => Ok(false),
    }
}

/// Lists of words, and the job that each of them asks for. Words ask for one job at most, and their names are
/// those of the language.
#[test]
fn words_ask_for_their_job(rt: HostRuntime) {
    laws::one_job();
    laws::names_of_the_language();
    for row in &JOBS {
        assert!(rt; matches!(is_asked(rt.alloc(), row), Ok(true)));
    }
}
