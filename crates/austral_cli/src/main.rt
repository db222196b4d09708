//! The program: the words of the command line and the outside of the system, handed to the call.
#![tactic(auto)]

use au_base::Status;
use au_system::{DiskShelf, StderrSink, StdinSource, StdoutSink};
use au_top::austral;
use std::process::ExitCode;
use std::{env, io};

fn main(rt: HostRuntime) -> ExitCode {
    match words_of(&rt) {
        Ok(words) => status_of(rt, words.as_slice()),
        Err(error) => ExitCode::from(status_without_words(&error).number()),
    }
}

/// How the program ends where its words can't be read: for want of memory, or since they ask for nothing.
/// Nothing is written.
fn status_without_words(error: &io::Error) -> Status {
    match error.kind() {
        io::ErrorKind::OutOfMemory => Status::Memory,
        _ => Status::Words,
    }
}

/// How the call with these words ends, over the outside of the system.
fn status_of(rt: HostRuntime, words: &[String]) -> ExitCode {
    let mut input = StdinSource::new(rt.stdin());
    let mut out = StdoutSink::new(rt.stdout());
    let mut err = StderrSink::new(rt.stderr());
    let alloc = rt.alloc();
    let mut shelf = DiskShelf::new(rt);
    let status = austral(alloc, words, &mut shelf, &mut input, &mut out, &mut err);
    ExitCode::from(status.number())
}

/// The words of the command line, behind the program's own name.
fn words_of(rt: &HostRuntime) -> io::Result<Vec<String>> {
    let mut words = Vec::new(rt.alloc());
    for word in env::args(rt)?.skip(1) {
        words.push(word)?;
    }
    Ok(words)
}
