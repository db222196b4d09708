//! What a case is: a call of the compiler, with what is due for it.

use std::alloc::{AllocError, Global};

/// How many bytes a sink has room for, unless the case tells it.
pub const AMPLE_ROOM: usize = 1_048_576;

/// A call of the compiler: its words, the files of the shelf, the input, and where the outside fails.
#[derive(Drop)]
pub struct Call {
    /// The words of the command line, behind the program's own name.
    pub words: Vec<String>,
    /// The files by name. Of two files with one name the first counts.
    pub files: Vec<(String, Vec<u8>)>,
    /// The bytes of the input.
    pub input: Vec<u8>,
    /// The fetches that are to fail, counted from 1.
    pub fetch_fails: Vec<u64>,
    /// The reads of input that are to fail, counted from 1.
    pub input_fails: Vec<u64>,
    /// How many bytes `out` has room for.
    pub out_room: usize,
    /// The writes to `out` that are to fail, counted from 1.
    pub out_fails: Vec<u64>,
    /// How many bytes `err` has room for.
    pub err_room: usize,
    /// The writes to `err` that are to fail, counted from 1.
    pub err_fails: Vec<u64>,
}

/// What is due for a call.
#[derive(Drop)]
pub struct Wanted {
    /// The bytes on `out`.
    pub out: Vec<u8>,
    /// The bytes on `err`, where `[*]` stands for any list of numbers in brackets.
    pub err: Vec<u8>,
    /// The number of the status.
    pub status: u8,
}

/// A call, and what is due for it, under a name that says what it shows.
#[derive(Drop)]
pub struct Case {
    /// The name.
    pub name: String,
    /// The call.
    pub call: Call,
    /// What is due.
    pub wanted: Wanted,
}

impl Case {
    /// A case of this name in which nothing is told: there are no words, no files and no input, nothing
    /// fails, and nothing is due but the status 0.
    pub fn named(alloc: Global, name: &str) -> Result<Case, AllocError> {
        Ok(Case {
            name: String::from_str(alloc, name)?,
            call: Call {
                words: Vec::new(alloc),
                files: Vec::new(alloc),
                input: Vec::new(alloc),
                fetch_fails: Vec::new(alloc),
                input_fails: Vec::new(alloc),
                out_room: AMPLE_ROOM,
                out_fails: Vec::new(alloc),
                err_room: AMPLE_ROOM,
                err_fails: Vec::new(alloc),
            },
            wanted: Wanted {
                out: Vec::new(alloc),
                err: Vec::new(alloc),
                status: 0,
            },
        })
    }
}
