//! Shelves and sources in memory that never fail.

ghost use Rattle.std.specs.Prelude.{◌≡◌, ◌≢◌, ◌↔◌, map, vec_len, IsTrue, IsNone, Some, if◌then◌else◌};
ghost use Rattle.std.specs.Option.{option_copied};
ghost use Rattle.au_base.specs.Outside.{next_count, Counts, is_miss, FillsRoom, TellsFile, TakesByte};
ghost use Rattle.au_base.specs.Stored.{file_of, file_in};

use crate::limits::MOST_FILE_BYTES;
use crate::outside::{Fetch, Next, Shelf, Source};
use std::marker::Model;

/// Files by name that can always be read. Of two files with one name the first counts.
#[derive(Drop)]
pub struct SureShelf {
    files: Vec<(String, Vec<u8>)>,
    misses: u64,
}

impl Model for SureShelf {
    ghost use Rattle.std.specs.Prelude.{map};
    ghost use Rattle.au_base.specs.Stored.{ShelfContents, file_of};

    ghost Value = { ShelfContents };

    ghost view = { λ s. record { files = map file_of s.files.items; misses = s.misses } };
}

impl SureShelf {
    /// A shelf of these files, each with its name, that was asked for none yet.
    pub fn new(files: Vec<(String, Vec<u8>)>) -> SureShelf
        ensures files { result.files ≡ map file_of files.items }
        ensures misses { result.misses ≡ 0 }
    {
        SureShelf { files, misses: 0 }
    }
}

impl Shelf for SureShelf {
    ghost faults = { λ _. 0 };

    ghost misses = { λ s. s.misses };

    ghost files = { λ s. Some (file_in s.files) };

    fn fetch(&mut self, name: &str, room: &mut Vec<u8>) -> Fetch
        requires { vec_len room.old ≡ 0 }
        ensures room { FillsRoom result room.new.items }
        ensures file { TellsFile result (file_in self.old.files name.now) room.new.items }
        ensures files { self.new.files ≡ self.old.files }
        ensures sure { result ≢ Fetch.Failed }
        ensures missing { IsTrue (is_miss result) ↔ IsNone (file_in self.old.files name.now) }
        ensures misses { Counts (is_miss result) self.old.misses self.new.misses }
        ensures counted { self.new.misses
            ≡ (if is_miss result then next_count self.old.misses else self.old.misses) }
    {
        match find(&self.files, name) {
            Some(bytes) => fill(room, bytes),
            None => {
                self.misses = self.misses.saturating_add(1);
                Fetch::Missing
            }
        }
    }
}

/// The bytes of the first file of that name.
pub(crate) fn find<'a>(files: &'a [(String, Vec<u8>)], name: &str) -> Option<&'a [u8]>
    ensures { option_copied result ≡ file_in (map file_of files.now) name.now }
{
    for file in files {
        if file.0.as_str() == name {
            return Some(file.1.as_slice());
        }
    }
    None
}

/// Fills an empty room with a file's bytes, or with its front where it is too large.
pub(crate) fn fill(room: &mut Vec<u8>, bytes: &[u8]) -> Fetch
    requires { vec_len room.old ≡ 0 }
    ensures room { FillsRoom result room.new.items }
    ensures file { TellsFile result (Some bytes.now) room.new.items }
    ensures sure { result ≢ Fetch.Failed }
{
    let size = bytes.len().min(MOST_FILE_BYTES + 1);
    if room.extend_from_slice(&bytes[..size]).is_err() {
        return Fetch::Memory;
    }
    if size > MOST_FILE_BYTES {
        Fetch::TooLarge
    } else {
        Fetch::Whole
    }
}

/// Bytes that can always be read.
#[derive(Drop)]
pub struct SureSource {
    bytes: Vec<u8>,
    taken: usize,
}

impl Model for SureSource {
    ghost use Rattle.std.specs.Prelude.{ℕ, List, drop, ◌≤◌, vec_len};

    ghost Value = { List ℕ };

    ghost view = { λ s. drop s.taken s.bytes.items };

    ghost invariant = { λ s. s.taken ≤ vec_len s.bytes };
}

impl SureSource {
    /// A source of these bytes.
    pub fn new(bytes: Vec<u8>) -> SureSource
        ensures { result ≡ bytes.items }
    {
        SureSource { bytes, taken: 0 }
    }

    /// The bytes that are left.
    pub fn left(&self) -> &[u8]
        ensures { result.now ≡ self.now }
    {
        &self.bytes[self.taken..]
    }
}

impl Source for SureSource {
    ghost faults = { λ _. 0 };

    ghost left = { λ s. Some s };

    fn next(&mut self) -> Next
        ensures left { TakesByte result (Some self.old) (Some self.new) }
        ensures sure { result ≢ Next.Failed }
    {
        match self.bytes.get(self.taken) {
            Some(byte) => {
                let byte = *byte;
                self.taken += 1;
                Next::Byte(byte)
            }
            None => Next::End,
        }
    }
}
