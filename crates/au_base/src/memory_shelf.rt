//! A shelf in memory, which fails at the calls that it was told to fail at.

ghost use Rattle.std.specs.Prelude.{◌≡◌, ◌↔◌, [], map, vec_len, IsTrue, IsFalse, IsNone, Some, if◌then◌else◌};
ghost use Rattle.au_base.specs.Outside.{next_count, Counts, is_fault, is_miss, FillsRoom, TellsFile};
ghost use Rattle.au_base.specs.Stored.{file_of, file_in, next_fails};

use crate::outside::{Fetch, Shelf};
use crate::sure::{fill, find};
use std::marker::Model;

/// Files by name. Of two files with one name the first counts.
#[derive(Drop)]
pub struct MemoryShelf {
    files: Vec<(String, Vec<u8>)>,
    calls: u64,
    fails: Vec<u64>,
    faults: u64,
    misses: u64,
}

impl Model for MemoryShelf {
    ghost use Rattle.std.specs.Prelude.{map};
    ghost use Rattle.au_base.specs.Stored.{MemoryShelfContents, file_of};

    ghost Value = { MemoryShelfContents };

    ghost view = { λ s. record {
      files = map file_of s.files.items;
      calls = s.calls;
      fails = s.fails.items;
      faults = s.faults;
      misses = s.misses;
    } };
}

impl MemoryShelf {
    /// A shelf of these files that was asked for none yet. `fails` names the calls of `fetch` that are
    /// to fail, counted from 1.
    pub fn new(files: Vec<(String, Vec<u8>)>, fails: Vec<u64>) -> MemoryShelf
        ensures { result ≡ record {
          files = map file_of files.items;
          calls = 0;
          fails = fails.items;
          faults = 0;
          misses = 0;
        } }
    {
        MemoryShelf {
            files,
            calls: 0,
            fails,
            faults: 0,
            misses: 0,
        }
    }
}

impl Shelf for MemoryShelf {
    ghost faults = { λ s. s.faults };

    ghost misses = { λ s. s.misses };

    ghost files = { λ s. Some (file_in s.files) };

    fn fetch(&mut self, name: &str, room: &mut Vec<u8>) -> Fetch
        requires { vec_len room.old ≡ 0 }
        ensures room { FillsRoom result room.new.items }
        ensures file { TellsFile result (file_in self.old.files name.now) room.new.items }
        ensures fails { is_fault result ≡ next_fails self.old.calls self.old.fails }
        ensures missing { IsFalse (is_fault result)
            → IsTrue (is_miss result) ↔ IsNone (file_in self.old.files name.now) }
        ensures calls { self.new.calls ≡ next_count self.old.calls }
        ensures faults { self.new.faults
            ≡ (if is_fault result then next_count self.old.faults else self.old.faults) }
        ensures misses { self.new.misses
            ≡ (if is_miss result then next_count self.old.misses else self.old.misses) }
        ensures counts_faults { Counts (is_fault result) self.old.faults self.new.faults }
        ensures counts_misses { Counts (is_miss result) self.old.misses self.new.misses }
        ensures rest { (self.new.files ≡ self.old.files) × (self.new.fails ≡ self.old.fails) }
    {
        self.calls = self.calls.saturating_add(1);
        if self.fails.contains(&self.calls) {
            self.faults = self.faults.saturating_add(1);
            return Fetch::Failed;
        }
        match find(&self.files, name) {
            Some(bytes) => fill(room, bytes),
            None => {
                self.misses = self.misses.saturating_add(1);
                Fetch::Missing
            }
        }
    }
}
