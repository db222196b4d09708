//! A source in memory, which fails at the calls that it was told to fail at.

ghost use Rattle.std.specs.Prelude.{◌≡◌, Some, if◌then◌else◌};
ghost use Rattle.au_base.specs.Outside.{next_count, Counts, is_failed_next, TakesByte};
ghost use Rattle.au_base.specs.Stored.{SourceContents, source_answer};

use crate::outside::{Next, Source};
use std::marker::Model;

/// Bytes in order.
#[derive(Drop)]
pub struct MemorySource {
    bytes: Vec<u8>,
    taken: usize,
    calls: u64,
    fails: Vec<u64>,
    faults: u64,
}

impl Model for MemorySource {
    ghost use Rattle.std.specs.Prelude.{drop, ◌≤◌, vec_len};
    ghost use Rattle.au_base.specs.Stored.{SourceContents};

    ghost Value = { SourceContents };

    ghost view = { λ s. record {
      left = drop s.taken s.bytes.items;
      calls = s.calls;
      fails = s.fails.items;
      faults = s.faults;
    } };

    ghost invariant = { λ s. s.taken ≤ vec_len s.bytes };
}

impl MemorySource {
    /// A source of these bytes. `fails` names the calls of `next` that are to fail, counted from 1.
    pub fn new(bytes: Vec<u8>, fails: Vec<u64>) -> MemorySource
        ensures { result ≡ record { left = bytes.items; calls = 0; fails = fails.items; faults = 0 } }
    {
        MemorySource {
            bytes,
            taken: 0,
            calls: 0,
            fails,
            faults: 0,
        }
    }

    /// The bytes that are left.
    pub fn left(&self) -> &[u8]
        ensures { result.now ≡ self.now.left }
    {
        &self.bytes[self.taken..]
    }
}

impl Source for MemorySource {
    ghost faults = { λ s. s.faults };

    ghost left = { λ s. Some s.left };

    fn next(&mut self) -> Next
        ensures answer { result ≡ source_answer self.old }
        ensures left { TakesByte result (Some self.old.left) (Some self.new.left) }
        ensures calls { self.new.calls ≡ next_count self.old.calls }
        ensures faults { self.new.faults
            ≡ (if is_failed_next result then next_count self.old.faults else self.old.faults) }
        ensures counts { Counts (is_failed_next result) self.old.faults self.new.faults }
        ensures fails { self.new.fails ≡ self.old.fails }
    {
        self.calls = self.calls.saturating_add(1);
        if self.fails.contains(&self.calls) {
            self.faults = self.faults.saturating_add(1);
            return Next::Failed;
        }
        match self.bytes.get(self.taken) {
            Some(byte) => {
                let byte = *byte;
                self.taken += 1;
                Next::Byte(byte)
            }
            None => Next::End,
        }
    }
}
