//! A sink in memory, with room for so many bytes.

ghost use Rattle.std.specs.Prelude.{◌≡◌, ◌++◌, [], take, IfOk, if◌then◌else◌};
ghost use Rattle.au_base.specs.Outside.{next_count, taken, is_failed_put, TakesPart, Counts};
ghost use Rattle.au_base.specs.Stored.{sink_answer};

use crate::faults::Memory;
use crate::outside::{Put, Sink};
use std::alloc::Global;
use std::marker::Model;

/// Keeps what is written. It fails at the calls that it was told to fail at, and where it is full.
#[derive(Drop)]
pub struct MemorySink {
    bytes: Vec<u8>,
    room: usize,
    calls: u64,
    fails: Vec<u64>,
    faults: u64,
}

impl Model for MemorySink {
    ghost use Rattle.std.specs.Prelude.{◌≤◌, vec_len, vec_capacity};
    ghost use Rattle.au_base.specs.Stored.{SinkContents};

    ghost Value = { SinkContents };

    ghost view = { λ s. record {
      room = s.room;
      written = s.bytes.items;
      calls = s.calls;
      fails = s.fails.items;
      faults = s.faults;
    } };

    ghost invariant = { λ s. (vec_len s.bytes ≤ s.room) × (s.room ≤ vec_capacity s.bytes) };
}

impl MemorySink {
    /// A sink with room for so many bytes, which it takes at once. `fails` names the calls of `put`
    /// that are to fail, counted from 1.
    pub fn new(alloc: Global, room: usize, fails: Vec<u64>) -> Result<MemorySink, Memory>
        ensures { IfOk result (λ sink. sink
            ≡ record { room = room; written = []; calls = 0; fails = fails.items; faults = 0 }) }
    {
        let bytes = Vec::with_capacity(alloc, room)?;
        Ok(MemorySink {
            bytes,
            room,
            calls: 0,
            fails,
            faults: 0,
        })
    }

    /// The bytes that were written.
    pub fn written(&self) -> &[u8]
        ensures { result.now ≡ self.now.written }
    {
        self.bytes.as_slice()
    }
}

impl Sink for MemorySink {
    ghost use Rattle.std.specs.Prelude.{Some};

    ghost faults = { λ s. s.faults };

    ghost written = { λ s. Some s.written };

    fn put(&mut self, piece: &[u8]) -> Put
        ensures answer { result ≡ sink_answer self.old piece.now }
        ensures written { self.new.written ≡ self.old.written ++ take (taken result) piece.now }
        ensures calls { self.new.calls ≡ next_count self.old.calls }
        ensures faults { self.new.faults
            ≡ (if is_failed_put result then next_count self.old.faults else self.old.faults) }
        ensures part { TakesPart result piece.now }
        ensures counts { Counts (is_failed_put result) self.old.faults self.new.faults }
        ensures rest { (self.new.room ≡ self.old.room) × (self.new.fails ≡ self.old.fails) }
    {
        self.calls = self.calls.saturating_add(1);
        if self.fails.contains(&self.calls) || self.bytes.len() >= self.room {
            self.faults = self.faults.saturating_add(1);
            return Put::Failed;
        }
        let size = piece.len().min(self.room - self.bytes.len());
        self.bytes.extend_from_slice(&piece[..size]).unwrap();
        Put::Took(size)
    }
}
