//! A block of bytes that were read at once and are handed out one by one.

ghost use Rattle.std.specs.Prelude.{◌≡◌, ◌↔◌, List, ℕ, [], ◌∷◌, IsTrue, MatchOption, OnErr, OnOk};
ghost use Rattle.std.specs.Io.KnownBytes.{Consumes, IsAtEnd, Keeps};

use std::io::{self, Read};
use std::marker::Model;

/// The most bytes of a block.
const BLOCK_BYTES: usize = 8192;

/// The bytes that were read and not handed out yet.
#[derive(Drop)]
pub struct Block {
    bytes: [u8; BLOCK_BYTES],
    place: usize,
    filled: usize,
}

impl Model for Block {
    ghost use Rattle.std.specs.Prelude.{◌≤◌, List, ℕ, drop, length, take};

    ghost Value = { List ℕ };

    ghost view = { λ b. drop b.place (take b.filled b.bytes) };

    ghost invariant = { λ b. (b.place ≤ b.filled) × (b.filled ≤ length b.bytes) };
}

impl Block {
    /// A block that holds no byte.
    pub fn new() -> Block
        ensures { result ≡ [] }
    {
        Block {
            bytes: [0; BLOCK_BYTES],
            place: 0,
            filled: 0,
        }
    }

    /// Whether no byte is held.
    pub fn is_empty(&self) -> bool
        ensures { IsTrue result ↔ (self.now ≡ []) }
    {
        self.place == self.filled
    }

    /// Hands out the next byte, if one is held.
    pub fn take(&mut self) -> Option<u8>
        ensures { MatchOption result ((self.old ≡ []) × (self.new ≡ []))
            (λ byte. self.old ≡ byte ∷ self.new) }
    {
        let byte = *self.bytes[..self.filled].get(self.place)?;
        self.place += 1;
        Some(byte)
    }

    /// Reads once, where no byte is held. No byte is held after it only at the reader's end, or where
    /// reading failed.
    pub fn fill<R: Read>(&mut self, reader: &mut R) -> io::Result<()>
        requires { self.old ≡ [] }
        ensures bytes { OnOk result (Consumes (R.remaining reader.old) (R.remaining reader.new) self.new) }
        ensures end { OnOk result (self.new ≡ [] → IsAtEnd (R.remaining reader.new)) }
        ensures empty { OnErr result (self.new ≡ []) }
        ensures kept { OnErr result (Keeps (R.remaining reader.old) (R.remaining reader.new)) }
    {
        self.filled = 0;
        self.place = 0;
        self.filled = reader.read(&mut self.bytes)?;
        Ok(())
    }
}
