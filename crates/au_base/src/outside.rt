//! The outside of the program, as traits: where files come from, where input comes from, and where
//! output goes. Contracts see how often a call of an object failed, and what the object holds where
//! it can tell: an object in memory tells it, and one of the operating system doesn't.

ghost use Rattle.std.specs.Prelude.{◌≡◌, ℕ, List, take, vec_len, Option, IfSome};
ghost use Rattle.au_base.specs.Outside.{Files, Counts, is_fault, is_miss, FillsRoom, TellsFile};
ghost use Rattle.au_base.specs.Outside.{is_failed_next, TakesByte, is_failed_put, TakesPart, taken, Adds};

/// What `fetch` answers.
#[derive(Clone, Copy, Debug, PartialEq, Eq)]
pub enum Fetch {
    /// The room holds the whole file.
    Whole,
    /// There is no such file.
    Missing,
    /// The file is larger than a file may be. The room holds its front, one byte more than that.
    TooLarge,
    /// The file couldn't be read.
    Failed,
    /// There was no memory to hold the file.
    Memory,
}

/// Files by name.
pub trait Shelf {
    /// How often a call failed. It never falls, and stands still at 2^64 - 1.
    ghost faults: { Self → ℕ };

    /// How often no file had the name. It never falls, and stands still at 2^64 - 1.
    ghost misses: { Self → ℕ };

    /// The files, where the shelf tells them.
    ghost files: { Self → Option Files };

    /// Puts the file of that name into an empty room.
    fn fetch(&mut self, name: &str, room: &mut Vec<u8>) -> Fetch
        requires { vec_len room.old ≡ 0 }
        ensures room { FillsRoom result room.new.items }
        ensures file { IfSome (files self.old) (λ told. TellsFile result (told name.now) room.new.items) }
        ensures files { files self.new ≡ files self.old }
        ensures faults { Counts (is_fault result) (faults self.old) (faults self.new) }
        ensures misses { Counts (is_miss result) (misses self.old) (misses self.new) };
}

/// What `next` answers.
#[derive(Clone, Copy, Debug, PartialEq, Eq)]
pub enum Next {
    /// The next byte.
    Byte(u8),
    /// No byte is left.
    End,
    /// The byte couldn't be read.
    Failed,
}

/// Bytes in order.
pub trait Source {
    /// How often a call failed. It never falls, and stands still at 2^64 - 1.
    ghost faults: { Self → ℕ };

    /// The bytes that are left, where the source tells them.
    ghost left: { Self → Option (List ℕ) };

    /// Takes the next byte.
    fn next(&mut self) -> Next
        ensures left { TakesByte result (left self.old) (left self.new) }
        ensures faults { Counts (is_failed_next result) (faults self.old) (faults self.new) };
}

/// What `put` answers.
#[derive(Clone, Copy, Debug, PartialEq, Eq)]
pub enum Put {
    /// So many bytes at the front of the piece were written.
    Took(usize),
    /// Nothing was written.
    Failed,
}

/// Where bytes are written.
pub trait Sink {
    /// How often a call failed. It never falls, and stands still at 2^64 - 1.
    ghost faults: { Self → ℕ };

    /// The bytes that were written, where the sink tells them.
    ghost written: { Self → Option (List ℕ) };

    /// Writes some of the piece: at least one byte of a piece that isn't empty.
    fn put(&mut self, piece: &[u8]) -> Put
        ensures part { TakesPart result piece.now }
        ensures written { Adds (written self.old) (written self.new) (take (taken result) piece.now) }
        ensures faults { Counts (is_failed_put result) (faults self.old) (faults self.new) };
}
