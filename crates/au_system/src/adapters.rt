//! The real outside: files, standard input, standard output and standard error. The system tells
//! none of their contents, so what they hold is the edge that is trusted; where the library's reader or
//! writer knows its bytes, the functions below pass on just those.

ghost use Rattle.std.specs.Prelude.{◌≡◌, ◌≢◌, ◌+◌, ◌<◌, ◌≤◌, ◌++◌, [], ◌∷◌, take, length, vec_len};
ghost use Rattle.std.specs.Prelude.{None, Ok, IfOk, IfSome, IsTrue, MatchOption, OnErr, OnOk};
ghost use Rattle.std.specs.Option.{ForSome};
ghost use Rattle.std.specs.IoError.{error_kind};
ghost use Rattle.std.specs.Io.KnownBytes.{Appends, Consumes, IsAtEnd, Keeps, prepend_known};
ghost use Rattle.au_base.specs.Limits.{most_file_bytes};
ghost use Rattle.au_base.specs.Outside.{Counts, FillsRoom, is_fault, is_miss};

use crate::block::Block;
use au_base::{Fetch, MOST_FILE_BYTES, Next, Put, Shelf, Sink, Source};
use std::io::{ErrorKind, Read, Write};
use std::rt::Files;
use std::{fs, io};

/// The files of the file system, by path. A file that isn't found is missing, and every other error
/// is a fault.
#[derive(Drop)]
pub struct DiskShelf<R> {
    rt: R,
    faults: u64,
    misses: u64,
}

impl<R: Files> DiskShelf<R> {
    /// The files that this runtime reaches.
    pub fn new(rt: R) -> DiskShelf<R>
        ensures faults { result.faults ≡ 0 }
        ensures misses { result.misses ≡ 0 }
    {
        DiskShelf {
            rt,
            faults: 0,
            misses: 0,
        }
    }

    /// The answer for an error, which is counted.
    fn refuse(&mut self, error: &io::Error) -> Fetch
        ensures missing { error_kind error.now ≡ ErrorKind.NotFound → result ≡ Fetch.Missing }
        ensures memory { error_kind error.now ≡ ErrorKind.OutOfMemory → result ≡ Fetch.Memory }
        ensures failed { error_kind error.now ≢ ErrorKind.NotFound
            → error_kind error.now ≢ ErrorKind.OutOfMemory → result ≡ Fetch.Failed }
        ensures faults { Counts (is_fault result) self.old.faults self.new.faults }
        ensures misses { Counts (is_miss result) self.old.misses self.new.misses }
        ensures room { FillsRoom result [] }
    {
        match error.kind() {
            ErrorKind::NotFound => {
                self.misses = self.misses.saturating_add(1);
                Fetch::Missing
            }
            ErrorKind::OutOfMemory => Fetch::Memory,
            _ => {
                self.faults = self.faults.saturating_add(1);
                Fetch::Failed
            }
        }
    }
}

impl<R: Files> Shelf for DiskShelf<R> {
    ghost faults = { λ s. s.faults };

    ghost misses = { λ s. s.misses };

    ghost files = { λ _. None };

    fn fetch(&mut self, name: &str, room: &mut Vec<u8>) -> Fetch {
        let file = match fs::open(&self.rt, name) {
            Ok(file) => file,
            Err(error) => return self.refuse(&error),
        };
        match read_front(file, room) {
            Ok(()) if room.len() > MOST_FILE_BYTES => Fetch::TooLarge,
            Ok(()) => Fetch::Whole,
            Err(error) => {
                room.clear();
                self.refuse(&error)
            }
        }
    }
}

/// Reads to the end, or one byte more than a file may have.
fn read_front<F: Read + Drop>(file: F, room: &mut Vec<u8>) -> io::Result<()>
    requires { room.old.items ≡ [] }
    ensures within { OnOk result (vec_len room.new ≤ most_file_bytes + 1) }
    ensures bytes { OnOk result (IfSome (F.remaining file)
        (λ bytes. room.new.items ≡ take (most_file_bytes + 1) bytes)) }
{
    file.take(MOST_FILE_BYTES as u64 + 1).read_to_end(room)?;
    room.truncate(MOST_FILE_BYTES + 1);
    Ok(())
}

/// Standard input. A block is read only where a byte is asked for and none is held, so that a program
/// waits for no input that it hasn't asked for. An end is the last of it, and the reader isn't asked again.
#[derive(Drop)]
pub struct StdinSource<R: Read> {
    reader: R,
    block: Block,
    ended: bool,
    faults: u64,
    ghost none_held: { IsTrue ended → block ≡ [] },
    ghost none_left: { IsTrue ended → ForSome (R.remaining reader) (λ left. left ≡ []) },
}

impl<R: Read> StdinSource<R> {
    /// The bytes of this reader.
    pub fn new(reader: R) -> StdinSource<R>
        ensures faults { result.faults ≡ 0 }
        ensures bytes { result.reader ≡ reader × result.block ≡ [] }
    {
        StdinSource {
            reader,
            block: Block::new(),
            ended: false,
            faults: 0,
        }
    }

    /// The next byte of the reader, or none at its end. A read that fails loses none.
    fn next_byte(&mut self) -> io::Result<Option<u8>>
        ensures bytes { IfOk result (λ next. MatchOption next
            (IsAtEnd (prepend_known self.new.block (R.remaining self.new.reader)))
            (λ byte. Consumes (prepend_known self.old.block (R.remaining self.old.reader))
            (prepend_known self.new.block (R.remaining self.new.reader)) (byte ∷ []))) }
        ensures kept { OnErr result (Keeps (prepend_known self.old.block (R.remaining self.old.reader))
            (prepend_known self.new.block (R.remaining self.new.reader))) }
        ensures unasked { self.old.block ≢ [] → self.new.reader ≡ self.old.reader }
        ensures ended { result ≡ Ok None → IsTrue self.new.ended }
        ensures over { IsTrue self.old.ended → (result ≡ Ok None) × (self.new.reader ≡ self.old.reader) }
        ensures faults { self.new.faults ≡ self.old.faults }
    {
        if self.block.is_empty() && !self.ended {
            self.block.fill(&mut self.reader)?;
            self.ended = self.block.is_empty();
        }
        Ok(self.block.take())
    }
}

impl<R: Read> Source for StdinSource<R> {
    ghost faults = { λ s. s.faults };

    ghost left = { λ _. None };

    fn next(&mut self) -> Next {
        match self.next_byte() {
            Ok(Some(byte)) => Next::Byte(byte),
            Ok(None) => Next::End,
            Err(_) => {
                self.faults = self.faults.saturating_add(1);
                Next::Failed
            }
        }
    }
}

/// A standard stream that is written. Each call writes and flushes.
#[derive(Drop)]
pub struct StreamSink<W> {
    writer: W,
    faults: u64,
}

/// Standard output.
pub type StdoutSink<W> = StreamSink<W>;

/// Standard error.
pub type StderrSink<W> = StreamSink<W>;

impl<W: Write> StreamSink<W> {
    /// The stream of this writer.
    pub fn new(writer: W) -> StreamSink<W>
        ensures faults { result.faults ≡ 0 }
    {
        StreamSink { writer, faults: 0 }
    }

    /// Writes some of a piece, and flushes.
    fn write(&mut self, piece: &[u8]) -> io::Result<usize>
        ensures size { IfOk result (λ size. size ≤ length piece.now) }
        ensures bytes { IfOk result
            (λ size. Appends (W.contents self.old.writer) (W.contents self.new.writer)
            (take size piece.now)) }
        ensures faults { self.new.faults ≡ self.old.faults }
    {
        let size = self.writer.write(piece)?;
        self.writer.flush()?;
        Ok(size)
    }
}

impl<W: Write> Sink for StreamSink<W> {
    ghost faults = { λ s. s.faults };

    ghost written = { λ _. None };

    fn put(&mut self, piece: &[u8]) -> Put {
        match self.write(piece) {
            Ok(size) if size > 0 || piece.is_empty() => Put::Took(size),
            _ => {
                self.faults = self.faults.saturating_add(1);
                Put::Failed
            }
        }
    }
}
