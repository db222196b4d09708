//! The adapters, over real files.

use au_base::{Fetch, Next, Put, Shelf, Sink, Source, put_all};
use au_system::{DiskShelf, StderrSink, StdinSource, StdoutSink};
use std::fs;
use std::io::{self, ErrorKind, Read};

/// Whether a shelf answers so for a name, with these bytes in the room.
fn fetches(rt: &HostRuntime, name: &str, answer: Fetch, bytes: &[u8]) -> io::Result<bool> {
    let mut shelf = DiskShelf::new(rt.clone()?);
    let mut room = Vec::new(rt.alloc());
    Ok(shelf.fetch(name, &mut room) == answer && room.as_slice() == bytes)
}

/// Whether a file of these bytes is whole, one that isn't there is missing, and a folder can't be read.
fn shelf_answers(rt: &HostRuntime) -> io::Result<bool> {
    Ok(
        fetches(rt, "shelf.txt", Fetch::Whole, b"ab")?
            && fetches(rt, "no such file", Fetch::Missing, b"")?
            && fetches(rt, ".", Fetch::Failed, b"")?,
    )
}

/// A file is whole, or isn't there, or can't be read.
#[test]
fn disk_shelf(rt: HostRuntime) {
    assert!(rt; fs::write(&rt, "shelf.txt", "ab").is_ok());
    assert!(rt; matches!(shelf_answers(&rt), Ok(true)));
    assert!(rt; fs::remove_file(&rt, "shelf.txt").is_ok());
}

/// Whether a source gives these bytes in order.
fn gives<S: Source>(input: &mut S, bytes: &[u8]) -> bool {
    for byte in bytes {
        if input.next() != Next::Byte(*byte) {
            return false;
        }
    }
    true
}

/// Whether a source is at its end, each time that it is asked.
fn is_at_end<S: Source>(input: &mut S) -> bool {
    input.next() == Next::End && input.next() == Next::End
}

/// More bytes than a block holds.
fn long_bytes(rt: &HostRuntime) -> io::Result<Vec<u8>> {
    let mut bytes = Vec::new(rt.alloc());
    bytes.resize(20_000, b'a')?;
    bytes.push(b'z')?;
    Ok(bytes)
}

/// Whether the bytes of a file come in order, up to the end.
fn source_gives(rt: &HostRuntime) -> io::Result<bool> {
    let bytes = long_bytes(rt)?;
    fs::write(rt, "source.txt", &bytes)?;
    let mut input = StdinSource::new(fs::open(rt, "source.txt")?);
    Ok(gives(&mut input, bytes.as_slice()) && is_at_end(&mut input))
}

/// Bytes in order, from block to block, up to the end.
#[test]
fn stdin_source(rt: HostRuntime) {
    assert!(rt; matches!(source_gives(&rt), Ok(true)));
    assert!(rt; fs::remove_file(&rt, "source.txt").is_ok());
}

/// A reader that gives two bytes, then fails, then gives one more and is at its end. It counts its calls.
#[derive(Drop)]
struct Fitful {
    calls: u32,
}

impl Read for Fitful {
    fn read(&mut self, buf: &mut [u8]) -> io::Result<usize> {
        self.calls = self.calls.saturating_add(1);
        let mut piece = match self.calls {
            1 => b"ab".as_slice(),
            2 => return Err(ErrorKind::ConnectionReset.into()),
            3 => b"c".as_slice(),
            _ => b"".as_slice(),
        };
        piece.read(buf)
    }
}

/// A read that fails loses no byte, and the reader is asked only where no byte is held,
/// and not behind its end.
#[test]
fn stdin_source_asks(rt: HostRuntime) {
    let mut reader = Fitful { calls: 0 };
    let mut input = StdinSource::new(&mut reader);
    assert!(rt; gives(&mut input, b"ab"));
    assert!(rt; reader.calls == 1);
    let mut input = StdinSource::new(&mut reader);
    assert!(rt; input.next() == Next::Failed);
    assert!(rt; gives(&mut input, b"c") && is_at_end(&mut input));
    assert!(rt; reader.calls == 4);
}

/// Whether what is written on a new file stands there.
fn out_takes(rt: &HostRuntime) -> io::Result<bool> {
    let mut out = StdoutSink::new(fs::create(rt, "sink.txt")?);
    let takes = put_all(&mut out, b"one\n").is_ok();
    let text = fs::read(rt, "sink.txt")?;
    Ok(takes && text.as_slice() == b"one\n".as_slice())
}

/// Whether a file that is open for reading alone takes nothing.
fn err_fails(rt: &HostRuntime) -> io::Result<bool> {
    let mut err = StderrSink::new(fs::open(rt, "sink.txt")?);
    Ok(err.put(b"x") == Put::Failed)
}

/// What is written stands there, and a file that is open for reading alone takes nothing.
#[test]
fn sinks(rt: HostRuntime) {
    assert!(rt; matches!(out_takes(&rt), Ok(true)));
    assert!(rt; matches!(err_fails(&rt), Ok(true)));
    assert!(rt; fs::remove_file(&rt, "sink.txt").is_ok());
}
