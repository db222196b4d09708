//! Prints what differs.

use crate::calling::Ending;
use crate::cases::Wanted;
use crate::comparing::is_told;
use std::io;

/// Prints a case that failed: its name, and what was wanted and what came where they differ.
pub fn report<R: Print + AllocGlobal>(
    rt: &R,
    name: &str,
    wanted: &Wanted,
    ending: &Ending,
) -> io::Result<()> {
    println!(rt; "case: {name}")?;
    if ending.out.written() != wanted.out.as_slice() {
        report_bytes(rt, "out", wanted.out.as_slice(), ending.out.written())?;
    }
    if !is_told(wanted.err.as_slice(), ending.err.written()) {
        report_bytes(rt, "err", wanted.err.as_slice(), ending.err.written())?;
    }
    report_status(rt, wanted.status, ending.status.number())
}

/// Prints two statuses if they differ.
fn report_status<R: Print>(rt: &R, wanted: u8, came: u8) -> io::Result<()> {
    if wanted == came {
        return Ok(());
    }
    println!(rt; "status wanted: {wanted}, came: {came}")
}

/// Prints the bytes that were wanted and those that came.
fn report_bytes<R: Print + AllocGlobal>(
    rt: &R,
    what: &str,
    wanted: &[u8],
    came: &[u8],
) -> io::Result<()> {
    println!(rt; "{what} wanted:")?;
    print_bytes(rt, wanted)?;
    println!(rt; "{what} came:")?;
    print_bytes(rt, came)
}

/// Prints bytes as a case file has them, a line behind another.
fn print_bytes<R: Print + AllocGlobal>(rt: &R, bytes: &[u8]) -> io::Result<()> {
    for line in bytes.split_inclusive(|byte| *byte == b'\n') {
        print_line(rt, line)?;
    }
    Ok(())
}

/// Prints a line: behind `|` if a newline ends it, and else behind `\`.
fn print_line<R: Print + AllocGlobal>(rt: &R, line: &[u8]) -> io::Result<()> {
    let (mark, bytes) = match line.strip_suffix(b"\n") {
        Some(bytes) => ('|', bytes),
        None => ('\\', line),
    };
    let text = String::from_utf8_lossy(rt.alloc(), bytes)?;
    println!(rt; "{mark}{text}")
}
