//! Reads case files, a line at a time. `docs/CASES.md` tells their form.

use crate::cases::Case;
use crate::faults::{LineFault, Malformed};
use std::alloc::{AllocError, Global};
use std::str::FromStr;

/// What the bytes of a line are added to.
#[derive(Clone, Copy)]
enum Part {
    /// Nothing: the line above is a head with a value.
    Nothing,
    /// The last file of the case.
    File,
    /// The input.
    Input,
    /// What is due on `out`.
    Out,
    /// What is due on `err`.
    Err,
}

/// The cases of a file's bytes, in order.
pub fn read_cases(alloc: Global, bytes: &[u8]) -> Result<Vec<Case>, Malformed> {
    let mut cases = Vec::new(alloc);
    let mut part = Part::Nothing;
    for (index, line) in bytes.split(|byte| *byte == b'\n').enumerate() {
        match read_line(alloc, &mut cases, part, line) {
            Ok(next) => part = next,
            Err(fault) => {
                return Err(Malformed {
                    line: index.saturating_add(1),
                    fault,
                });
            }
        }
    }
    Ok(cases)
}

/// Reads a line behind these cases, and says what the bytes of the next one are added to.
fn read_line(
    alloc: Global,
    cases: &mut Vec<Case>,
    part: Part,
    line: &[u8],
) -> Result<Part, LineFault> {
    match line.split_first() {
        None | Some((b'#', _)) => Ok(part),
        Some((b'|', bytes)) => read_bytes(cases, part, bytes, b"\n"),
        Some((b'\\', bytes)) => read_bytes(cases, part, bytes, b""),
        Some(_) => read_head(alloc, cases, text_of(line)?),
    }
}

/// The text of a line.
fn text_of(line: &[u8]) -> Result<&str, LineFault> {
    match str::from_utf8(line) {
        Ok(text) => Ok(text),
        Err(_) => Err(LineFault::NoText),
    }
}

/// Adds bytes, and an end, to a part of the last case.
fn read_bytes(
    cases: &mut Vec<Case>,
    part: Part,
    bytes: &[u8],
    end: &[u8],
) -> Result<Part, LineFault> {
    let Some(case) = cases.last_mut() else {
        return Err(LineFault::NoCase);
    };
    match part {
        Part::Nothing => return Err(LineFault::NoRoom),
        Part::File => match case.call.files.last_mut() {
            None => return Err(LineFault::NoRoom),
            Some(file) => append(&mut file.1, bytes, end)?,
        },
        Part::Input => append(&mut case.call.input, bytes, end)?,
        Part::Out => append(&mut case.wanted.out, bytes, end)?,
        Part::Err => append(&mut case.wanted.err, bytes, end)?,
    }
    Ok(part)
}

/// Adds bytes and an end to a room.
fn append(room: &mut Vec<u8>, bytes: &[u8], end: &[u8]) -> Result<(), AllocError> {
    room.extend_from_slice(bytes)?;
    room.extend_from_slice(end)
}

/// Reads a head, which begins a case or tells something of the last one.
fn read_head(alloc: Global, cases: &mut Vec<Case>, line: &str) -> Result<Part, LineFault> {
    let (head, value) = line.split_once(": ").unwrap_or((line, ""));
    if head == "case" {
        cases.push(Case::named(alloc, value)?)?;
    } else {
        match cases.last_mut() {
            None => return Err(LineFault::NoCase),
            Some(case) => read_value(alloc, case, head, value)?,
        }
    }
    Ok(part_of(head))
}

/// What the bytes below a head are added to.
fn part_of(head: &str) -> Part {
    match head {
        "file" | "blanks" | "repeat" => Part::File,
        "in:" => Part::Input,
        "out:" => Part::Out,
        "err:" => Part::Err,
        _ => Part::Nothing,
    }
}

/// Reads what a head tells of a case by its value.
fn read_value(alloc: Global, case: &mut Case, head: &str, value: &str) -> Result<(), LineFault> {
    match head {
        "words:" | "in:" | "out:" | "err:" => Ok(()),
        "words" => read_words(alloc, &mut case.call.words, value),
        "file" => open_file(alloc, &mut case.call.files, value),
        "blanks" => add_copies(&mut case.call.files, value, " "),
        "repeat" => {
            let (count, text) = value.split_once(" ").unwrap_or((value, ""));
            add_copies(&mut case.call.files, count, text)
        }
        "shelf fails" => read_numbers(&mut case.call.fetch_fails, value),
        "in fails" => read_numbers(&mut case.call.input_fails, value),
        "out room" => read_number(&mut case.call.out_room, value),
        "out fails" => read_numbers(&mut case.call.out_fails, value),
        "err room" => read_number(&mut case.call.err_room, value),
        "err fails" => read_numbers(&mut case.call.err_fails, value),
        "status" => read_number(&mut case.wanted.status, value),
        _ => Err(LineFault::NoHead),
    }
}

/// Adds words, between which a blank stands.
fn read_words(alloc: Global, words: &mut Vec<String>, value: &str) -> Result<(), LineFault> {
    for word in value.split(' ') {
        words.push(String::from_str(alloc, word)?)?;
    }
    Ok(())
}

/// Adds an empty file of this name.
fn open_file(
    alloc: Global,
    files: &mut Vec<(String, Vec<u8>)>,
    name: &str,
) -> Result<(), LineFault> {
    files.push((String::from_str(alloc, name)?, Vec::new(alloc)))?;
    Ok(())
}

/// Adds a text to the last file so many times.
fn add_copies(
    files: &mut Vec<(String, Vec<u8>)>,
    times: &str,
    text: &str,
) -> Result<(), LineFault> {
    let mut count = 0_u32;
    read_number(&mut count, times)?;
    match files.last_mut() {
        None => Err(LineFault::NoRoom),
        Some(file) => append_copies(&mut file.1, count, text.as_bytes()),
    }
}

/// Adds bytes to a room so many times.
fn append_copies(room: &mut Vec<u8>, count: u32, bytes: &[u8]) -> Result<(), LineFault> {
    for _ in 0..count {
        room.extend_from_slice(bytes)?;
    }
    Ok(())
}

/// Adds numbers, between which blanks stand.
fn read_numbers(numbers: &mut Vec<u64>, value: &str) -> Result<(), LineFault> {
    for text in value.split(' ') {
        let mut number = 0;
        read_number(&mut number, text)?;
        numbers.push(number)?;
    }
    Ok(())
}

/// Reads a number that fits.
fn read_number<N: FromStr + Drop>(number: &mut N, text: &str) -> Result<(), LineFault>
where
    N::Err: Drop,
{
    match text.parse::<N>() {
        Ok(read) => {
            *number = read;
            Ok(())
        }
        Err(_) => Err(LineFault::NoNumber),
    }
}
