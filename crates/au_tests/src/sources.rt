//! Files made of pieces, and what they come to.

use au_base::{Limit, LimitKind, Memory, Pos, Text, Token};
use au_lexer::{LexFault, lex};
use au_parser::{ParseFault, parse};
use std::alloc::Global;
use std::process::Abort;
use std::test::Fail;

/// What a file is due to come to.
#[derive(Clone, Copy)]
pub(crate) enum Due {
    /// A tree.
    Tree,
    /// So many tokens.
    Tokens(usize),
    /// It is refused at this line and column.
    Refused(u32, u32),
    /// This count passes the limit of this kind and number.
    Passes(LimitKind, u64, u64),
}

/// A file: what stands first, what stands behind it so often, how often, what stands behind that, and what
/// is due.
pub(crate) type Long = (&'static [u8], &'static [u8], u32, &'static [u8], Due);

/// The bytes of a file.
fn bytes_of(alloc: Global, file: &Long) -> Result<Text, Memory> {
    let (front, piece, times, behind, _) = *file;
    let mut text = Text::copy_of(alloc, front)?;
    for _ in 0..times {
        text.append(piece)?;
    }
    text.append(behind)?;
    Ok(text)
}

/// Whether the file is due to be refused at this place.
fn is_refused(due: Due, at: Pos) -> bool {
    match due {
        Due::Refused(line, column) => at.line == line && at.column == column,
        _ => false,
    }
}

/// Whether the file is due to pass this limit.
fn is_passed(due: Due, limit: Limit) -> bool {
    match due {
        Due::Passes(kind, count, most) => {
            limit.kind == kind && limit.count == count && limit.most == most
        }
        _ => false,
    }
}

/// Whether the tokens of a file come to what is due.
fn are_read(alloc: Global, tokens: &[Token], due: Due) -> bool {
    if tokens.len() > 1_000_000 {
        return false;
    }
    match parse(alloc, tokens) {
        Ok(_) => matches!(due, Due::Tree),
        Err(ParseFault::Syntax(index)) => match tokens.get(index as usize) {
            Some(token) => is_refused(due, token.at),
            None => false,
        },
        Err(ParseFault::Limit(limit)) => is_passed(due, limit),
        Err(ParseFault::Memory) => false,
    }
}

/// Whether a file comes to what is due.
fn is_read(alloc: Global, bytes: &[u8], due: Due) -> bool {
    if bytes.len() > 10_000_000 {
        return false;
    }
    match lex(alloc, 0, bytes) {
        Ok(tokens) => match due {
            Due::Tokens(number) => tokens.len() == number,
            _ => are_read(alloc, tokens.as_slice(), due),
        },
        Err(LexFault::Byte(at)) => is_refused(due, at),
        Err(LexFault::Limit(limit)) => is_passed(due, limit),
        Err(LexFault::Memory) => false,
    }
}

/// Asserts that each of these files comes to what is due, and says the place in the list of one that doesn't.
pub(crate) fn come_to(rt: &impl Abort, alloc: Global, files: &[Long]) -> Result<(), Fail> {
    for (index, file) in files.iter().enumerate() {
        let text = bytes_of(alloc, file)?;
        assert!(rt; is_read(alloc, text.as_bytes(), file.4), "{index}");
    }
    Ok(())
}
