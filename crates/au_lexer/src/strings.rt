//! Texts in quotes and docstrings. A text means its bytes from 32 up, those from 128 up among them, and
//! the bytes of its escapes `\n`, `\r`, `\t`, `\"` and `\\`. A docstring means nothing.

ghost use Rattle.std.specs.Prelude.{◌≡◌, ◌≤◌, false, length, IfOk, IfSome};
ghost use Rattle.au_lexer.specs.Reading as read;

use au_base::{Memory, Text};
use std::alloc::Global;

/// The byte that an escape means, by the byte behind its backslash.
fn escaped(byte: u8) -> Option<u8>
    ensures { result ≡ read.escaped byte }
{
    match byte {
        b'n' => Some(b'\n'),
        b'r' => Some(b'\r'),
        b't' => Some(b'\t'),
        b'"' => Some(b'"'),
        b'\\' => Some(b'\\'),
        _ => None,
    }
}

/// How many bytes a text means, and how many bytes it takes through its last quote. `inside` begins
/// behind the first quote.
pub fn text_sizes(inside: &[u8]) -> Option<(usize, usize)>
    ensures { result ≡ read.text_sizes (read.text_at false inside.now) }
{
    let mut meant = 0;
    let mut slash = false;
    for (index, next) in inside.iter().enumerate() {
        if slash {
            if escaped(*next).is_none() {
                return None;
            }
            meant += 1;
            slash = false;
        } else if *next == b'"' {
            return Some((meant, index + 1));
        } else if *next == b'\\' {
            slash = true;
        } else if *next < b' ' {
            return None;
        } else {
            meant += 1;
        }
    }
    None
}

/// What a text means, and how many bytes it takes through its last quote. `inside` begins behind the
/// first quote.
pub fn text(alloc: Global, inside: &[u8]) -> Result<Option<(Text, usize)>, Memory>
    ensures found { IfOk result (λ found. found ≡ read.text_at false inside.now) }
    ensures within { IfOk result (λ found. IfSome found (λ text. text.1 ≤ length inside.now)) }
{
    let mut text = Text::new(alloc);
    let mut escape = false;
    for (index, byte) in inside.iter().enumerate() {
        if escape {
            match escaped(*byte) {
                Some(meant) => text.push(meant)?,
                None => return Ok(None),
            }
            escape = false;
        } else if *byte == b'"' {
            return Ok(Some((text, index + 1)));
        } else if *byte == b'\\' {
            escape = true;
        } else if *byte < b' ' {
            return Ok(None);
        } else {
            text.push(*byte)?;
        }
    }
    Ok(None)
}

/// How many bytes a docstring takes behind its first three quotes, through its last three.
pub fn docstring_size(inside: &[u8]) -> Option<usize>
    ensures size { result ≡ read.docstring_size inside.now }
    ensures within { IfSome result (λ size. size ≤ length inside.now) }
{
    for index in 0..inside.len() {
        if inside[index..].starts_with(b"\"\"\"") {
            return Some(index + 3);
        }
    }
    None
}
