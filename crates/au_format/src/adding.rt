//! Adds pieces to a layout, with what stands before them.

ghost use Rattle.std.specs.Prelude.{◌≡◌, ◌++◌, ◌+◌, ◌^◌, ◌<◌, OnOk};
ghost use Rattle.au_format.specs.Gaps as spec;
ghost use Rattle.au_format.specs.Layout.{file_end};

use crate::kinds::Kind;
use crate::marks::{closes, follows};
use crate::places::Place;
use crate::standings::{Previous, Standing};
use au_base::Memory;

/// Adds bytes.
pub fn add(text: &mut Vec<u8>, bytes: &[u8]) -> Result<(), Memory>
    ensures { OnOk result (text.new.items ≡ text.old.items ++ bytes.now) }
{
    text.extend_from_slice(bytes)?;
    Ok(())
}

/// Adds two blanks for each level.
fn add_indent(text: &mut Vec<u8>, levels: usize) -> Result<(), Memory>
    ensures { OnOk result (text.new.items ≡ text.old.items ++ spec.indent levels) }
{
    for _ in 0..levels {
        add(text, b"  ")?;
    }
    Ok(())
}

/// Ends a line and begins the next, with an empty line between them where there was one.
fn add_line_break(text: &mut Vec<u8>, lines: usize, levels: usize) -> Result<(), Memory>
    ensures { OnOk result (text.new.items ≡ text.old.items ++ spec.line_break lines levels) }
{
    if 1 < lines {
        add(text, b"\n")?;
    }
    add(text, b"\n")?;
    add_indent(text, levels)
}

/// How many levels a line has that begins here.
fn line_levels(standing: Standing, closed: usize) -> usize
    requires { standing.levels + 1 < 2 ^ 64 }
    ensures { result ≡ spec.line_levels standing closed }
{
    standing.levels.saturating_sub(closed) + !standing.ended as usize
}

/// Adds what stands before a token.
fn add_token_gap(
    text: &mut Vec<u8>,
    place: Place,
    kind: Kind,
    next: Option<Kind>,
) -> Result<(), Memory>
    requires { place.standing.levels + 1 < 2 ^ 64 }
    ensures { OnOk result (text.new.items
        ≡ text.old.items ++ spec.token_gap place.standing place.last place.lines kind next) }
{
    match place.last {
        Previous::Nothing => Ok(()),
        Previous::Token if !place.standing.ended => add_token_blank(text, place.standing, kind),
        _ => add_token_line(text, place.standing, place.lines, kind, next),
    }
}

/// Begins the line that begins with a token.
fn add_token_line(
    text: &mut Vec<u8>,
    standing: Standing,
    lines: usize,
    kind: Kind,
    next: Option<Kind>,
) -> Result<(), Memory>
    requires { standing.levels + 1 < 2 ^ 64 }
    ensures { OnOk result (text.new.items ≡ text.old.items ++ spec.token_line standing lines kind next) }
{
    let closed = closes(standing.last, standing.choices, kind, next);
    add_line_break(text, lines, line_levels(standing, closed))
}

/// Adds a blank, if one stands before a token on its line.
fn add_token_blank(text: &mut Vec<u8>, standing: Standing, kind: Kind) -> Result<(), Memory>
    ensures { OnOk result (text.new.items ≡ text.old.items ++ spec.token_blank standing kind) }
{
    if standing.hugging || follows(standing.last, standing.in_import, kind) {
        return Ok(());
    }
    add(text, b" ")
}

/// Adds what stands before a remark.
fn add_remark_gap(text: &mut Vec<u8>, place: Place) -> Result<(), Memory>
    requires { place.standing.levels + 1 < 2 ^ 64 }
    ensures { OnOk result (text.new.items
        ≡ text.old.items ++ spec.remark_gap place.standing place.last place.lines) }
{
    match place.last {
        Previous::Nothing => Ok(()),
        Previous::Token | Previous::Docstring if place.lines == 0 => add(text, b" "),
        _ => add_line_break(text, place.lines, line_levels(place.standing, 0)),
    }
}

/// Adds a token of these bytes, with what stands before it.
pub fn add_token(
    text: &mut Vec<u8>,
    place: Place,
    kind: Kind,
    next: Option<Kind>,
    bytes: &[u8],
) -> Result<(), Memory>
    requires { place.standing.levels + 1 < 2 ^ 64 }
    ensures { OnOk result (text.new.items ≡ text.old.items
        ++ (spec.token_gap place.standing place.last place.lines kind next ++ bytes.now)) }
{
    add_token_gap(text, place, kind, next)?;
    add(text, bytes)
}

/// Adds a remark of these bytes, with what stands before it.
pub fn add_remark(text: &mut Vec<u8>, place: Place, bytes: &[u8]) -> Result<(), Memory>
    requires { place.standing.levels + 1 < 2 ^ 64 }
    ensures { OnOk result (text.new.items ≡ text.old.items
        ++ (spec.remark_gap place.standing place.last place.lines ++ bytes.now)) }
{
    add_remark_gap(text, place)?;
    add(text, bytes)
}

/// Ends the last line of a file, if it has one.
pub fn add_end(text: &mut Vec<u8>, last: Previous) -> Result<(), Memory>
    ensures { OnOk result (text.new.items ≡ text.old.items ++ file_end last) }
{
    match last {
        Previous::Nothing => Ok(()),
        _ => add(text, b"\n"),
    }
}
