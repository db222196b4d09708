//! What stands at the front of bytes that are cut into pieces.

ghost use Rattle.std.specs.Prelude.{◌≡◌, ◌<◌, length};
ghost use Rattle.au_lexer.specs.Reading as read;
ghost use Rattle.au_format.specs.Fronts as spec;

use crate::scanning::{docstring_size, is_space, line_size};

/// A piece, as layout sees it.
#[derive(Clone, Copy)]
pub enum Front {
    /// A blank byte.
    Blank,
    /// A comment of so many bytes.
    Comment(usize),
    /// A docstring of so many bytes.
    Docstring(usize),
    /// A token.
    Token,
}

/// What the bytes begin with, if they begin with a piece.
pub fn front_at(bytes: &[u8]) -> Front
    requires { 0 < length bytes.now }
    ensures { result ≡ spec.front_at bytes.now }
{
    if is_space(bytes[0]) {
        return Front::Blank;
    }
    if bytes.starts_with(b"--") {
        return Front::Comment(line_size(bytes));
    }
    if bytes.starts_with(b"\"\"\"") {
        return docstring(&bytes[3..]);
    }
    Front::Token
}

/// The docstring whose first three quotes stand before `inside`.
fn docstring(inside: &[u8]) -> Front
    ensures { result ≡ spec.docstring_front (read.docstring_size inside.now) }
{
    match docstring_size(inside) {
        Some(size) => Front::Docstring(size + 3),
        None => Front::Token,
    }
}
