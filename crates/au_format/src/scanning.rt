//! How far blanks, comments and docstrings go.

ghost use Rattle.std.specs.Prelude.{◌≡◌, ◌≤◌, length, not, IfSome};
ghost use Rattle.std.specs.List.{prefix_len};
ghost use Rattle.au_base.specs.Places.{is_newline};
ghost use Rattle.au_lexer.specs.Bytes as kinds;
ghost use Rattle.au_lexer.specs.Reading as read;

/// Whether a byte is a blank: a space, a tab, a carriage return or a newline.
pub fn is_space(byte: u8) -> bool
    ensures { result ≡ kinds.is_space byte }
{
    byte == b' ' || byte == b'\t' || byte == b'\r' || byte == b'\n'
}

/// How many bytes at the front belong to a line.
pub fn line_size(bytes: &[u8]) -> usize
    ensures { result ≡ prefix_len (λ byte. not (is_newline byte)) bytes.now }
{
    for (index, byte) in bytes.iter().enumerate() {
        if *byte == b'\n' {
            return index;
        }
    }
    bytes.len()
}

/// How many bytes a docstring takes behind its first three quotes, through its last three.
pub fn docstring_size(inside: &[u8]) -> Option<usize>
    ensures size { result ≡ read.docstring_size inside.now }
    ensures within { IfSome result (λ size. size ≤ length inside.now) }
{
    for index in 0..inside.len() {
        if inside[index..].starts_with(b"\"\"\"") {
            return Some(index + 3);
        }
    }
    None
}
