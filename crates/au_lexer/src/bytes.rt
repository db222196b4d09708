//! Kinds of bytes.

ghost use Rattle.std.specs.Prelude.{◌≡◌};
ghost use Rattle.au_lexer.specs.Bytes as kinds;

/// Whether a byte is a blank: a space, a tab, a carriage return or a newline.
pub fn is_space(byte: u8) -> bool
    ensures { result ≡ kinds.is_space byte }
{
    byte == b' ' || byte == b'\t' || byte == b'\r' || byte == b'\n'
}

/// Whether a byte is a decimal digit.
pub fn is_digit(byte: u8) -> bool
    ensures { result ≡ kinds.is_digit byte }
{
    b'0' <= byte && byte <= b'9'
}

/// Whether a byte is a letter, as a name begins with.
pub fn is_letter(byte: u8) -> bool
    ensures { result ≡ kinds.is_letter byte }
{
    b'A' <= byte && byte <= b'Z' || b'a' <= byte && byte <= b'z'
}

/// Whether a byte may follow the first one in a name.
pub fn is_name_byte(byte: u8) -> bool
    ensures { result ≡ kinds.is_name_byte byte }
{
    is_letter(byte) || is_digit(byte) || byte == b'_'
}
