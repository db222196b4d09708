//! Small files and their tokens, written by hand.

use au_lexer::{Token, What, lex};
use std::test::Fail;

/// Files that are cut, each with its tokens.
const CUT: [(&[u8], &[u8]); 38] = [
    (b"", b""),
    (b" \t\r\n", b""),
    // words, of which the longest counts
    (
        b"module Module modules",
        b"1:1 word module|1:8 name Module|1:15 name modules|",
    ),
    (
        b"type typeclass Type end_ x1_y",
        b"1:1 word type|1:6 word typeclass|1:16 word Type|1:21 name end_|1:26 name x1_y|",
    ),
    (
        b"abcdefghijklmnopqrstuvwxyz0123456789_ABCDEFGHIJKLMNOPQRSTUVWXYZa",
        b"1:1 name abcdefghijklmnopqrstuvwxyz0123456789_ABCDEFGHIJKLMNOPQRSTUVWXYZa|",
    ),
    // signs, of which the longest counts
    (
        b":= => -> &! &~",
        b"1:1 sign :=|1:4 sign =>|1:7 sign ->|1:10 sign &!|1:13 sign &~|",
    ),
    (b"/= <= >=", b"1:1 sign /=|1:4 sign <=|1:7 sign >=|"),
    (
        b"()[]{},",
        b"1:1 sign (|1:2 sign )|1:3 sign [|1:4 sign ]|1:5 sign {|1:6 sign }|1:7 sign ,|",
    ),
    (
        b";:.!&+",
        b"1:1 sign ;|1:2 sign :|1:3 sign .|1:4 sign !|1:5 sign &|1:6 sign +|",
    ),
    (
        b"*=<>-/",
        b"1:1 sign *|1:2 sign =|1:3 sign <|1:4 sign >|1:5 sign -|1:6 sign /|",
    ),
    (
        b"&&!<==>/=",
        b"1:1 sign &|1:2 sign &!|1:4 sign <=|1:6 sign =>|1:8 sign /=|",
    ),
    (
        b"=::=->->",
        b"1:1 sign =|1:2 sign :|1:3 sign :=|1:5 sign ->|1:7 sign ->|",
    ),
    (b"x<-y", b"1:1 name x|1:2 sign <|1:3 sign -|1:4 name y|"),
    (
        b"let x: T :=",
        b"1:1 word let|1:5 name x|1:6 sign :|1:8 name T|1:10 sign :=|",
    ),
    (
        b"f(y);",
        b"1:1 name f|1:2 sign (|1:3 name y|1:4 sign )|1:5 sign ;|",
    ),
    // texts
    (b"\"\"", b"1:1 text |"),
    (b"\"\" \"a\"\"b\"", b"1:1 text |1:4 text a|1:7 text b|"),
    (
        b"\"a\\n\\r\\t\\\"\\\\z\" x",
        b"1:1 text a\n\r\t\"\\z|1:16 name x|",
    ),
    (
        b"\"\xC3\xA9\xFF\x7F\" x",
        b"1:1 text \xC3\xA9\xFF\x7F|1:8 name x|",
    ),
    (b"\"-- #\" x", b"1:1 text -- #|1:8 name x|"),
    // numbers, whose leading zeros are digits
    (b"0", b"1:1 number 0/1|"),
    (b"007 42", b"1:1 number 7/3|1:5 number 42/2|"),
    (
        b"99999999999999999999999999999999999999",
        b"1:1 number 99999999999999999999999999999999999999/38|",
    ),
    (b"12ab", b"1:1 number 12/2|1:3 name ab|"),
    (
        b"a:=-1",
        b"1:1 name a|1:2 sign :=|1:4 sign -|1:5 number 1/1|",
    ),
    (b"x<-1", b"1:1 name x|1:2 sign <|1:3 sign -|1:4 number 1/1|"),
    // docstrings
    (b"\"\"\"\"\"\"a", b"1:7 name a|"),
    (
        b"x\"\"\" -- \" \"\" \\ \xFF\n\"\"\"y",
        b"1:1 name x|2:4 name y|",
    ),
    (b"\"\"\"\"a\"\"\" b", b"1:10 name b|"),
    (b"\"a\"\"\"\"\"\"\"x", b"1:1 text a|1:10 name x|"),
    (b"-- \"\"\"\na", b"2:1 name a|"),
    // comments
    (b"--", b""),
    (b"-- a \xFF \"#\nb -- c", b"2:1 name b|"),
    (b"a--b\n-c", b"1:1 name a|2:1 sign -|2:2 name c|"),
    (b"-- x\ry\nz", b"2:1 name z|"),
    // places
    (
        b"a\r\n\tb\r c\n\n d",
        b"1:1 name a|2:2 name b|2:5 name c|4:2 name d|",
    ),
    (b"\n\n\"x\"\n;", b"3:1 text x|4:1 sign ;|"),
    (
        b"--\xC3\xA9\n \"\xC3\xA9\";",
        b"2:2 text \xC3\xA9|2:6 sign ;|",
    ),
];

/// What stands behind a number in decimal digits, where bytes begin with it and don't end there.
fn behind_number(bytes: &[u8], number: i128) -> Option<&[u8]> {
    let mut value = 0i128;
    for (index, byte) in bytes.iter().enumerate() {
        if !byte.is_ascii_digit() {
            return if value == number {
                Some(&bytes[index..])
            } else {
                None
            };
        }
        value = value
            .wrapping_mul(10)
            .wrapping_add(byte.wrapping_sub(b'0') as i128);
    }
    None
}

/// What stands behind a token's kind and bytes, where others begin with them.
fn behind_kind<'a>(bytes: &'a [u8], kind: &[u8], spelled: &[u8]) -> Option<&'a [u8]> {
    bytes
        .strip_prefix(kind)?
        .strip_prefix(spelled)?
        .strip_prefix(b"|")
}

/// What stands behind a number and the count of its digits, where bytes begin with them.
fn behind_digits(bytes: &[u8], value: i128, digits: u32) -> Option<&[u8]> {
    let rest = behind_number(bytes.strip_prefix(b"number ")?, value)?;
    behind_number(rest.strip_prefix(b"/")?, digits as i128)?.strip_prefix(b"|")
}

/// What stands behind `LINE:COLUMN `, where bytes begin with this place.
fn behind_place(bytes: &[u8], line: u32, column: u32) -> Option<&[u8]> {
    let rest = behind_number(bytes, line as i128)?.strip_prefix(b":")?;
    behind_number(rest, column as i128)?.strip_prefix(b" ")
}

/// What stands behind a token as `LINE:COLUMN KIND BYTES|`, where bytes begin with it. A number has its value
/// and its count of digits in place of bytes.
fn behind_token<'a>(bytes: &'a [u8], token: &Token) -> Option<&'a [u8]> {
    let rest = behind_place(bytes, token.at.line, token.at.column)?;
    match &token.what {
        What::Word(keyword) => behind_kind(rest, b"word ", keyword.spelling()),
        What::Sign(sign) => behind_kind(rest, b"sign ", sign.spelling()),
        What::Name(name) => behind_kind(rest, b"name ", name.as_bytes()),
        What::Text(text) => behind_kind(rest, b"text ", text.as_bytes()),
        What::Number { value, digits } => behind_digits(rest, *value, *digits),
    }
}

/// Whether tokens are those that are written, one behind another.
fn are_written(tokens: &[Token], written: &[u8]) -> bool {
    let mut rest = written;
    for token in tokens {
        match behind_token(rest, token) {
            Some(more) => rest = more,
            None => return false,
        }
    }
    rest.is_empty()
}

/// Small files, each with the tokens that it is cut into.
#[test]
fn cuts(rt: HostRuntime) -> Result<(), Fail> {
    for (index, (bytes, written)) in CUT.iter().enumerate() {
        assert!(rt; bytes.len() < 100);
        let tokens = lex(rt.alloc(), 7, bytes)?;
        assert!(rt; are_written(tokens.as_slice(), written), "{index}");
    }
    Ok(())
}
