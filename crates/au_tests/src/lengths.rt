//! Files too long to be cases: lists, which are read without recursion, types with many nodes, and files at
//! the limits of the lexer.

use crate::sources::{Due, Long, come_to};
use au_base::LimitKind;
use std::test::Fail;

/// Long lists, and nesting without an end.
const LISTS: [Long; 19] = [
    (
        b"module body M is\nfunction f(): T is\n",
        b"skip; ",
        20_000,
        b"\nend;\nend module body.",
        Due::Tree,
    ),
    (
        b"module body M is\nfunction f(): T is\n",
        b"skip; ",
        1_000,
        b"skip\nend;\nend module body.",
        Due::Refused(4, 1),
    ),
    (
        b"module body M is\nfunction f(): T is if a then\n",
        b"else if a then ",
        5_000,
        b"\nend if; end;\nend module body.",
        Due::Tree,
    ),
    (
        b"module body M is\nfunction f(): T is if a then\n",
        b"else if a then skip; ",
        1_000,
        b"else skip; \nend if; end;\nend module body.",
        Due::Tree,
    ),
    (
        b"module body M is\nfunction f(): T is case a of\n",
        b"when A(b: T) do skip; ",
        2_000,
        b"\nend case; end;\nend module body.",
        Due::Tree,
    ),
    (
        b"module M is\n",
        b"constant c: T; ",
        5_000,
        b"\nend module.",
        Due::Tree,
    ),
    (
        b"module M is\n",
        b"constant c: T; ",
        1_000,
        b"constant c: T\nend module.",
        Due::Refused(3, 1),
    ),
    (
        b"module body M is\n",
        b"function f(): T is end; ",
        2_000,
        b"\nend module body.",
        Due::Tree,
    ),
    (
        b"module body M is\nunion U: Free is\n",
        b"case A; ",
        10_000,
        b"case B is a: T;\nend;\nend module body.",
        Due::Tree,
    ),
    (
        b"module body M is\nconstant c: T :=\n",
        b"a.",
        20_000,
        b"a\n;\nend module body.",
        Due::Tree,
    ),
    (
        b"module body M is\nconstant c: T :=\n",
        b"a.",
        1_000,
        b"\n;\nend module body.",
        Due::Refused(4, 1),
    ),
    (
        b"module body M is\nconstant c: T := f(\n",
        b"a, ",
        19_999,
        b"a\n);\nend module body.",
        Due::Tree,
    ),
    (
        b"module body M is\nconstant c: T := f(\n",
        b"a => b, ",
        4_999,
        b"a => b\n);\nend module body.",
        Due::Tree,
    ),
    (
        b"module body M is\nconstant c: T := f(\n",
        b"a, ",
        1_000,
        b"\n);\nend module body.",
        Due::Refused(4, 1),
    ),
    (
        b"",
        b"import A (x); ",
        2_000,
        b"module M is end module.",
        Due::Tree,
    ),
    (
        b"import A (\n",
        b"x as y, ",
        5_000,
        b"x\n); module M is end module.",
        Due::Tree,
    ),
    (
        b"module body M is\nconstant c: T :=\n",
        b"(",
        20_000,
        b"\n;\nend module body.",
        Due::Passes(LimitKind::Nesting, 101, 100),
    ),
    (
        b"module body M is\nfunction f(): T is\n",
        b"let x: A[B, B, B, B] := a; ",
        2_000,
        b"\nend;\nend module body.",
        Due::Tree,
    ),
    (
        b"module\n",
        b"a.",
        5_000,
        b"b\nis end module.",
        Due::Passes(LimitKind::NameBytes, 65, 64),
    ),
];

/// Types, which may have 4096 nodes.
const TYPES: [Long; 27] = [
    (
        b"module M is\nconstant c: A[\n",
        b"B, ",
        4_094,
        b"B\n];\nend module.",
        Due::Tree,
    ),
    (
        b"module M is\nconstant c: A[\n",
        b"B, ",
        4_095,
        b"B\n];\nend module.",
        Due::Passes(LimitKind::TypeNodes, 4097, 4096),
    ),
    (
        b"module M is\nconstant c: A[\n",
        b"B, ",
        4_999,
        b"B\n];\nend module.",
        Due::Passes(LimitKind::TypeNodes, 5001, 4096),
    ),
    (
        b"module M is\nconstant c: A[\n",
        b"B, ",
        10_000,
        b"B\n];\nend module.",
        Due::Passes(LimitKind::TypeNodes, 10002, 4096),
    ),
    (
        b"module M is\nconstant c: A[\n",
        b"B[C], ",
        2_047,
        b"B\n];\nend module.",
        Due::Tree,
    ),
    (
        b"module M is\nconstant c: A[\n",
        b"B[C], ",
        2_047,
        b"B[C]\n];\nend module.",
        Due::Passes(LimitKind::TypeNodes, 4097, 4096),
    ),
    (
        b"module M is\nconstant c: A[\n",
        b"&[B, R], ",
        1_364,
        b"&[B, R]\n];\nend module.",
        Due::Tree,
    ),
    (
        b"module M is\nconstant c: A[\n",
        b"&![B, R], ",
        1_365,
        b"B\n];\nend module.",
        Due::Passes(LimitKind::TypeNodes, 4097, 4096),
    ),
    (
        b"module M is\nconstant c: A[\n",
        b"&[B, R], ",
        2_000,
        b"B\n];\nend module.",
        Due::Passes(LimitKind::TypeNodes, 6002, 4096),
    ),
    (
        b"module M is\nconstant c: A[\n",
        b"B, ",
        4_095,
        b"\n];\nend module.",
        Due::Refused(4, 1),
    ),
    (
        b"module M is\nconstant c: A[\n",
        b"B, ",
        4_096,
        b"\n];\nend module.",
        Due::Passes(LimitKind::TypeNodes, 4097, 4096),
    ),
    (
        b"module M is\nconstant c: A[\n",
        b"B, ",
        4_200,
        b"\n];\nend module.",
        Due::Passes(LimitKind::TypeNodes, 4201, 4096),
    ),
    (
        b"module M is\nconstant c: A[\n",
        b"B, ",
        4_094,
        b"B C\n];\nend module.",
        Due::Refused(3, 12285),
    ),
    (
        b"module M is\nconstant c: A[\n",
        b"B, ",
        4_095,
        b"B C\n];\nend module.",
        Due::Passes(LimitKind::TypeNodes, 4097, 4096),
    ),
    (
        b"module M is\nconstant c: A[\n",
        b"B, ",
        4_200,
        b"&[B, \n];\nend module.",
        Due::Passes(LimitKind::TypeNodes, 4203, 4096),
    ),
    (
        b"module M is\nconstant c: A[\n",
        b"B, ",
        4_071,
        b"C[C[C[C[C[C[C[C[C[C[C[C[C[C[C[C[C[C[C[C[C[C[C[D]]]]]]]]]]]]]]]]]]]]]]]\n];\nend module.",
        Due::Passes(LimitKind::TypeDepth, 25, 24),
    ),
    (
        b"module M is\nconstant c: A[\n",
        b"B, ",
        4_072,
        b"C[C[C[C[C[C[C[C[C[C[C[C[C[C[C[C[C[C[C[C[C[C[C[D]]]]]]]]]]]]]]]]]]]]]]]\n];\nend module.",
        Due::Passes(LimitKind::TypeDepth, 25, 24),
    ),
    (
        b"module M is\nconstant c: A[\n",
        b"B, ",
        4_073,
        b"C[C[C[C[C[C[C[C[C[C[C[C[C[C[C[C[C[C[C[C[C[C[C[D]]]]]]]]]]]]]]]]]]]]]]]\n];\nend module.",
        Due::Passes(LimitKind::TypeNodes, 4098, 4096),
    ),
    (
        b"module M is\nconstant c: A[\n",
        b"B, ",
        4_200,
        b"C[C[C[C[C[C[C[C[C[C[C[C[C[C[C[C[C[C[C[C[C[C[C[D]]]]]]]]]]]]]]]]]]]]]]]\n];\nend module.",
        Due::Passes(LimitKind::TypeNodes, 4225, 4096),
    ),
    // too deep behind too many nodes: those before the token that doesn't continue the type are told
    (
        b"module M is\nconstant c: A[\n",
        b"B, ",
        4_073,
        b"C[C[C[C[C[C[C[C[C[C[C[C[C[C[C[C[C[C[C[C[C[C[C[D E]]]]]]]]]]]]]]]]]]]]]]], B\n];\nend module.",
        Due::Passes(LimitKind::TypeNodes, 4098, 4096),
    ),
    (
        b"module M is\nconstant c: A[\n",
        b"B, ",
        4_073,
        b"C[C[C[C[C[C[C[C[C[C[C[C[C[C[C[C[C[C[C[C[C[C[C[D]]]]]]]]]]]]]]]]]]]]]]] B, B\n];\nend module.",
        Due::Passes(LimitKind::TypeNodes, 4098, 4096),
    ),
    (
        b"module M is\nconstant c: A[\n",
        b"B, ",
        4_073,
        b"C[C[C[C[C[C[C[C[C[C[C[C[C[C[C[C[C[C[C[C[C[C[C[D[]]]]]]]]]]]]]]]]]]]]]]]], B\n];\nend module.",
        Due::Passes(LimitKind::TypeNodes, 4098, 4096),
    ),
    (
        b"module M is\nconstant c: A[\n",
        b"B, ",
        4_073,
        b"C[C[C[C[C[C[C[C[C[C[C[C[C[C[C[C[C[C[C[C[C[C[C[&[D]]]]]]]]]]]]]]]]]]]]]]]], B\n];\nend module.",
        Due::Passes(LimitKind::TypeNodes, 4099, 4096),
    ),
    (
        b"module M is\nconstant c: A[\n",
        b"B, ",
        4_073,
        b"C[C[C[C[C[C[C[C[C[C[C[C[C[C[C[C[C[C[C[C[C[C[C[&[D, &[E, R]], B\n];\nend module.",
        Due::Passes(LimitKind::TypeNodes, 4099, 4096),
    ),
    (
        b"module M is\nconstant c: A[\n",
        b"B, ",
        4_073,
        b"C[C[C[C[C[C[C[C[C[C[C[C[C[C[C[C[C[C[C[C[C[C[C[&![D, R E], B\n];\nend module.",
        Due::Passes(LimitKind::TypeNodes, 4100, 4096),
    ),
    (
        b"module M is\nconstant c: A[\n",
        b"C[C[C[C[C[C[C[C[C[C[C[C[C[C[C[C[C[C[C[C[C[C[C[D]]]]]]]]]]]]]]]]]]]]]]], ",
        200,
        b"B\n];\nend module.",
        Due::Passes(LimitKind::TypeDepth, 25, 24),
    ),
    (
        b"module M is\nconstant c:\n",
        b"A[",
        5_000,
        b"\n;\nend module.",
        Due::Passes(LimitKind::TypeDepth, 25, 24),
    ),
];

/// Files for the lexer alone: each limit at its number and above it, what has no limit, and which of two
/// causes counts.
const LIMITS: [Long; 22] = [
    // a name, a number and a text far above its limit
    (
        b"",
        b"aaaaaaaa",
        500,
        b"",
        Due::Passes(LimitKind::NameBytes, 65, 64),
    ),
    (
        b"",
        b"7777777",
        9,
        b"",
        Due::Passes(LimitKind::LiteralDigits, 39, 38),
    ),
    (b"\"", b"aaaaaaaa", 8_192, b"\"", Due::Tokens(1)),
    (
        b"\"\\n\\\\aaaaaa",
        b"aaaaaaaa",
        8_191,
        b"\"",
        Due::Tokens(1),
    ),
    (
        b"\"a",
        b"aaaaaaaa",
        8_192,
        b"\"",
        Due::Passes(LimitKind::TextBytes, 65537, 65536),
    ),
    (
        b"\"\\n\\\\aaaaaaa",
        b"aaaaaaaa",
        8_191,
        b"\"",
        Due::Passes(LimitKind::TextBytes, 65537, 65536),
    ),
    (
        b"\"",
        b"aaaaaaaa",
        40_000,
        b"\"",
        Due::Passes(LimitKind::TextBytes, 65537, 65536),
    ),
    (b"", b";;;;;;;;", 32_768, b" -- end", Due::Tokens(262144)),
    (
        b"",
        b";;;;;;;;",
        32_768,
        b" 1",
        Due::Passes(LimitKind::Tokens, 262145, 262144),
    ),
    (
        b"",
        b"&&&&&&&&",
        40_000,
        b"",
        Due::Passes(LimitKind::Tokens, 262145, 262144),
    ),
    // what has no limit
    (b"--", b"aaaaaaaa", 40_000, b"", Due::Tokens(0)),
    (b"\"\"\"", b"aaaaaaaa", 40_000, b"\"\"\"", Due::Tokens(0)),
    (b"", b"\n\n\n\n\n\n\n\n", 40_000, b"", Due::Tokens(0)),
    // a text without its end is a byte, however long it is
    (b";\"a", b"aaaaaaaa", 8_192, b"", Due::Refused(1, 2)),
    (b";\"a", b"aaaaaaaa", 8_192, b"\n\"", Due::Refused(1, 2)),
    (b"\"\"\"", b"aaaaaaaa", 40_000, b"", Due::Refused(1, 1)),
    // the first place decides, and the limit of tokens comes first
    (
        b"\"a",
        b"aaaaaaaa",
        8_192,
        b"\" #",
        Due::Passes(LimitKind::TextBytes, 65537, 65536),
    ),
    (b"# \"a", b"aaaaaaaa", 8_192, b"\"", Due::Refused(1, 1)),
    (b"", b";;;;;;;;", 32_768, b" #", Due::Refused(1, 262146)),
    (b"", b";;;;;;;;", 32_768, b"\"abc", Due::Refused(1, 262145)),
    (
        b"",
        b";;;;;;;;",
        32_768,
        b"abcdefghijklmnopqrstuvwxyz0123456789_ABCDEFGHIJKLMNOPQRSTUVWXYZab",
        Due::Passes(LimitKind::Tokens, 262145, 262144),
    ),
    (
        b";;;;;;;",
        b";;;;;;;;",
        32_767,
        b"abcdefghijklmnopqrstuvwxyz0123456789_ABCDEFGHIJKLMNOPQRSTUVWXYZab",
        Due::Passes(LimitKind::NameBytes, 65, 64),
    ),
];

/// Files that hold long lists or deep nesting, and types with many nodes.
#[test]
fn long_trees_are_read(rt: HostRuntime) -> Result<(), Fail> {
    come_to(&rt, rt.alloc(), &LISTS)?;
    come_to(&rt, rt.alloc(), &TYPES)
}

/// Files at the limits of the lexer.
#[test]
fn long_files_are_cut(rt: HostRuntime) -> Result<(), Fail> {
    come_to(&rt, rt.alloc(), &LIMITS)
}
