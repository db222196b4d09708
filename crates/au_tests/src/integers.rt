//! Values from outside, each worked out with unbounded integers.

use au_base::IntKind;
use au_ints::*;

/// A kind, two of its numbers, what the four operations give that trap, and the three that wrap.
type Row = (IntKind, i128, i128, [Option<i128>; 4], [i128; 3]);

/// Worked pairs, and the ends of each kind by -1 where it has that, by 0, by 1 and by themselves.
const PAIRS: [Row; 61] = [
    (
        IntKind::Int8,
        -7,
        2,
        [Some(-5), Some(-9), Some(-14), Some(-3)],
        [-5, -9, -14],
    ),
    (
        IntKind::Int8,
        7,
        -2,
        [Some(5), Some(9), Some(-14), Some(-3)],
        [5, 9, -14],
    ),
    (
        IntKind::Int8,
        100,
        3,
        [Some(103), Some(97), None, Some(33)],
        [103, 97, 44],
    ),
    (
        IntKind::Nat16,
        1000,
        999,
        [Some(1999), Some(1), None, Some(1)],
        [1999, 1, 15960],
    ),
    (
        IntKind::Nat8,
        0,
        0,
        [Some(0), Some(0), Some(0), None],
        [0, 0, 0],
    ),
    (
        IntKind::Nat8,
        0,
        1,
        [Some(1), None, Some(0), Some(0)],
        [1, 255, 0],
    ),
    (
        IntKind::Nat8,
        255,
        0,
        [Some(255), Some(255), Some(0), None],
        [255, 255, 0],
    ),
    (
        IntKind::Nat8,
        255,
        1,
        [None, Some(254), Some(255), Some(255)],
        [0, 254, 255],
    ),
    (
        IntKind::Nat8,
        255,
        255,
        [None, Some(0), None, Some(1)],
        [254, 0, 1],
    ),
    (
        IntKind::Nat16,
        0,
        0,
        [Some(0), Some(0), Some(0), None],
        [0, 0, 0],
    ),
    (
        IntKind::Nat16,
        0,
        1,
        [Some(1), None, Some(0), Some(0)],
        [1, 65535, 0],
    ),
    (
        IntKind::Nat16,
        65535,
        0,
        [Some(65535), Some(65535), Some(0), None],
        [65535, 65535, 0],
    ),
    (
        IntKind::Nat16,
        65535,
        1,
        [None, Some(65534), Some(65535), Some(65535)],
        [0, 65534, 65535],
    ),
    (
        IntKind::Nat16,
        65535,
        65535,
        [None, Some(0), None, Some(1)],
        [65534, 0, 1],
    ),
    (
        IntKind::Nat32,
        0,
        0,
        [Some(0), Some(0), Some(0), None],
        [0, 0, 0],
    ),
    (
        IntKind::Nat32,
        0,
        1,
        [Some(1), None, Some(0), Some(0)],
        [1, 4294967295, 0],
    ),
    (
        IntKind::Nat32,
        4294967295,
        0,
        [Some(4294967295), Some(4294967295), Some(0), None],
        [4294967295, 4294967295, 0],
    ),
    (
        IntKind::Nat32,
        4294967295,
        1,
        [None, Some(4294967294), Some(4294967295), Some(4294967295)],
        [0, 4294967294, 4294967295],
    ),
    (
        IntKind::Nat32,
        4294967295,
        4294967295,
        [None, Some(0), None, Some(1)],
        [4294967294, 0, 1],
    ),
    (
        IntKind::Nat64,
        0,
        0,
        [Some(0), Some(0), Some(0), None],
        [0, 0, 0],
    ),
    (
        IntKind::Nat64,
        0,
        1,
        [Some(1), None, Some(0), Some(0)],
        [1, 18446744073709551615, 0],
    ),
    (
        IntKind::Nat64,
        18446744073709551615,
        0,
        [
            Some(18446744073709551615),
            Some(18446744073709551615),
            Some(0),
            None,
        ],
        [18446744073709551615, 18446744073709551615, 0],
    ),
    (
        IntKind::Nat64,
        18446744073709551615,
        1,
        [
            None,
            Some(18446744073709551614),
            Some(18446744073709551615),
            Some(18446744073709551615),
        ],
        [0, 18446744073709551614, 18446744073709551615],
    ),
    (
        IntKind::Nat64,
        18446744073709551615,
        18446744073709551615,
        [None, Some(0), None, Some(1)],
        [18446744073709551614, 0, 1],
    ),
    (
        IntKind::Int8,
        -128,
        -128,
        [None, Some(0), None, Some(1)],
        [0, 0, 0],
    ),
    (
        IntKind::Int8,
        -128,
        -1,
        [None, Some(-127), None, None],
        [127, -127, -128],
    ),
    (
        IntKind::Int8,
        -128,
        0,
        [Some(-128), Some(-128), Some(0), None],
        [-128, -128, 0],
    ),
    (
        IntKind::Int8,
        -128,
        1,
        [Some(-127), None, Some(-128), Some(-128)],
        [-127, 127, -128],
    ),
    (
        IntKind::Int8,
        127,
        -1,
        [Some(126), None, Some(-127), Some(-127)],
        [126, -128, -127],
    ),
    (
        IntKind::Int8,
        127,
        0,
        [Some(127), Some(127), Some(0), None],
        [127, 127, 0],
    ),
    (
        IntKind::Int8,
        127,
        1,
        [None, Some(126), Some(127), Some(127)],
        [-128, 126, 127],
    ),
    (
        IntKind::Int8,
        127,
        127,
        [None, Some(0), None, Some(1)],
        [-2, 0, 1],
    ),
    (
        IntKind::Int16,
        -32768,
        -32768,
        [None, Some(0), None, Some(1)],
        [0, 0, 0],
    ),
    (
        IntKind::Int16,
        -32768,
        -1,
        [None, Some(-32767), None, None],
        [32767, -32767, -32768],
    ),
    (
        IntKind::Int16,
        -32768,
        0,
        [Some(-32768), Some(-32768), Some(0), None],
        [-32768, -32768, 0],
    ),
    (
        IntKind::Int16,
        -32768,
        1,
        [Some(-32767), None, Some(-32768), Some(-32768)],
        [-32767, 32767, -32768],
    ),
    (
        IntKind::Int16,
        32767,
        -1,
        [Some(32766), None, Some(-32767), Some(-32767)],
        [32766, -32768, -32767],
    ),
    (
        IntKind::Int16,
        32767,
        0,
        [Some(32767), Some(32767), Some(0), None],
        [32767, 32767, 0],
    ),
    (
        IntKind::Int16,
        32767,
        1,
        [None, Some(32766), Some(32767), Some(32767)],
        [-32768, 32766, 32767],
    ),
    (
        IntKind::Int16,
        32767,
        32767,
        [None, Some(0), None, Some(1)],
        [-2, 0, 1],
    ),
    (
        IntKind::Int32,
        -2147483648,
        -2147483648,
        [None, Some(0), None, Some(1)],
        [0, 0, 0],
    ),
    (
        IntKind::Int32,
        -2147483648,
        -1,
        [None, Some(-2147483647), None, None],
        [2147483647, -2147483647, -2147483648],
    ),
    (
        IntKind::Int32,
        -2147483648,
        0,
        [Some(-2147483648), Some(-2147483648), Some(0), None],
        [-2147483648, -2147483648, 0],
    ),
    (
        IntKind::Int32,
        -2147483648,
        1,
        [
            Some(-2147483647),
            None,
            Some(-2147483648),
            Some(-2147483648),
        ],
        [-2147483647, 2147483647, -2147483648],
    ),
    (
        IntKind::Int32,
        2147483647,
        -1,
        [Some(2147483646), None, Some(-2147483647), Some(-2147483647)],
        [2147483646, -2147483648, -2147483647],
    ),
    (
        IntKind::Int32,
        2147483647,
        0,
        [Some(2147483647), Some(2147483647), Some(0), None],
        [2147483647, 2147483647, 0],
    ),
    (
        IntKind::Int32,
        2147483647,
        1,
        [None, Some(2147483646), Some(2147483647), Some(2147483647)],
        [-2147483648, 2147483646, 2147483647],
    ),
    (
        IntKind::Int32,
        2147483647,
        2147483647,
        [None, Some(0), None, Some(1)],
        [-2, 0, 1],
    ),
    (
        IntKind::Int64,
        -9223372036854775808,
        -9223372036854775808,
        [None, Some(0), None, Some(1)],
        [0, 0, 0],
    ),
    (
        IntKind::Int64,
        -9223372036854775808,
        -1,
        [None, Some(-9223372036854775807), None, None],
        [
            9223372036854775807,
            -9223372036854775807,
            -9223372036854775808,
        ],
    ),
    (
        IntKind::Int64,
        -9223372036854775808,
        0,
        [
            Some(-9223372036854775808),
            Some(-9223372036854775808),
            Some(0),
            None,
        ],
        [-9223372036854775808, -9223372036854775808, 0],
    ),
    (
        IntKind::Int64,
        -9223372036854775808,
        1,
        [
            Some(-9223372036854775807),
            None,
            Some(-9223372036854775808),
            Some(-9223372036854775808),
        ],
        [
            -9223372036854775807,
            9223372036854775807,
            -9223372036854775808,
        ],
    ),
    (
        IntKind::Int64,
        9223372036854775807,
        -1,
        [
            Some(9223372036854775806),
            None,
            Some(-9223372036854775807),
            Some(-9223372036854775807),
        ],
        [
            9223372036854775806,
            -9223372036854775808,
            -9223372036854775807,
        ],
    ),
    (
        IntKind::Int64,
        9223372036854775807,
        0,
        [
            Some(9223372036854775807),
            Some(9223372036854775807),
            Some(0),
            None,
        ],
        [9223372036854775807, 9223372036854775807, 0],
    ),
    (
        IntKind::Int64,
        9223372036854775807,
        1,
        [
            None,
            Some(9223372036854775806),
            Some(9223372036854775807),
            Some(9223372036854775807),
        ],
        [
            -9223372036854775808,
            9223372036854775806,
            9223372036854775807,
        ],
    ),
    (
        IntKind::Int64,
        9223372036854775807,
        9223372036854775807,
        [None, Some(0), None, Some(1)],
        [-2, 0, 1],
    ),
    (
        IntKind::Index,
        0,
        0,
        [Some(0), Some(0), Some(0), None],
        [0, 0, 0],
    ),
    (
        IntKind::Index,
        0,
        1,
        [Some(1), None, Some(0), Some(0)],
        [1, 18446744073709551615, 0],
    ),
    (
        IntKind::Index,
        18446744073709551615,
        0,
        [
            Some(18446744073709551615),
            Some(18446744073709551615),
            Some(0),
            None,
        ],
        [18446744073709551615, 18446744073709551615, 0],
    ),
    (
        IntKind::Index,
        18446744073709551615,
        1,
        [
            None,
            Some(18446744073709551614),
            Some(18446744073709551615),
            Some(18446744073709551615),
        ],
        [0, 18446744073709551614, 18446744073709551615],
    ),
    (
        IntKind::Index,
        18446744073709551615,
        18446744073709551615,
        [None, Some(0), None, Some(1)],
        [18446744073709551614, 0, 1],
    ),
];

/// The least and the greatest number of each kind, each beside the next number outside.
const RANGES: [(IntKind, i128, i128, i128, i128); 9] = [
    (IntKind::Nat8, -1, 0, 255, 256),
    (IntKind::Nat16, -1, 0, 65535, 65536),
    (IntKind::Nat32, -1, 0, 4294967295, 4294967296),
    (
        IntKind::Nat64,
        -1,
        0,
        18446744073709551615,
        18446744073709551616,
    ),
    (IntKind::Int8, -129, -128, 127, 128),
    (IntKind::Int16, -32769, -32768, 32767, 32768),
    (
        IntKind::Int32,
        -2147483649,
        -2147483648,
        2147483647,
        2147483648,
    ),
    (
        IntKind::Int64,
        -9223372036854775809,
        -9223372036854775808,
        9223372036854775807,
        9223372036854775808,
    ),
    (
        IntKind::Index,
        -1,
        0,
        18446744073709551615,
        18446744073709551616,
    ),
];

/// Two numbers, and whether the first equals, differs from, is less than, at most, greater than and
/// at least the second.
const COMPARED: [(i128, i128, [bool; 6]); 10] = [
    (0, 0, [true, false, false, true, false, true]),
    (-1, 0, [false, true, true, true, false, false]),
    (0, -1, [false, true, false, false, true, true]),
    (1, 2, [false, true, true, true, false, false]),
    (255, -1, [false, true, false, false, true, true]),
    (-128, 127, [false, true, true, true, false, false]),
    (-128, -128, [true, false, false, true, false, true]),
    (
        18446744073709551615,
        18446744073709551615,
        [true, false, false, true, false, true],
    ),
    (
        18446744073709551615,
        9223372036854775807,
        [false, true, false, false, true, true],
    ),
    (
        -170141183460469231731687303715884105728,
        170141183460469231731687303715884105727,
        [false, true, true, true, false, false],
    ),
];

/// The operations are for any number of bits, not for the widths of the language alone.
#[test]
fn takes_any_width(rt: HostRuntime) {
    let ends = [
        Kind::<12, 1>::least(),
        Kind::<12, 1>::greatest(),
        Kind::<12, 0>::greatest(),
    ];
    assert_eq!(rt; ends, [-2048, 2047, 4095]);
    assert!(rt; Kind::<12, 0>::holds(4095));
    assert_eq!(rt; Kind::<12, 0>::convert(4096), None);
    assert_eq!(rt; Kind::<12, 0>::trap(IntOp::Add, 4095, 1), None);
    assert_eq!(rt; Kind::<12, 1>::wrap(WrapOp::Add, 2047, 2), -2047);
}

/// What the operations give, where both numbers are of the kind.
fn results(kind: IntKind, a: i128, b: i128) -> Option<([Option<i128>; 4], [i128; 3])> {
    let first = convert(kind, a)?;
    let second = convert(kind, b)?;
    let traps = [
        trap(IntOp::Add, kind, first, second),
        trap(IntOp::Subtract, kind, first, second),
        trap(IntOp::Multiply, kind, first, second),
        trap(IntOp::Divide, kind, first, second),
    ];
    let wraps = [
        wrap(WrapOp::Add, kind, first, second),
        wrap(WrapOp::Subtract, kind, first, second),
        wrap(WrapOp::Multiply, kind, first, second),
    ];
    Some((traps, wraps))
}

/// The first of the rows that isn't what the operations give.
fn first_wrong(pairs: &[Row]) -> Option<Row> {
    for row in pairs {
        let (kind, a, b, traps, wraps) = *row;
        if results(kind, a, b) != Some((traps, wraps)) {
            return Some(*row);
        }
    }
    None
}

/// What the operations that trap and those that wrap give for pairs near the ends of each kind.
#[test]
fn operates_on_pairs(rt: HostRuntime) {
    assert_eq!(rt; first_wrong(&PAIRS), None);
}

/// The ends of each kind are converted, and the numbers beside them are not.
#[test]
fn converts_within_the_ends(rt: HostRuntime) {
    for (kind, below, least, greatest, above) in RANGES {
        let converted = [
            convert(kind, below),
            convert(kind, least),
            convert(kind, greatest),
            convert(kind, above),
        ];
        assert_eq!(rt;
            converted,
            [None, Some(least), Some(greatest), None],
            "{kind:?}"
        );
    }
}

/// What the six orders say of equal, neighbouring and farthest numbers.
#[test]
fn compares_pairs(rt: HostRuntime) {
    for (a, b, compared) in COMPARED {
        let truths = [
            compare(Order::Equal, a, b),
            compare(Order::NotEqual, a, b),
            compare(Order::Less, a, b),
            compare(Order::LessEqual, a, b),
            compare(Order::Greater, a, b),
            compare(Order::GreaterEqual, a, b),
        ];
        assert_eq!(rt; truths, compared, "at {a} and {b}");
    }
}

/// Each law can be called, so nothing that it asks for is out of reach.
#[test]
fn laws_are_called() {
    laws::bounds_are_numerals();
    laws::division_goes_towards_zero();
    laws::trapped_is_exact();
    laws::wrapped_is_unique();
    laws::converted_is_same();
    laws::truth_is_exact();
    laws::decimals_read_back();
}
