//! The interface of Austral.Pervasive.

ghost use Rattle.std.specs.Prelude.{◌≡◌, IfOk};
ghost use Rattle.au_syntax.specs.Views as views;
ghost use Rattle.au_shipped.specs.PervasiveInterface as pervasive_interface;

use crate::declaring::interface;
use crate::rows::{Call, Case, Form, Over, Row, Shape, Takes};
use au_base::{Memory, Pos};
use au_syntax::{Module, Parsed, Phase, Universe};
use std::alloc::Global;

const NAME: [&[u8]; 2] = [b"Austral", b"Pervasive"];

/// `T: Type`
const TYPE: Over = Over {
    name: b"T",
    universe: Universe::AnyType,
};

/// `T: Free`
const FREE: Over = Over {
    name: b"T",
    universe: Universe::Free,
};

/// `R: Region`
const REGION: Over = Over {
    name: b"R",
    universe: Universe::Region,
};

/// `Span[Nat8, Static]`
const TEXT: Shape = Shape::AppliedToTwo(b"Span", b"Nat8", b"Static");

/// `value: T`
const VALUE: Takes = Takes {
    name: b"value",
    of: Form::Plain(Shape::Simple(b"T")),
};

/// The parameters of the methods of ModularArithmetic.
const SIDES: [Takes; 2] = [
    Takes {
        name: b"lhs",
        of: Form::Plain(Shape::Simple(b"T")),
    },
    Takes {
        name: b"rhs",
        of: Form::Plain(Shape::Simple(b"T")),
    },
];

/// The methods of Printable.
const PRINTING: [Call; 2] = [
    Call {
        name: b"print",
        parameters: &[VALUE],
        gives: Form::Plain(Shape::Simple(b"Unit")),
    },
    Call {
        name: b"printLn",
        parameters: &[VALUE],
        gives: Form::Plain(Shape::Simple(b"Unit")),
    },
];

/// The methods of ModularArithmetic.
const MODULAR: [Call; 3] = [
    Call {
        name: b"modularAdd",
        parameters: &SIDES,
        gives: Form::Plain(Shape::Simple(b"T")),
    },
    Call {
        name: b"modularSubtract",
        parameters: &SIDES,
        gives: Form::Plain(Shape::Simple(b"T")),
    },
    Call {
        name: b"modularMultiply",
        parameters: &SIDES,
        gives: Form::Plain(Shape::Simple(b"T")),
    },
];

/// The methods of Conversion, one for each kind of integers.
const CONVERSIONS: [Call; 9] = [
    Call {
        name: b"toNat8",
        parameters: &[VALUE],
        gives: Form::Plain(Shape::Applied(b"Option", b"Nat8")),
    },
    Call {
        name: b"toNat16",
        parameters: &[VALUE],
        gives: Form::Plain(Shape::Applied(b"Option", b"Nat16")),
    },
    Call {
        name: b"toNat32",
        parameters: &[VALUE],
        gives: Form::Plain(Shape::Applied(b"Option", b"Nat32")),
    },
    Call {
        name: b"toNat64",
        parameters: &[VALUE],
        gives: Form::Plain(Shape::Applied(b"Option", b"Nat64")),
    },
    Call {
        name: b"toInt8",
        parameters: &[VALUE],
        gives: Form::Plain(Shape::Applied(b"Option", b"Int8")),
    },
    Call {
        name: b"toInt16",
        parameters: &[VALUE],
        gives: Form::Plain(Shape::Applied(b"Option", b"Int16")),
    },
    Call {
        name: b"toInt32",
        parameters: &[VALUE],
        gives: Form::Plain(Shape::Applied(b"Option", b"Int32")),
    },
    Call {
        name: b"toInt64",
        parameters: &[VALUE],
        gives: Form::Plain(Shape::Applied(b"Option", b"Int64")),
    },
    Call {
        name: b"toIndex",
        parameters: &[VALUE],
        gives: Form::Plain(Shape::Applied(b"Option", b"Index")),
    },
];

/// The declarations: the instances stand behind the classes, class by class.
const DECLARATIONS: [Row; 40] = [
    Row::Union(
        b"Option",
        &[TYPE],
        Universe::AnyType,
        &[
            Case {
                name: b"None",
                fields: &[],
            },
            Case {
                name: b"Some",
                fields: &[VALUE],
            },
        ],
    ),
    Row::Union(
        b"Either",
        &[
            Over {
                name: b"L",
                universe: Universe::AnyType,
            },
            Over {
                name: b"R",
                universe: Universe::AnyType,
            },
        ],
        Universe::AnyType,
        &[
            Case {
                name: b"Left",
                fields: &[Takes {
                    name: b"left",
                    of: Form::Plain(Shape::Simple(b"L")),
                }],
            },
            Case {
                name: b"Right",
                fields: &[Takes {
                    name: b"right",
                    of: Form::Plain(Shape::Simple(b"R")),
                }],
            },
        ],
    ),
    Row::Union(
        b"ExitCode",
        &[],
        Universe::Free,
        &[
            Case {
                name: b"ExitSuccess",
                fields: &[],
            },
            Case {
                name: b"ExitFailure",
                fields: &[],
            },
        ],
    ),
    Row::Opaque(b"RootCapability", &[], Universe::Linear),
    Row::Function(
        &[],
        Call {
            name: b"surrenderRoot",
            parameters: &[Takes {
                name: b"root",
                of: Form::Plain(Shape::Simple(b"RootCapability")),
            }],
            gives: Form::Plain(Shape::Simple(b"Unit")),
        },
    ),
    Row::Function(
        &[],
        Call {
            name: b"abort",
            parameters: &[Takes {
                name: b"message",
                of: Form::Plain(TEXT),
            }],
            gives: Form::Plain(Shape::Simple(b"Unit")),
        },
    ),
    Row::Function(
        &[],
        Call {
            name: b"spanLength",
            parameters: &[Takes {
                name: b"span",
                of: Form::Plain(TEXT),
            }],
            gives: Form::Plain(Shape::Simple(b"Index")),
        },
    ),
    Row::Function(
        &[TYPE, REGION],
        Call {
            name: b"swap",
            parameters: &[
                Takes {
                    name: b"ref",
                    of: Form::Writes(Shape::Simple(b"T")),
                },
                VALUE,
            ],
            gives: Form::Plain(Shape::Simple(b"T")),
        },
    ),
    Row::Class(b"Printable", FREE, &PRINTING),
    Row::Class(b"ModularArithmetic", FREE, &MODULAR),
    Row::Class(b"Conversion", FREE, &CONVERSIONS),
    Row::Instance(b"Printable", Shape::Simple(b"Bool")),
    Row::Instance(b"Printable", Shape::Simple(b"Nat8")),
    Row::Instance(b"Printable", Shape::Simple(b"Nat16")),
    Row::Instance(b"Printable", Shape::Simple(b"Nat32")),
    Row::Instance(b"Printable", Shape::Simple(b"Nat64")),
    Row::Instance(b"Printable", Shape::Simple(b"Int8")),
    Row::Instance(b"Printable", Shape::Simple(b"Int16")),
    Row::Instance(b"Printable", Shape::Simple(b"Int32")),
    Row::Instance(b"Printable", Shape::Simple(b"Int64")),
    Row::Instance(b"Printable", Shape::Simple(b"Index")),
    Row::Instance(b"Printable", TEXT),
    Row::Instance(b"ModularArithmetic", Shape::Simple(b"Nat8")),
    Row::Instance(b"ModularArithmetic", Shape::Simple(b"Nat16")),
    Row::Instance(b"ModularArithmetic", Shape::Simple(b"Nat32")),
    Row::Instance(b"ModularArithmetic", Shape::Simple(b"Nat64")),
    Row::Instance(b"ModularArithmetic", Shape::Simple(b"Int8")),
    Row::Instance(b"ModularArithmetic", Shape::Simple(b"Int16")),
    Row::Instance(b"ModularArithmetic", Shape::Simple(b"Int32")),
    Row::Instance(b"ModularArithmetic", Shape::Simple(b"Int64")),
    Row::Instance(b"ModularArithmetic", Shape::Simple(b"Index")),
    Row::Instance(b"Conversion", Shape::Simple(b"Nat8")),
    Row::Instance(b"Conversion", Shape::Simple(b"Nat16")),
    Row::Instance(b"Conversion", Shape::Simple(b"Nat32")),
    Row::Instance(b"Conversion", Shape::Simple(b"Nat64")),
    Row::Instance(b"Conversion", Shape::Simple(b"Int8")),
    Row::Instance(b"Conversion", Shape::Simple(b"Int16")),
    Row::Instance(b"Conversion", Shape::Simple(b"Int32")),
    Row::Instance(b"Conversion", Shape::Simple(b"Int64")),
    Row::Instance(b"Conversion", Shape::Simple(b"Index")),
];

/// The interface of Austral.Pervasive, with everything at one place.
///
/// # Errors
///
/// `Memory`
pub fn pervasive(alloc: Global, at: Pos) -> Result<Module<Parsed>, Memory>
    ensures { IfOk result (λ m. views.module_tree ⟦<Parsed as Phase>⟧ m ≡ pervasive_interface.pervasive at) }
{
    interface(alloc, at, &NAME, &DECLARATIONS)
}
