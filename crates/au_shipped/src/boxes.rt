//! The interface of Standard.Box.

ghost use Rattle.std.specs.Prelude.{◌≡◌, IfOk};
ghost use Rattle.au_syntax.specs.Views as views;
ghost use Rattle.au_shipped.specs.BoxInterface as box_interface;

use crate::declaring::interface;
use crate::rows::{Call, Form, Over, Row, Shape, Takes};
use au_base::{Memory, Pos};
use au_syntax::{Module, Parsed, Phase, Universe};
use std::alloc::Global;

const NAME: [&[u8]; 2] = [b"Standard", b"Box"];

/// `T: Type`
const TYPE: Over = Over {
    name: b"T",
    universe: Universe::AnyType,
};

/// `R: Region`
const REGION: Over = Over {
    name: b"R",
    universe: Universe::Region,
};

const DECLARATIONS: [Row; 5] = [
    Row::Opaque(b"Box", &[TYPE], Universe::Linear),
    Row::Function(
        &[TYPE],
        Call {
            name: b"makeBox",
            parameters: &[Takes {
                name: b"value",
                of: Form::Plain(Shape::Simple(b"T")),
            }],
            gives: Form::Plain(Shape::Applied(b"Box", b"T")),
        },
    ),
    Row::Function(
        &[TYPE],
        Call {
            name: b"unbox",
            parameters: &[Takes {
                name: b"box",
                of: Form::Plain(Shape::Applied(b"Box", b"T")),
            }],
            gives: Form::Plain(Shape::Simple(b"T")),
        },
    ),
    Row::Function(
        &[TYPE, REGION],
        Call {
            name: b"boxGet",
            parameters: &[Takes {
                name: b"ref",
                of: Form::Reads(Shape::Applied(b"Box", b"T")),
            }],
            gives: Form::Reads(Shape::Simple(b"T")),
        },
    ),
    Row::Function(
        &[TYPE, REGION],
        Call {
            name: b"boxGetMut",
            parameters: &[Takes {
                name: b"ref",
                of: Form::Writes(Shape::Applied(b"Box", b"T")),
            }],
            gives: Form::Writes(Shape::Simple(b"T")),
        },
    ),
];

/// The interface of Standard.Box, with everything at one place.
///
/// # Errors
///
/// `Memory`
pub fn boxes(alloc: Global, at: Pos) -> Result<Module<Parsed>, Memory>
    ensures { IfOk result (λ m. views.module_tree ⟦<Parsed as Phase>⟧ m ≡ box_interface.boxes at) }
{
    interface(alloc, at, &NAME, &DECLARATIONS)
}
