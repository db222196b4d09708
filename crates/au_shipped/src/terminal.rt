//! The interface of Standard.IO.Terminal.

ghost use Rattle.std.specs.Prelude.{◌≡◌, IfOk};
ghost use Rattle.au_syntax.specs.Views as views;
ghost use Rattle.au_shipped.specs.TerminalInterface as terminal;

use crate::declaring::interface;
use crate::rows::{Call, Form, Over, Row, Shape, Takes};
use au_base::{Memory, Pos};
use au_syntax::{Module, Parsed, Phase, Universe};
use std::alloc::Global;

const NAME: [&[u8]; 3] = [b"Standard", b"IO", b"Terminal"];

/// `R: Region`
const REGION: Over = Over {
    name: b"R",
    universe: Universe::Region,
};

/// `ref: &![Terminal, R]`
const REFERENCE: Takes = Takes {
    name: b"ref",
    of: Form::Writes(Shape::Simple(b"Terminal")),
};

const DECLARATIONS: [Row; 5] = [
    Row::Opaque(b"Terminal", &[], Universe::Linear),
    Row::Function(
        &[REGION],
        Call {
            name: b"acquireTerminal",
            parameters: &[Takes {
                name: b"root",
                of: Form::Writes(Shape::Simple(b"RootCapability")),
            }],
            gives: Form::Plain(Shape::Simple(b"Terminal")),
        },
    ),
    Row::Function(
        &[REGION],
        Call {
            name: b"readByte",
            parameters: &[REFERENCE],
            gives: Form::Plain(Shape::Applied(b"Option", b"Nat8")),
        },
    ),
    Row::Function(
        &[REGION],
        Call {
            name: b"writeByte",
            parameters: &[
                REFERENCE,
                Takes {
                    name: b"byte",
                    of: Form::Plain(Shape::Simple(b"Nat8")),
                },
            ],
            gives: Form::Plain(Shape::Simple(b"Unit")),
        },
    ),
    Row::Function(
        &[],
        Call {
            name: b"releaseTerminal",
            parameters: &[Takes {
                name: b"terminal",
                of: Form::Plain(Shape::Simple(b"Terminal")),
            }],
            gives: Form::Plain(Shape::Simple(b"Unit")),
        },
    ),
];

/// The interface of Standard.IO.Terminal, with everything at one place.
///
/// # Errors
///
/// `Memory`
pub fn terminal(alloc: Global, at: Pos) -> Result<Module<Parsed>, Memory>
    ensures { IfOk result (λ m. views.module_tree ⟦<Parsed as Phase>⟧ m ≡ terminal.terminal at) }
{
    interface(alloc, at, &NAME, &DECLARATIONS)
}
