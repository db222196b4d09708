//! The interface of Standard.Buffer.

ghost use Rattle.std.specs.Prelude.{◌≡◌, IfOk};
ghost use Rattle.au_syntax.specs.Views as views;
ghost use Rattle.au_shipped.specs.BufferInterface as buffer_interface;

use crate::declaring::interface;
use crate::rows::{Call, Form, Over, Row, Shape, Takes};
use au_base::{Memory, Pos};
use au_syntax::{Module, Parsed, Phase, Universe};
use std::alloc::Global;

const NAME: [&[u8]; 2] = [b"Standard", b"Buffer"];

/// `T: Type`
const TYPE: Over = Over {
    name: b"T",
    universe: Universe::AnyType,
};

/// `T: Free`
const FREE: Over = Over {
    name: b"T",
    universe: Universe::Free,
};

/// `R: Region`
const REGION: Over = Over {
    name: b"R",
    universe: Universe::Region,
};

/// `ref: &[Buffer[T], R]`
const READS: Takes = Takes {
    name: b"ref",
    of: Form::Reads(Shape::Applied(b"Buffer", b"T")),
};

/// `ref: &![Buffer[T], R]`
const WRITES: Takes = Takes {
    name: b"ref",
    of: Form::Writes(Shape::Applied(b"Buffer", b"T")),
};

/// `index: Index`
const INDEX: Takes = Takes {
    name: b"index",
    of: Form::Plain(Shape::Simple(b"Index")),
};

/// `value: T`
const VALUE: Takes = Takes {
    name: b"value",
    of: Form::Plain(Shape::Simple(b"T")),
};

const DECLARATIONS: [Row; 8] = [
    Row::Opaque(b"Buffer", &[TYPE], Universe::Linear),
    Row::Function(
        &[TYPE],
        Call {
            name: b"makeEmpty",
            parameters: &[],
            gives: Form::Plain(Shape::Applied(b"Buffer", b"T")),
        },
    ),
    Row::Function(
        &[TYPE],
        Call {
            name: b"destroyEmpty",
            parameters: &[Takes {
                name: b"buffer",
                of: Form::Plain(Shape::Applied(b"Buffer", b"T")),
            }],
            gives: Form::Plain(Shape::Simple(b"Unit")),
        },
    ),
    Row::Function(
        &[TYPE, REGION],
        Call {
            name: b"length",
            parameters: &[READS],
            gives: Form::Plain(Shape::Simple(b"Index")),
        },
    ),
    Row::Function(
        &[TYPE, REGION],
        Call {
            name: b"insertBack",
            parameters: &[WRITES, VALUE],
            gives: Form::Plain(Shape::Simple(b"Unit")),
        },
    ),
    Row::Function(
        &[TYPE, REGION],
        Call {
            name: b"removeBack",
            parameters: &[WRITES],
            gives: Form::Plain(Shape::Simple(b"T")),
        },
    ),
    Row::Function(
        &[FREE, REGION],
        Call {
            name: b"nth",
            parameters: &[READS, INDEX],
            gives: Form::Plain(Shape::Simple(b"T")),
        },
    ),
    Row::Function(
        &[TYPE, REGION],
        Call {
            name: b"replaceNth",
            parameters: &[WRITES, INDEX, VALUE],
            gives: Form::Plain(Shape::Simple(b"T")),
        },
    ),
];

/// The interface of Standard.Buffer, with everything at one place.
///
/// # Errors
///
/// `Memory`
pub fn buffers(alloc: Global, at: Pos) -> Result<Module<Parsed>, Memory>
    ensures { IfOk result (λ m. views.module_tree ⟦<Parsed as Phase>⟧ m ≡ buffer_interface.buffers at) }
{
    interface(alloc, at, &NAME, &DECLARATIONS)
}
