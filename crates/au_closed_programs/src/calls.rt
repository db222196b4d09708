//! Where the bodies of a program's instances stand, and what they call.

ghost use Rattle.std.specs.Prelude.{◌≡◌, ◌<◌, IfOk, Some, length};
ghost use Rattle.std.specs.Option.{option_map};
ghost use Rattle.au_closed_programs.specs.Defined.{AllDefined, body_said};
ghost use Rattle.au_classes.specs.Rows.{rows_of};
ghost use Rattle.au_closing.specs.Bodies as found;
ghost use Rattle.au_closing.specs.Closes as closes;
ghost use Rattle.au_closing.specs.Leading.{module_name};
ghost use Rattle.au_closing.specs.ClosingViews.{instance_said, instances_said};
ghost use Rattle.au_type_texts.specs.GivenViews.{given_said};
ghost use Rattle.au_modules.specs.Slots as slots;
ghost use Rattle.au_names.specs.Meanings.{declared_by};
ghost use Rattle.au_noting_programs.specs.Said.{modules_said};
ghost use Rattle.au_typing.specs.Written.{seen_at, types_at};
ghost use Rattle.au_syntax.specs.declared.modules.Part.TheVariants as parts;
ghost use Rattle.au_types.specs.declared.spaces.Space.TheVariants as spaces;

use crate::bodies::{Body, body_of};
use au_base::{Memory, Name};
use au_closing::{Calls, Instance, Sight, instances_called};
use au_imports::Resolved;
use au_instances::Instances;
use au_noting_programs::NotedModule;
use au_promises::definitions::Definitions;
use au_syntax::Part;
use au_type_texts::GivenType;
use au_types::{DeclAt, Table};
use std::alloc::Global;

/// A program with notes, and the definitions of the bodies of all its modules.
#[derive(Clone, Copy)]
pub struct Bodies<'a> {
    /// The program.
    pub program: &'a Resolved,
    /// The instances of its classes.
    pub instances: &'a Instances,
    /// Its modules with notes.
    pub modules: &'a [NotedModule],
    /// The definitions.
    pub definitions: &'a Vec<Definitions>,
    ghost rows: { instances.now ≡ rows_of (slots.modules program.now) },
    ghost all: { AllDefined (slots.modules program.now) definitions.now.items },
}

/// The body of an instance, if it is there.
pub(crate) fn body_in<'a>(
    alloc: Global,
    bodies: &Bodies<'a>,
    one: &Instance,
) -> Result<Option<Body<'a>>, Memory>
    ensures { IfOk result (λ body.
        option_map body_said body
        ≡ found.body_of (slots.modules bodies.now.program.now) (modules_said bodies.now.modules.now)
        (instance_said one.now).of) }
{
    body_of(
        alloc,
        bodies.program,
        bodies.definitions,
        bodies.modules,
        &one.of,
    )
}

/// What is seen in the body of the module at a place.
pub(crate) fn sight_at<'a>(bodies: &Bodies<'a>, place: u16) -> Sight<'a>
    requires { place < length (slots.modules bodies.now.program.now) }
    ensures names { result.names.now.callables
        ≡ seen_at spaces.Callables (slots.modules bodies.now.program.now) place parts.Body }
    ensures values { result.names.now.values
        ≡ declared_by (seen_at spaces.Values (slots.modules bodies.now.program.now) place parts.Body) }
    ensures program { result.program.now ≡ bodies.now.program.now }
    ensures instances { result.instances.now ≡ rows_of (slots.modules bodies.now.program.now) }
{
    Sight {
        program: bodies.program,
        instances: bodies.instances,
        names: bodies.program.names(place as usize, Part::Body),
    }
}

/// What the names of types mean in the body of the module at a place.
pub(crate) fn types_of<'a>(bodies: &Bodies<'a>, place: u16) -> &'a Table<DeclAt>
    requires { place < length (slots.modules bodies.now.program.now) }
    ensures { result.now ≡ types_at (slots.modules bodies.now.program.now) place parts.Body }
{
    &bodies.program.names(place as usize, Part::Body).types
}

/// The name of the module at a place.
pub(crate) fn home_of(alloc: Global, bodies: &Bodies, place: u16) -> Result<Name, Memory>
    requires { place < length (slots.modules bodies.now.program.now) }
    ensures { IfOk result (λ name. name ≡ module_name (slots.modules bodies.now.program.now) place) }
{
    bodies.program.modules().name(place as usize).copy(alloc)
}

/// The instances that the calls of a body lead to, in the order of the text, where this is given for its type
/// parameters.
fn calls_in_body(
    alloc: Global,
    bodies: &Bodies,
    given: &[GivenType],
    body: &Body,
) -> Result<Vec<Instance>, Memory>
    requires { body.now.place < length (slots.modules bodies.now.program.now) }
    ensures { IfOk result (λ called.
        instances_said called.items
        ≡ closes.calls_in_body (slots.modules bodies.now.program.now) (modules_said bodies.now.modules.now)
        (given_said given.now) (Some (body_said body.now))) }
{
    let sight = sight_at(bodies, body.place);
    instances_called(alloc, &sight, given, body.block)
}

/// The instances that an instance calls, in the order of the text.
fn calls_of(alloc: Global, bodies: &Bodies, one: &Instance) -> Result<Vec<Instance>, Memory>
    ensures { IfOk result (λ called.
        instances_said called.items
        ≡ closes.calls_of (slots.modules bodies.now.program.now) (modules_said bodies.now.modules.now)
        (instance_said one.now)) }
{
    let found = body_in(alloc, bodies, one)?;
    match found {
        None => Ok(Vec::new(alloc)),
        Some(body) => calls_in_body(alloc, bodies, &one.given, &body),
    }
}

impl<'a> Calls for Bodies<'a> {
    ghost calls_of = { λ bodies.
        closes.calls_of (slots.modules bodies.program.now) (modules_said bodies.modules.now) };

    fn calls(&self, alloc: Global, of: &Instance) -> Result<Vec<Instance>, Memory> {
        calls_of(alloc, self, of)
    }
}
