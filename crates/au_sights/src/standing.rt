//! What is seen where a declaration of the program stands.

ghost use Rattle.std.specs.Prelude.{◌≡◌, ◌<◌, IfOk, Some, length, slice_get};
ghost use Rattle.std.specs.Option.{option_map};
ghost use Rattle.au_modules.specs.Seen.{tree_seen};
ghost use Rattle.au_modules.specs.Slots as slots;
ghost use Rattle.au_names.specs.Exporting.{declarations_seen};
ghost use Rattle.au_names.specs.Standing.{standing};
ghost use Rattle.au_typing.specs.Insides as insides;
ghost use Rattle.au_typing.specs.Written.{meant_in, types_at};
ghost use Rattle.au_sights.specs.Steps.{Stands};
ghost use Rattle.au_syntax.specs.Views.{written};
ghost use Rattle.au_types.specs.Views.{meaning};

use au_base::Memory;
use au_imports::Resolved;
use au_names::Declared;
use au_syntax::{Parsed, Part, TypeText, Whole};
use au_types::{DeclAt, Params, Scope, Table, Ty, type_meant};
use std::alloc::Global;

/// The names of types and classes that a part of the module at a place sees.
fn types_at(program: &Resolved, place: u16, part: Part) -> &Table<DeclAt>
    requires { place < length (slots.modules program.now) }
    ensures { result.now ≡ types_at (slots.modules program.now) place part }
{
    &program.names(place as usize, part).types
}

/// The names of types and classes that are seen where a declaration stands.
pub(crate) fn types_seen<'a>(program: &'a Resolved, found: &Declared) -> &'a Table<DeclAt>
    requires { Stands (slots.modules program.now) (standing found.now) }
    ensures { result.now ≡ types_at (slots.modules program.now) found.now.place found.now.part }
{
    types_at(program, found.place, found.part)
}

/// What a type means that is written in a declaration, over these type parameters, if it means anything.
pub(crate) fn type_there(
    alloc: Global,
    program: &Resolved,
    found: &Declared,
    params: &Params,
    node: &TypeText,
) -> Result<Option<Ty>, Memory>
    requires { Stands (slots.modules program.now) (standing found.now) }
    ensures { IfOk result (λ of. option_map meaning of
        ≡ meant_in (slots.modules program.now) (standing found.now) params.now (written node.now)) }
{
    let scope = Scope {
        regions: &[],
        params,
        names: types_seen(program, found),
        heads: program.heads_ref(),
    };
    type_meant(alloc, &scope, node)
}

/// How many declarations a file has, if it is there.
fn count_in(file: Option<&Whole<Parsed>>) -> usize
    ensures { result ≡ length (declarations_seen (tree_seen file.entry)) }
{
    match file {
        None => 0,
        Some(file) => file.tree().declarations.len(),
    }
}

/// How many declarations the interface of the module at a place has.
fn interface_count(program: &Resolved, place: u16) -> usize
    requires { place < length (slots.modules program.now) }
    ensures { result ≡ insides.interface_count (slice_get (slots.modules program.now) place) }
{
    count_in(program.modules().interface(place as usize))
}

/// The number of a declaration in its module.
pub(crate) fn number_of(program: &Resolved, found: &Declared) -> u32
    requires { Stands (slots.modules program.now) (standing found.now) }
    ensures { result ≡ insides.number_of (slots.modules program.now) (standing found.now) }
{
    match found.part {
        Part::Interface => found.index as u32,
        Part::Body => (interface_count(program, found.place) + found.index) as u32,
    }
}
