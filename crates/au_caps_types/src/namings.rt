//! The declared types of a program, each with the types that its fields name.

ghost use Rattle.std.specs.Prelude.{◌≡◌, ◌<◌, IfOk, Some, length};
ghost use Rattle.au_caps_types.specs.Naming as spec;
ghost use Rattle.au_modules.specs.Slots as slots;
ghost use Rattle.au_names.specs.Standing.{standing};
ghost use Rattle.au_names.specs.Walks.{written};

use crate::naming::push_names;
use au_base::{Memory, Sequence};
use au_formed::Naming;
use au_imports::Resolved;
use au_names::Declared;
use au_promises::type_parameters;
use au_syntax::{Decl, Parsed, Part};
use au_types::{DeclAt, Heads, Scope, Table};
use std::alloc::Global;

/// What names mean among types in a part of the module at a place.
fn types_at(program: &Resolved, place: u16, part: Part) -> &Table<DeclAt>
    requires { place < length (slots.modules program.now) }
    ensures { result.now ≡ spec.types_at (slots.modules program.now) place part }
{
    &program.names(place as usize, part).types
}

/// The declared types that the fields of a declaration name, if it is a record or a union.
fn names_by(
    alloc: Global,
    names: &Table<DeclAt>,
    heads: &Heads,
    decl: &Decl<Parsed>,
) -> Result<Sequence<DeclAt>, Memory>
    ensures { IfOk result (λ made. made ≡ spec.names_by names.now heads.now (written decl.now)) }
{
    let params = type_parameters(alloc, decl)?;
    let scope = Scope {
        regions: &[],
        params: &params,
        names,
        heads,
    };
    let mut made = Vec::new(alloc);
    push_names(&mut made, &scope, decl)?;
    Ok(Sequence::from_vec(made))
}

/// The same of a declaration that is found.
fn names_found(
    alloc: Global,
    program: &Resolved,
    found: &Declared,
) -> Result<Sequence<DeclAt>, Memory>
    requires { found.now.place < length (slots.modules program.now) }
    ensures { IfOk result (λ made. made
        ≡ spec.names_standing (slots.modules program.now) (Some (standing found.now))) }
{
    let names = types_at(program, found.place, found.part);
    let heads = program.heads_ref();
    names_by(alloc, names, heads, found.decl)
}

/// The declared types that the fields of a declared type name.
fn names_of(alloc: Global, program: &Resolved, at: DeclAt) -> Result<Sequence<DeclAt>, Memory>
    ensures { IfOk result (λ names. names ≡ spec.names_of (slots.modules program.now) at) }
{
    match program.definition(at) {
        None => Ok(Sequence::new(alloc)),
        Some(found) => names_found(alloc, program, &found),
    }
}

/// The declared types of a program, in the order of their rows, each with the types that its fields name.
pub(crate) fn namings_of(alloc: Global, program: &Resolved) -> Result<Vec<Naming>, Memory>
    ensures { IfOk result (λ found. found.items ≡ spec.namings (slots.modules program.now)) }
{
    let heads = program.heads_ref();
    let mut list = Vec::new(alloc);
    for index in 0..heads.len() {
        let (of, _) = heads.at(index);
        let names = names_of(alloc, program, of)?;
        list.push(Naming { of, names })?;
    }
    Ok(list)
}
