//! What defines the types of a program, by name.

ghost use Rattle.std.specs.Prelude.{◌≡◌, ◌<◌, List, IfOk, OnOk, Some, find, length, map, slice_get};
ghost use Rattle.std.specs.Option.{option_map};
ghost use Rattle.au_modules.specs.Programs.{ModuleParts};
ghost use Rattle.au_modules.specs.Slots as slots;
ghost use Rattle.au_names.specs.Defining.{AreDefinitions, indexed, wholes_at, wholes_from, wholes_of};
ghost use Rattle.au_names.specs.Standing as spec;
ghost use Rattle.au_names.specs.Standing.{standing_seen};
ghost use Rattle.au_names.specs.Walks.{written, written_all};
ghost use Rattle.au_types.specs.Tables as tables;
ghost use Rattle.au_types.specs.Tables.{with_all};

use crate::declarations::{Declared, body_at, declaration, declared_in, opaque_name, whole_name};
use crate::methods::Methods;
use crate::trees::tree_of;
use au_base::{Memory, Name};
use au_modules::Modules;
use au_syntax::{Decl, Parsed, Part};
use au_types::{DeclAt, Table};
use std::alloc::Global;

/// What is made once for a program, so that the definition of a type, or a method of a class, is found
/// without a walk.
#[derive(Drop)]
pub struct Definitions {
    /// The indices of the records and unions among the declarations of each body, by their names, by the
    /// place of its module.
    pub wholes: Vec<Table<usize>>,
    /// The methods of each class.
    pub methods: Methods,
}

/// Puts the index of a declaration under its name, if it is a record or a union.
fn put_whole(table: &mut Table<usize>, index: usize, decl: &Decl<Parsed>) -> Result<(), Memory>
    ensures { OnOk result
        (table.new ≡ with_all table.old (indexed index (spec.whole_name (written decl.now)))) }
{
    match whole_name(decl) {
        None => Ok(()),
        Some(name) => {
            table.put(name.as_bytes(), index)?;
            Ok(())
        }
    }
}

/// Puts the indices of the records and unions among these declarations under their names.
fn put_wholes(table: &mut Table<usize>, decls: &Vec<Decl<Parsed>>) -> Result<(), Memory>
    ensures { OnOk result (table.new ≡ with_all table.old (wholes_from 0 (written_all decls.now.items))) }
{
    for (index, decl) in decls.iter().enumerate() {
        put_whole(table, index, decl)?;
    }
    Ok(())
}

/// The records and unions of the body of the module at a place.
fn wholes_in(alloc: Global, modules: &Modules, place: usize) -> Result<Table<usize>, Memory>
    requires { place < length (slots.modules modules.now) }
    ensures { IfOk result
        (λ table. option_map wholes_of (slice_get (slots.modules modules.now) place) ≡ Some table) }
{
    let mut table = Table::new(alloc);
    match modules.body(place) {
        None => Ok(table),
        Some(file) => {
            put_wholes(&mut table, &tree_of(file).declarations)?;
            Ok(table)
        }
    }
}

/// The records and unions of each body, by the place of its module.
fn wholes_by_place(alloc: Global, modules: &Modules) -> Result<Vec<Table<usize>>, Memory>
    ensures { IfOk result (λ wholes. wholes.items ≡ map wholes_of (slots.modules modules.now)) }
{
    let mut wholes = Vec::new(alloc);
    for place in 0..modules.len() {
        let table = wholes_in(alloc, modules, place)?;
        wholes.push(table)?;
    }
    Ok(wholes)
}

impl Definitions {
    /// Those of the modules of a program.
    ///
    /// # Errors
    ///
    /// Only for want of memory.
    pub fn of(alloc: Global, modules: &Modules) -> Result<Definitions, Memory>
        ensures { IfOk result (λ definitions. AreDefinitions definitions (slots.modules modules.now)) }
    {
        let wholes = wholes_by_place(alloc, modules)?;
        let methods = Methods::of(alloc, modules)?;
        Ok(Definitions { wholes, methods })
    }

    /// The index of the first record or union of a name in the body of the module at a place.
    fn whole(&self, place: u16, name: &Name) -> Option<usize>
        ensures { (program : List ModuleParts) → AreDefinitions self.now program
            → result ≡ tables.find name.now (wholes_at (slice_get program place)) }
    {
        if (place as usize) < self.wholes.len() {
            self.wholes[place as usize].get(name.as_bytes()).copied()
        } else {
            None
        }
    }
}

/// The first record or union of a name in the body of the module at a place, if there is one.
fn whole_in<'a>(
    modules: &'a Modules,
    definitions: &Definitions,
    place: u16,
    name: &Name,
) -> Option<Declared<'a>>
    requires { AreDefinitions definitions.now (slots.modules modules.now) }
    ensures { standing_seen result
        ≡ find (spec.is_whole name.now) (spec.body_at place (slice_get (slots.modules modules.now) place)) }
{
    match definitions.whole(place, name) {
        None => None,
        Some(index) => declared_in(place, Part::Body, body_at(modules, place), index),
    }
}

/// The definition of the declaration with this module and number, if both are there: an opaque type is
/// defined by the first record or union of its name in the body of its module, and all else is its own
/// definition.
pub(crate) fn definition<'a>(
    modules: &'a Modules,
    definitions: &Definitions,
    at: DeclAt,
) -> Option<Declared<'a>>
    requires { AreDefinitions definitions.now (slots.modules modules.now) }
    ensures { standing_seen result ≡ spec.definition_of (slots.modules modules.now) at }
{
    match declaration(modules, at) {
        None => None,
        Some(found) => match opaque_name(found.decl) {
            None => Some(found),
            Some(name) => whole_in(modules, definitions, found.place, name),
        },
    }
}
