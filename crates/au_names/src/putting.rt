//! Puts what names mean.

ghost use Rattle.std.specs.Prelude.{◌≡◌, OnOk, Option};
ghost use Rattle.au_names.specs.Exporting as exporting;
ghost use Rattle.au_names.specs.Exporting.{found_as};
ghost use Rattle.au_names.specs.Owned.{target, targets};
ghost use Rattle.au_types.specs.Tables.{find, with_all, with_pair};

use crate::targets::Target;
use au_base::{Memory, Text};
use au_types::{DeclAt, NameTables, Space, Table};
use std::alloc::Global;

/// Puts a declaration, or its case or method of a name, under a local name.
pub fn put_target(
    alloc: Global,
    table: &mut Table<Target>,
    local: &[u8],
    name: &[u8],
    at: DeclAt,
) -> Result<(), Memory>
    ensures { OnOk result (table.new ≡ with_pair table.old local.now (target at.«module» name.now at.decl)) }
{
    let name = Text::copy_of(alloc, name)?;
    table.put(local, Target { at, name })?;
    Ok(())
}

/// Puts names with their numbers, which are those of declarations in the module at a place.
pub fn put_table(
    alloc: Global,
    table: &mut Table<Target>,
    place: u16,
    names: &Table<u32>,
) -> Result<(), Memory>
    ensures { OnOk result (table.new ≡ with_all table.old (targets place names.now)) }
{
    for index in 0..names.len() {
        let (name, number) = names.at(index);
        let at = DeclAt {
            module: place,
            decl: *number,
        };
        put_target(alloc, table, name, name, at)?;
    }
    Ok(())
}

/// Puts what has a name among names with their numbers, if anything has it, under a local name.
pub fn put_found(
    alloc: Global,
    table: &mut Table<Target>,
    place: u16,
    names: &Table<u32>,
    name: &[u8],
    local: &[u8],
) -> Result<(), Memory>
    ensures { OnOk result
        (table.new ≡ with_all table.old (found_as place name.now local.now (find name.now names.now))) }
{
    match names.get(name) {
        None => Ok(()),
        Some(number) => {
            let at = DeclAt {
                module: place,
                decl: *number,
            };
            put_target(alloc, table, local, name, at)
        }
    }
}

/// The table of a space.
pub fn in_space(names: &NameTables, space: Space) -> &Table<u32>
    ensures { result.now ≡ exporting.in_space space names.now }
{
    match space {
        Space::Values => &names.values,
        Space::Callables => &names.callables,
        Space::Types => &names.types,
    }
}
