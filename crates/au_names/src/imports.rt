//! Puts what imports bring.

ghost use Rattle.std.specs.Prelude.{◌≡◌, ◌<◌, IfOk, OnOk, Some, drop, length, map, slice_get};
ghost use Rattle.std.specs.List.{flat_map};
ghost use Rattle.au_modules.specs.Programs.{ModuleParts};
ghost use Rattle.au_modules.specs.Seen.{tree_seen};
ghost use Rattle.au_modules.specs.Slots as slots;
ghost use Rattle.au_names.specs.Along.{AreAlong, members_in};
ghost use Rattle.au_names.specs.Exporting.{imports_seen};
ghost use Rattle.au_names.specs.Importing as spec;
ghost use Rattle.au_names.specs.Importing.{along, brings, brought, imported};
ghost use Rattle.au_names.specs.Sources.{IsMade, modules_of};
ghost use Rattle.au_names.specs.Owned.{interface_of};
ghost use Rattle.au_syntax.specs.Plain.{plain_importing, plain_name, plain_renaming};
ghost use Rattle.au_syntax.specs.Sizes.{joined};
ghost use Rattle.au_syntax.specs.Views.{importing, placed, renaming};
ghost use Rattle.au_syntax.specs.contracts.parsed.ParsedPhase.TheImpl.{ghosts as parsed};
ghost use Rattle.au_types.specs.Tables.{find, with_all};

use crate::decl_sets::DeclSet;
use crate::exports::{Exports, Source, offered_names};
use crate::members::put_members_in;
use crate::putting::put_found;
use crate::targets::Target;
use crate::trees::tree_of;
use au_base::Memory;
use au_modules::{Modules, dotted_text};
use au_syntax::{Ident, Import, Parsed, Renamed, Whole};
use au_types::{DeclAt, Space, Table};
use std::alloc::Global;

/// Bytes without the first.
fn past_first(bytes: &[u8]) -> &[u8]
    ensures { result.now ≡ drop 1 bytes.now }
{
    if bytes.is_empty() {
        return bytes;
    }
    &bytes[1..]
}

/// The place of the module that has a name, given by its parts, if the program has it.
///
/// # Errors
///
/// Only for want of memory.
pub fn place_named(
    alloc: Global,
    exports: &Exports,
    names: &Vec<Ident<Parsed>>,
) -> Result<Option<u16>, Memory>
    ensures { IfOk result (λ found. found
        ≡ find (joined (map (plain_name parsed.name_bytes) (map (placed parsed) names.now.items)))
        exports.now.places) }
{
    let text = dotted_text(alloc, names)?;
    Ok(exports.places.get(past_first(text.as_bytes())).copied())
}

/// The name under which an item brings what it names: that after its `as`, or its own.
pub fn given_name(item: &Renamed<Parsed>) -> &[u8]
    ensures { result.now ≡ spec.given_name (plain_renaming parsed.name_bytes (renaming parsed item.now)) }
{
    match &item.alias {
        None => item.name.name.as_bytes(),
        Some(alias) => alias.name.as_bytes(),
    }
}

/// Puts the cases or methods of a declaration of an interface, unless they have come along before.
fn put_once(
    alloc: Global,
    table: &mut Table<Target>,
    done: &mut DeclSet,
    modules: &Modules,
    at: DeclAt,
) -> Result<(), Memory>
    requires within { at.«module» < length (slots.modules modules.now) }
    requires done { AreAlong (slots.modules modules.now) done.old table.old }
    ensures members { (m : ModuleParts) → slice_get (slots.modules modules.now) at.«module» ≡ Some m
        → OnOk result (table.new ≡ with_all table.old (members_in at m)) }
    ensures done { OnOk result (AreAlong (slots.modules modules.now) done.new table.new) }
{
    let fresh = done.put(at)?;
    if !fresh {
        return Ok(());
    }
    let file = modules.interface(at.module as usize);
    put_members_in(alloc, table, at, file)
}

/// Puts the cases or methods that come along under a name from the module at a place.
fn put_along(
    alloc: Global,
    table: &mut Table<Target>,
    done: &mut DeclSet,
    source: &Source,
    other: u16,
    name: &[u8],
) -> Result<(), Memory>
    requires within { other < length (modules_of source.now) }
    requires made { IsMade source.now }
    requires done { AreAlong (modules_of source.now) done.old table.old }
    ensures along { (m : ModuleParts) → slice_get (modules_of source.now) other ≡ Some m
        → OnOk result (table.new ≡ with_all table.old (along other name.now (interface_of m))) }
    ensures done { OnOk result (AreAlong (modules_of source.now) done.new table.new) }
{
    let types = offered_names(source.exports, other as usize, Space::Types);
    match types.get(name) {
        None => Ok(()),
        Some(number) => {
            let at = DeclAt {
                module: other,
                decl: *number,
            };
            put_once(alloc, table, done, source.modules, at)
        }
    }
}

/// Puts what an item brings from the module at a place.
fn put_item(
    alloc: Global,
    table: &mut Table<Target>,
    done: &mut DeclSet,
    source: &Source,
    space: Space,
    other: u16,
    item: &Renamed<Parsed>,
) -> Result<(), Memory>
    requires within { other < length (modules_of source.now) }
    requires made { IsMade source.now }
    requires done { AreAlong (modules_of source.now) done.old table.old }
    ensures item { (m : ModuleParts) → slice_get (modules_of source.now) other ≡ Some m
        → OnOk result (table.new ≡ with_all table.old
        (brought space other m (plain_renaming parsed.name_bytes (renaming parsed item.now)))) }
    ensures done { OnOk result (AreAlong (modules_of source.now) done.new table.new) }
{
    let name = item.name.name.as_bytes();
    let names = offered_names(source.exports, other as usize, space);
    let local = given_name(item);
    put_found(alloc, table, other, names, name, local)?;
    match space {
        Space::Values => Ok(()),
        Space::Callables => put_along(alloc, table, done, source, other, name),
        Space::Types => Ok(()),
    }
}

/// Puts what items bring from the module at a place.
fn put_items(
    alloc: Global,
    table: &mut Table<Target>,
    done: &mut DeclSet,
    source: &Source,
    space: Space,
    other: u16,
    items: &Vec<Renamed<Parsed>>,
) -> Result<(), Memory>
    requires within { other < length (modules_of source.now) }
    requires made { IsMade source.now }
    requires done { AreAlong (modules_of source.now) done.old table.old }
    ensures items { (m : ModuleParts) → slice_get (modules_of source.now) other ≡ Some m
        → OnOk result (table.new ≡ with_all table.old
        (flat_map (brought space other m) (map (plain_renaming parsed.name_bytes)
        (map (renaming parsed) items.now.items)))) }
    ensures done { OnOk result (AreAlong (modules_of source.now) done.new table.new) }
{
    for item in items {
        put_item(alloc, table, done, source, space, other, item)?;
    }
    Ok(())
}

/// Puts what an import in the module at a place brings, if its module stands before.
fn put_import(
    alloc: Global,
    table: &mut Table<Target>,
    done: &mut DeclSet,
    source: &Source,
    space: Space,
    place: usize,
    import: &Import<Parsed>,
) -> Result<(), Memory>
    requires within { place < length (modules_of source.now) }
    requires made { IsMade source.now }
    requires done { AreAlong (modules_of source.now) done.old table.old }
    ensures import { OnOk result (table.new ≡ with_all table.old
        (brings space (modules_of source.now) place
        (plain_importing parsed.name_bytes (importing parsed import.now)))) }
    ensures done { OnOk result (AreAlong (modules_of source.now) done.new table.new) }
{
    let found = place_named(alloc, source.exports, &import.module)?;
    match found {
        None => Ok(()),
        Some(other) => {
            if (other as usize) < place {
                let items = &import.items;
                put_items(alloc, table, done, source, space, other, items)
            } else {
                Ok(())
            }
        }
    }
}

/// Puts what imports in the module at a place bring, past what has come along before.
fn put_each(
    alloc: Global,
    table: &mut Table<Target>,
    done: &mut DeclSet,
    source: &Source,
    space: Space,
    place: usize,
    imports: &Vec<Import<Parsed>>,
) -> Result<(), Memory>
    requires within { place < length (modules_of source.now) }
    requires made { IsMade source.now }
    requires done { AreAlong (modules_of source.now) done.old table.old }
    ensures { OnOk result (table.new ≡ with_all table.old
        (imported space (modules_of source.now) place
        (map (plain_importing parsed.name_bytes) (map (importing parsed) imports.now.items)))) }
{
    for import in imports {
        put_import(alloc, table, done, source, space, place, import)?;
    }
    Ok(())
}

/// Puts what imports in the module at a place bring.
fn put_imports(
    alloc: Global,
    table: &mut Table<Target>,
    source: &Source,
    space: Space,
    place: usize,
    imports: &Vec<Import<Parsed>>,
) -> Result<(), Memory>
    requires within { place < length (modules_of source.now) }
    requires made { IsMade source.now }
    ensures { OnOk result (table.new ≡ with_all table.old
        (imported space (modules_of source.now) place
        (map (plain_importing parsed.name_bytes) (map (importing parsed) imports.now.items)))) }
{
    let mut done = DeclSet::new(alloc);
    put_each(alloc, table, &mut done, source, space, place, imports)
}

/// Puts what the imports of a file of the module at a place bring, if there is one.
///
/// # Errors
///
/// Only for want of memory.
pub fn put_imported(
    alloc: Global,
    table: &mut Table<Target>,
    source: &Source,
    space: Space,
    place: usize,
    file: Option<&Whole<Parsed>>,
) -> Result<(), Memory>
    requires within { place < length (modules_of source.now) }
    requires made { IsMade source.now }
    ensures { OnOk result (table.new ≡ with_all table.old
        (imported space (modules_of source.now) place (imports_seen (tree_seen file.entry)))) }
{
    match file {
        None => Ok(()),
        Some(file) => {
            let tree = tree_of(file);
            put_imports(alloc, table, source, space, place, &tree.imports)
        }
    }
}
