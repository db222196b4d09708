//! The names that a part of a module sees.

ghost use Rattle.std.specs.Prelude.{◌≡◌, ◌<◌, [], IfOk, OnOk, Some, length, slice_get};
ghost use Rattle.std.specs.Option.{option_map};
ghost use Rattle.au_modules.specs.Programs.{ModuleParts};
ghost use Rattle.au_modules.specs.Slots as slots;
ghost use Rattle.au_names.specs.Exporting.{AreExports, body_names};
ghost use Rattle.au_names.specs.Meanings.{declared_by, seen};
ghost use Rattle.au_names.specs.Sources.{IsMade, modules_of};
ghost use Rattle.au_names.specs.Owned.{own};
ghost use Rattle.au_types.specs.Tables.{with_all};

use crate::declarations::count_in;
use crate::exports::{Exports, Source, names_from, no_names, offered_names};
use crate::imports::put_imported;
use crate::part_names::{PartNames, declarations};
use crate::putting::{in_space, put_table};
use crate::targets::Target;
use crate::trees::tree_of;
use au_base::Memory;
use au_modules::Modules;
use au_syntax::Part;
use au_types::{DeclAt, NameTables, Space, Table};
use std::alloc::Global;

/// The names that the body of the module at a place brings in.
fn named_in_body(alloc: Global, modules: &Modules, place: usize) -> Result<NameTables, Memory>
    requires { place < length (slots.modules modules.now) }
    ensures { IfOk result
        (λ names. option_map body_names (slice_get (slots.modules modules.now) place) ≡ Some names) }
{
    let first = count_in(modules.interface(place));
    match modules.body(place) {
        None => Ok(no_names(alloc)),
        Some(file) => {
            let tree = tree_of(file);
            let names = names_from(alloc, tree, first)?;
            Ok(names)
        }
    }
}

/// Puts what the declarations of the module at a place bring in.
fn put_own(
    alloc: Global,
    table: &mut Table<Target>,
    source: &Source,
    body: &NameTables,
    space: Space,
    place: u16,
) -> Result<(), Memory>
    requires within { place < length (modules_of source.now) }
    requires made { IsMade source.now }
    requires body { option_map body_names (slice_get (modules_of source.now) place) ≡ Some body.now }
    ensures { (m : ModuleParts) → slice_get (modules_of source.now) place ≡ Some m
        → OnOk result (table.new ≡ with_all table.old (own space place m)) }
{
    let offered = offered_names(source.exports, place as usize, space);
    put_table(alloc, table, place, offered)?;
    let hidden = in_space(body, space);
    put_table(alloc, table, place, hidden)
}

/// Puts the names of a space that a part of the module at a place sees, given what its body brings in.
fn put_seen(
    alloc: Global,
    table: &mut Table<Target>,
    source: &Source,
    body: &NameTables,
    space: Space,
    place: usize,
    part: Part,
) -> Result<(), Memory>
    requires empty { table.old ≡ [] }
    requires within { place < length (modules_of source.now) }
    requires made { IsMade source.now }
    requires body { option_map body_names (slice_get (modules_of source.now) place) ≡ Some body.now }
    ensures { (m : ModuleParts) → slice_get (modules_of source.now) place ≡ Some m
        → OnOk result (table.new ≡ seen space (modules_of source.now) place m part) }
{
    let file = source.modules.part(place, part);
    let number = place as u16;
    put_own(alloc, table, source, body, space, number)?;
    put_imported(alloc, table, source, space, place, file)?;
    let pervasive = offered_names(source.exports, 0, space);
    put_table(alloc, table, 0, pervasive)
}

/// The names of a space that a part of the module at a place sees, given what its body brings in.
fn table_seen(
    alloc: Global,
    source: &Source,
    body: &NameTables,
    space: Space,
    place: usize,
    part: Part,
) -> Result<Table<Target>, Memory>
    requires within { place < length (modules_of source.now) }
    requires made { IsMade source.now }
    requires body { option_map body_names (slice_get (modules_of source.now) place) ≡ Some body.now }
    ensures { (m : ModuleParts) → slice_get (modules_of source.now) place ≡ Some m
        → IfOk result (λ table. table ≡ seen space (modules_of source.now) place m part) }
{
    let mut table = Table::new(alloc);
    match put_seen(alloc, &mut table, source, body, space, place, part) {
        Ok(()) => Ok(table),
        Err(fault) => Err(fault),
    }
}

/// The declarations in a space that a part of the module at a place sees, given what its body brings in.
fn declared_seen(
    alloc: Global,
    source: &Source,
    body: &NameTables,
    space: Space,
    place: usize,
    part: Part,
) -> Result<Table<DeclAt>, Memory>
    requires within { place < length (modules_of source.now) }
    requires made { IsMade source.now }
    requires body { option_map body_names (slice_get (modules_of source.now) place) ≡ Some body.now }
    ensures { (m : ModuleParts) → slice_get (modules_of source.now) place ≡ Some m
        → IfOk result (λ places. places ≡ declared_by (seen space (modules_of source.now) place m part)) }
{
    let table = table_seen(alloc, source, body, space, place, part)?;
    declarations(alloc, &table)
}

/// What names mean in a part of the module at a place, given what its body brings in.
fn names_beside(
    alloc: Global,
    source: &Source,
    body: &NameTables,
    place: usize,
    part: Part,
) -> Result<PartNames, Memory>
    requires within { place < length (modules_of source.now) }
    requires made { IsMade source.now }
    requires body { option_map body_names (slice_get (modules_of source.now) place) ≡ Some body.now }
    ensures values { (m : ModuleParts) → slice_get (modules_of source.now) place ≡ Some m
        → IfOk result (λ names. names.values
        ≡ declared_by (seen Space.Values (modules_of source.now) place m part)) }
    ensures callables { (m : ModuleParts) → slice_get (modules_of source.now) place ≡ Some m
        → IfOk result (λ names. names.callables
        ≡ seen Space.Callables (modules_of source.now) place m part) }
    ensures types { (m : ModuleParts) → slice_get (modules_of source.now) place ≡ Some m
        → IfOk result (λ names. names.types
        ≡ declared_by (seen Space.Types (modules_of source.now) place m part)) }
{
    let values = declared_seen(alloc, source, body, Space::Values, place, part)?;
    let callables = table_seen(alloc, source, body, Space::Callables, place, part)?;
    match declared_seen(alloc, source, body, Space::Types, place, part) {
        Ok(types) => Ok(PartNames {
            values,
            callables,
            types,
        }),
        Err(fault) => Err(fault),
    }
}

/// What names mean in a part of the module at a place, the first that each name means: what the module
/// declares, then what the imports of that part bring, then what is pervasive.
///
/// # Errors
///
/// Only for want of memory.
pub fn names_seen(
    alloc: Global,
    modules: &Modules,
    exports: &Exports,
    place: usize,
    part: Part,
) -> Result<PartNames, Memory>
    requires within { place < length (slots.modules modules.now) }
    requires made { AreExports exports.now (slots.modules modules.now) }
    ensures values { (m : ModuleParts) → slice_get (slots.modules modules.now) place ≡ Some m
        → IfOk result (λ names. names.values
        ≡ declared_by (seen Space.Values (slots.modules modules.now) place m part)) }
    ensures callables { (m : ModuleParts) → slice_get (slots.modules modules.now) place ≡ Some m
        → IfOk result (λ names. names.callables
        ≡ seen Space.Callables (slots.modules modules.now) place m part) }
    ensures types { (m : ModuleParts) → slice_get (slots.modules modules.now) place ≡ Some m
        → IfOk result (λ names. names.types
        ≡ declared_by (seen Space.Types (slots.modules modules.now) place m part)) }
{
    match named_in_body(alloc, modules, place) {
        Ok(body) => names_beside(alloc, &Source { modules, exports }, &body, place, part),
        Err(fault) => Err(fault),
    }
}
