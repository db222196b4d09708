//! What the interfaces of a program offer, by name.

ghost use Rattle.std.specs.Prelude.{◌≡◌, ◌<◌, ◌+◌, ◌≤◌, ◌^◌, ℕ, List, [], Some, IfOk, length, map, slice_get};
ghost use Rattle.std.specs.Option.{option_map};
ghost use Rattle.au_modules.specs.Programs.{ModuleParts};
ghost use Rattle.au_modules.specs.Slots as slots;
ghost use Rattle.au_names.specs.Exporting.{AreExports, offers, tables_from};
ghost use Rattle.au_names.specs.Placing.{places_from};
ghost use Rattle.au_syntax.specs.Files.{says};
ghost use Rattle.au_syntax.specs.contracts.parsed.ParsedPhase.TheImpl.{ghosts as parsed};
ghost use Rattle.au_names.specs.Owned.{interface_of};
ghost use Rattle.au_types.specs.DeclaredNames.{table_of};
ghost use Rattle.au_types.specs.Tables.{with_all};

use crate::putting::in_space;
use crate::trees::tree_of;
use au_base::Memory;
use au_modules::Modules;
use au_syntax::{Module, Parsed};
use au_types::{NameTables, Space, Table};
use std::alloc::Global;

/// What is made once for a program, so that names of its interfaces are found without a walk.
#[derive(Drop)]
pub struct Exports {
    /// The places of the modules, by their names.
    pub places: Table<u16>,
    /// The names that each interface offers, with the numbers of their declarations, by the place of its
    /// module.
    pub interfaces: Vec<NameTables>,
}

/// Where names are brought from.
#[derive(Clone, Copy)]
pub struct Source<'a> {
    /// The modules of a program.
    pub modules: &'a Modules,
    /// What their interfaces offer.
    pub exports: &'a Exports,
}

/// The names that a file's declarations bring in, numbered from here on.
pub(crate) fn names_from(
    alloc: Global,
    tree: &Module<Parsed>,
    first: usize,
) -> Result<NameTables, Memory>
    requires { first + length tree.now.declarations.items < 2 ^ 32 }
    ensures { IfOk result (λ names. names ≡ tables_from first (says parsed tree.now).declarations) }
{
    let names = NameTables::of(alloc, tree, first as u32)?;
    Ok(names)
}

/// No names.
pub fn no_names(alloc: Global) -> NameTables
    ensures { (first : ℕ) → result ≡ tables_from first [] }
{
    let values = Table::new(alloc);
    let callables = Table::new(alloc);
    let types = Table::new(alloc);
    NameTables {
        values,
        callables,
        types,
    }
}

/// The names that the interface of the module at a place offers.
fn offered(alloc: Global, modules: &Modules, place: usize) -> Result<NameTables, Memory>
    requires { place < length (slots.modules modules.now) }
    ensures { IfOk result
        (λ names. option_map offers (slice_get (slots.modules modules.now) place) ≡ Some names) }
{
    match modules.interface(place) {
        None => Ok(no_names(alloc)),
        Some(file) => {
            let tree = tree_of(file);
            let names = names_from(alloc, tree, 0)?;
            Ok(names)
        }
    }
}

/// The places of the modules, by their names.
fn places_by_name(alloc: Global, modules: &Modules) -> Result<Table<u16>, Memory>
    ensures { IfOk result (λ places. places ≡ with_all [] (places_from 0 (slots.modules modules.now))) }
{
    let mut places = Table::new(alloc);
    for place in 0..modules.len() {
        places.put(modules.name(place).as_bytes(), place as u16)?;
    }
    Ok(places)
}

/// The names that each interface offers, by the place of its module.
fn interfaces(alloc: Global, modules: &Modules) -> Result<Vec<NameTables>, Memory>
    ensures { IfOk result (λ interfaces. interfaces.items ≡ map offers (slots.modules modules.now)) }
{
    let mut interfaces = Vec::new(alloc);
    for place in 0..modules.len() {
        let names = offered(alloc, modules, place)?;
        interfaces.push(names)?;
    }
    Ok(interfaces)
}

/// What the interfaces of a program offer, by name.
///
/// # Errors
///
/// Only for want of memory.
pub fn exports_of(alloc: Global, modules: &Modules) -> Result<Exports, Memory>
    ensures { IfOk result (λ exports. AreExports exports (slots.modules modules.now)) }
{
    let places = places_by_name(alloc, modules)?;
    match interfaces(alloc, modules) {
        Ok(interfaces) => Ok(Exports { places, interfaces }),
        Err(fault) => Err(fault),
    }
}

/// The names of a space that the interface of the module at a place offers.
pub fn offered_names(exports: &Exports, place: usize, space: Space) -> &Table<u32>
    requires { place < length exports.now.interfaces.items }
    ensures { (program : List ModuleParts) (m : ModuleParts) → AreExports exports.now program
        → slice_get program place ≡ Some m → result.now ≡ table_of space (interface_of m) }
{
    let names = &exports.interfaces[place];
    in_space(names, space)
}
