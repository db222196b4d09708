//! What the interfaces of a program offer.

ghost use Rattle.std.specs.Prelude.{◌≡◌, ◌<◌, ◌^◌, IfOk, Some, length, map, reverse, slice_get};
ghost use Rattle.std.specs.Option.{option_map};
ghost use Rattle.au_modules.specs.Slots as slots;
ghost use Rattle.au_imports.specs.Gathered.{AreOffers, last_offers, last_tables};
ghost use Rattle.au_syntax.specs.Views.{declaration};
ghost use Rattle.au_types.specs.DeclaredNames.{numbered, table_of};
ghost use Rattle.au_imports.specs.Written.{all_declared};

use au_base::Memory;
use au_modules::Modules;
use au_names::exports::no_names;
use au_names::{Exports, exports_of};
use au_syntax::{Decl, Parsed};
use au_types::declared_names::put_declared;
use au_types::{NameTables, Space, Table};
use std::alloc::Global;

/// What the interfaces of a program offer, made once.
#[derive(Drop)]
pub struct Offers {
    /// The places of the modules and the names that each interface offers, with the number of the first
    /// declaration of each.
    pub exports: Exports,
    /// The names that each interface offers, with the number of the last declaration of each.
    pub lasts: Vec<NameTables>,
}

/// The table of a space of declarations that are numbered from 0, from the last to the first.
fn last_table(
    alloc: Global,
    space: Space,
    declarations: &Vec<Decl<Parsed>>,
) -> Result<Table<u32>, Memory>
    requires { length declarations.now.items < 2 ^ 32 }
    ensures { IfOk result (λ table. table ≡ table_of space
        (reverse (numbered 0 (all_declared declarations.now.items)))) }
{
    let mut table = Table::new(alloc);
    let mut left = declarations.len();
    while left > 0 {
        left -= 1;
        put_declared(&mut table, space, &declarations[left], left as u32)?;
    }
    Ok(table)
}

/// The tables of declarations that are numbered from 0, from the last to the first.
fn tables_back(alloc: Global, declarations: &Vec<Decl<Parsed>>) -> Result<NameTables, Memory>
    requires { length declarations.now.items < 2 ^ 32 }
    ensures { IfOk result (λ names. names ≡ last_tables (all_declared declarations.now.items)) }
{
    let values = last_table(alloc, Space::Values, declarations)?;
    let callables = last_table(alloc, Space::Callables, declarations)?;
    let types = last_table(alloc, Space::Types, declarations)?;
    Ok(NameTables {
        values,
        callables,
        types,
    })
}

/// The names that the interface of the module at a place offers, each with the number of its last
/// declaration.
fn last_offered(alloc: Global, modules: &Modules, place: usize) -> Result<NameTables, Memory>
    requires { place < length (slots.modules modules.now) }
    ensures { IfOk result (λ names. option_map last_offers (slice_get (slots.modules modules.now) place)
        ≡ Some names) }
{
    match modules.interface(place) {
        None => Ok(no_names(alloc)),
        Some(file) => {
            let tree = file.tree();
            let names = tables_back(alloc, &tree.declarations)?;
            Ok(names)
        }
    }
}

/// The names that each interface offers, each with the number of its last declaration, by the place of the
/// module.
fn all_lasts(alloc: Global, modules: &Modules) -> Result<Vec<NameTables>, Memory>
    ensures { IfOk result (λ lasts. lasts.items ≡ map last_offers (slots.modules modules.now)) }
{
    let mut lasts = Vec::new(alloc);
    for place in 0..modules.len() {
        let names = last_offered(alloc, modules, place)?;
        lasts.push(names)?;
    }
    Ok(lasts)
}

/// What the interfaces of a program offer.
///
/// # Errors
///
/// Only for want of memory.
pub fn offers_of(alloc: Global, modules: &Modules) -> Result<Offers, Memory>
    ensures { IfOk result (λ offers. AreOffers (slots.modules modules.now) offers) }
{
    let exports = exports_of(alloc, modules)?;
    let lasts = all_lasts(alloc, modules)?;
    Ok(Offers { exports, lasts })
}
