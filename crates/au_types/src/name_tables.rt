//! The tables of the names that a file's declarations bring in.

ghost use Rattle.std.specs.Prelude.{◌≡◌, ◌+◌, ◌^◌, ◌≤◌, List, length, map, IfOk};
ghost use Rattle.au_syntax.specs.Files.{says};
ghost use Rattle.au_syntax.specs.Plain.{plain_declaration};
ghost use Rattle.au_syntax.specs.Views.{declaration};
ghost use Rattle.au_types.specs.DeclaredNames.{numbered, table_of};

use crate::declared_names::put_declared;
use crate::spaces::Space;
use crate::tables::Table;
use au_base::Memory;
use au_syntax::{Decl, Module, Phase};
use std::alloc::Global;

/// The names that the declarations of a file bring in, by spaces, each with the number of its
/// declaration.
#[derive(Drop)]
pub struct NameTables {
    /// The values.
    pub values: Table<u32>,
    /// The callables.
    pub callables: Table<u32>,
    /// The types.
    pub types: Table<u32>,
}

impl NameTables {
    /// The tables of a file's declarations, numbered in order from the first one's number. Of
    /// declarations of one name in one space the first counts.
    ///
    /// # Errors
    ///
    /// Only for want of memory.
    pub fn of<P: Phase>(alloc: Global, tree: &Module<P>, first: u32) -> Result<NameTables, Memory>
        requires { first + length tree.now.declarations.items ≤ 2 ^ 32 }
        ensures values { IfOk result (λ tables. tables.values
            ≡ table_of Space.Values (numbered first (says P.Phase tree.now).declarations)) }
        ensures callables { IfOk result (λ tables. tables.callables
            ≡ table_of Space.Callables (numbered first (says P.Phase tree.now).declarations)) }
        ensures types { IfOk result (λ tables. tables.types
            ≡ table_of Space.Types (numbered first (says P.Phase tree.now).declarations)) }
    {
        let values = table_of_space(alloc, Space::Values, &tree.declarations, first)?;
        let callables = table_of_space(alloc, Space::Callables, &tree.declarations, first)?;
        let types = table_of_space(alloc, Space::Types, &tree.declarations, first)?;
        Ok(NameTables {
            values,
            callables,
            types,
        })
    }
}

/// The table of one space.
fn table_of_space<P: Phase>(
    alloc: Global,
    space: Space,
    decls: &Vec<Decl<P>>,
    first: u32,
) -> Result<Table<u32>, Memory>
    requires { first + length decls.now.items ≤ 2 ^ 32 }
    ensures { IfOk result (λ table. table
        ≡ table_of space (numbered first (map (plain_declaration P.name_bytes)
        (map (declaration P.Phase) decls.now.items)))) }
{
    let mut table = Table::new(alloc);
    for (place, one) in decls.iter().enumerate() {
        put_declared(&mut table, space, one, first + place as u32)?;
    }
    Ok(table)
}
