//! What the imports of a part bring, by name.

ghost use Rattle.std.specs.Prelude.{◌≡◌, ◌<◌, IfOk, length};
ghost use Rattle.au_modules.specs.Programs.{ModuleParts};
ghost use Rattle.au_modules.specs.Seen.{tree_seen};
ghost use Rattle.au_modules.specs.Slots as slots;
ghost use Rattle.au_imports.specs.Gathered.{AreBrought, brought_in};
ghost use Rattle.au_names.specs.Exporting.{AreExports, imports_seen};
ghost use Rattle.au_names.specs.Importing.{imported};
ghost use Rattle.au_types.specs.Tables.{firsts};
ghost use Rattle.au_imports.specs.Written.{IsAt};

use au_base::Memory;
use au_modules::Modules;
use au_names::exports::Source;
use au_names::imports::put_imported;
use au_names::{Exports, Target};
use au_syntax::{Parsed, Part, Whole};
use au_types::{Space, Table};
use std::alloc::Global;

/// What the imports of a part bring, by spaces: the first that each name is given.
#[derive(Drop)]
pub struct Brought {
    /// The values.
    pub values: Table<Target>,
    /// The callables.
    pub callables: Table<Target>,
    /// The types.
    pub types: Table<Target>,
}

/// What the imports of a file of the module at a place bring into a space, if there is one.
fn table_brought(
    alloc: Global,
    modules: &Modules,
    exports: &Exports,
    space: Space,
    place: usize,
    file: Option<&Whole<Parsed>>,
) -> Result<Table<Target>, Memory>
    requires within { place < length (slots.modules modules.now) }
    requires made { AreExports exports.now (slots.modules modules.now) }
    ensures { IfOk result (λ table. table
        ≡ firsts (imported space (slots.modules modules.now) place (imports_seen (tree_seen file.entry)))) }
{
    let mut table = Table::new(alloc);
    let source = Source { modules, exports };
    put_imported(alloc, &mut table, &source, space, place, file)?;
    Ok(table)
}

/// What the imports of a part of the module at a place bring.
///
/// # Errors
///
/// Only for want of memory.
pub fn brought_to(
    alloc: Global,
    modules: &Modules,
    exports: &Exports,
    place: usize,
    part: Part,
) -> Result<Brought, Memory>
    requires within { place < length (slots.modules modules.now) }
    requires made { AreExports exports.now (slots.modules modules.now) }
    ensures { (m : ModuleParts) → IsAt modules.now place m
        → IfOk result (λ brought. AreBrought (slots.modules modules.now) place m part brought) }
{
    let file = modules.part(place, part);
    let values = table_brought(alloc, modules, exports, Space::Values, place, file)?;
    let callables = table_brought(alloc, modules, exports, Space::Callables, place, file)?;
    let types = table_brought(alloc, modules, exports, Space::Types, place, file)?;
    Ok(Brought {
        values,
        callables,
        types,
    })
}

/// The table of a space of what imports bring.
pub(crate) fn brought_in(brought: &Brought, space: Space) -> &Table<Target>
    ensures { result.now ≡ brought_in space brought.now }
{
    match space {
        Space::Values => &brought.values,
        Space::Callables => &brought.callables,
        Space::Types => &brought.types,
    }
}
