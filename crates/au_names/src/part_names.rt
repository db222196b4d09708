//! The tables of names.

ghost use Rattle.std.specs.Prelude.{◌≡◌, [], IfOk};
ghost use Rattle.au_names.specs.Meanings.{declared_by};
ghost use Rattle.au_types.specs.Tables.{with_all};

use crate::targets::Target;
use au_base::Memory;
use au_types::{DeclAt, Table};
use std::alloc::Global;

/// What names mean in a part of a module, by spaces. A value or a type is declared under its own name
/// alone; a callable may be a case or a method, so that its name there is kept beside its declaration.
#[derive(Drop)]
pub struct PartNames {
    /// The values.
    pub values: Table<DeclAt>,
    /// The callables.
    pub callables: Table<Target>,
    /// The types.
    pub types: Table<DeclAt>,
}

/// The declarations alone.
///
/// # Errors
///
/// Only for want of memory.
pub(crate) fn declarations(alloc: Global, table: &Table<Target>) -> Result<Table<DeclAt>, Memory>
    ensures { IfOk result (λ places. places ≡ with_all [] (declared_by table.now)) }
{
    let mut places = Table::new(alloc);
    for index in 0..table.len() {
        let (name, target) = table.at(index);
        places.put(name, target.at)?;
    }
    Ok(places)
}
