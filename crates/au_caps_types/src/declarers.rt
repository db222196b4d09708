//! The first row that declares each type.

ghost use Rattle.std.specs.Prelude.{◌≡◌, IfOk, OnOk, []};
ghost use Rattle.std.specs.Option.{option_or};
ghost use Rattle.au_formed.specs.Graphs.{declarer, index_at};
ghost use Rattle.au_imports.specs.Choices.{where_so};
ghost use Rattle.au_types.specs.declared.types.DeclAt.{DeclAt};
ghost use Rattle.au_types.specs.Rows.{same_place};

use au_base::Memory;
use au_formed::Naming;
use au_types::DeclAt;
use indexmap::IndexMap;
use std::alloc::Global;
use std::marker::Model;

/// The index of the first row that declares each type, seen by contracts as the list of these
/// types with their indices.
#[derive(Drop)]
pub(crate) struct Declarers {
    indices: IndexMap<DeclAt, usize>,
}

impl Model for Declarers {
    ghost use Rattle.std.specs.Prelude.{List, ℕ};
    ghost use Rattle.au_types.specs.declared.types.DeclAt.{DeclAt};

    ghost Value = { List (DeclAt × ℕ) };

    ghost view = { λ d. d.indices.entries };
}

impl Declarers {
    /// No type.
    pub(crate) fn new(alloc: Global) -> Declarers
        ensures { result ≡ [] }
    {
        Declarers {
            indices: IndexMap::new(alloc),
        }
    }

    /// Puts the index of what declares a type, unless the type has one.
    pub(crate) fn put(&mut self, at: DeclAt, index: usize) -> Result<(), Memory>
        ensures { (a : DeclAt)
            → OnOk result (index_at self.new a
            ≡ option_or (index_at self.old a) (where_so (same_place a at) index)) }
    {
        if self.indices.contains_key(&at) {
            return Ok(());
        }
        self.indices.insert(at, index)?;
        Ok(())
    }

    /// The index of what declares a type first.
    pub(crate) fn get(&self, at: DeclAt) -> Option<usize>
        ensures { result ≡ index_at self.now at }
    {
        self.indices.get(&at).copied()
    }
}

/// The first row that declares each type.
pub(crate) fn first_declarers(alloc: Global, namings: &Vec<Naming>) -> Result<Declarers, Memory>
    ensures { (a : DeclAt) → IfOk result (λ table. index_at table a ≡ declarer namings.now.items a) }
{
    let mut table = Declarers::new(alloc);
    for (index, one) in namings.iter().enumerate() {
        table.put(one.of, index)?;
    }
    Ok(table)
}
