//! Tables by name.

ghost use Rattle.std.specs.Prelude.{◌≡◌, ◌+◌, [], length, None, Some, is_some, IfSome, IfNone, OnOk};
ghost use Rattle.std.specs.Prelude.{if◌then◌else◌};
ghost use Rattle.std.specs.Option.{option_copied};
ghost use Rattle.au_clearing.specs.Tables.{find, Changes};

use au_base::Memory;
use indexmap::IndexMap;
use std::alloc::Global;
use std::marker::Model;

/// Values by name, seen by contracts as the list of the names and their values. A value is found without a
/// walk through the list.
#[derive(Drop)]
pub struct Table<V> {
    entries: IndexMap<Vec<u8>, V>,
}

impl<V> Model for Table<V> {
    ghost use Rattle.std.specs.Prelude.{List, ℕ};
    ghost use Rattle.std.specs.Coded.{coded_list, coded×, coded_ℕ};
    ghost use Rattle.au_clearing.specs.Tables.{pairs_by};

    ghost Value = { List (List ℕ × V) };

    ghost coded = { coded_list (coded× (coded_list coded_ℕ) V.code) };

    ghost view = { λ t. pairs_by t.entries.entries (λ k. k.items) };
}

impl<V: Drop> Table<V> {
    /// The table without names.
    pub fn new(alloc: Global) -> Table<V>
        ensures { result ≡ [] }
    {
        Table {
            entries: IndexMap::new(alloc),
        }
    }

    /// The value of a name, if it has one.
    pub fn get(&self, name: &[u8]) -> Option<&V>
        ensures { option_copied result ≡ find name.now self.now }
    {
        self.entries.get(name)
    }

    /// Puts a value under a name, in place of the one that the name has.
    ///
    /// # Errors
    ///
    /// Only for want of memory.
    pub fn put(&mut self, name: Vec<u8>, value: V) -> Result<(), Memory>
        ensures { OnOk result (Changes self.old self.new name.items (Some value)) }
    {
        self.entries.insert(name, value)?;
        Ok(())
    }

    /// Takes out what a name has.
    pub fn remove(&mut self, name: &[u8])
        ensures { Changes self.old self.new name.now None }
    {
        let _value = self.entries.swap_remove(name);
    }

    /// Takes out some name with its value, if there is one.
    pub fn pop(&mut self) -> Option<(Vec<u8>, V)>
        ensures none { IfNone result (self.old ≡ []) }
        ensures found { IfSome result (λ p. find p.0.items self.old ≡ Some p.1) }
        ensures changes { IfSome result (λ p. Changes self.old self.new p.0.items None) }
        ensures len { length self.new + (if is_some result then 1 else 0) ≡ length self.old }
    {
        self.entries.pop()
    }
}
