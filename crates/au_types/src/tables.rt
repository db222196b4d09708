//! Tables by name.

ghost use Rattle.std.specs.Prelude.{◌≡◌, ◌<◌, ◌↔◌, List, [], Bool, not, length, slice_get, nat_eq, Some};
ghost use Rattle.std.specs.Prelude.{IfOk, OnOk, OnErr, IsTrue};
ghost use Rattle.std.specs.Borrow.{Bor};
ghost use Rattle.std.specs.Option.{option_copied};
ghost use Rattle.au_types.specs.Tables.{find, has_name, with_pair};

use au_base::Memory;
use indexmap::IndexMap;
use std::alloc::Global;
use std::marker::Model;

/// Values by name, in the order in which the names were first put, seen by contracts as the list of
/// the names and their values. A value is found without a walk through the list.
#[derive(Drop)]
pub struct Table<V> {
    entries: IndexMap<Vec<u8>, V>,
}

impl<V> Model for Table<V> {
    ghost use Rattle.std.specs.Prelude.{List, ℕ};
    ghost use Rattle.std.specs.Coded.{coded_list, coded×, coded_ℕ};
    ghost use Rattle.au_types.specs.Tables.{pairs_by};

    ghost Value = { List (List ℕ × V) };

    ghost coded = { coded_list (coded× (coded_list coded_ℕ) V.code) };

    ghost view = { λ t. pairs_by t.entries.entries (λ k. k.items) };
}

impl<V: Drop> Table<V> {
    /// The table without names.
    pub fn new(alloc: Global) -> Table<V>
        ensures { result ≡ [] }
    {
        Table {
            entries: IndexMap::new(alloc),
        }
    }

    /// Puts a value under a name, unless the name has one: the first value of a name stays. Answers
    /// whether the name is new.
    ///
    /// # Errors
    ///
    /// Only for want of memory; the table is then as it was.
    pub fn put(&mut self, name: &[u8], value: V) -> Result<bool, Memory>
        ensures fresh { IfOk result (λ fresh. fresh ≡ not (has_name name.now self.old)) }
        ensures pairs { OnOk result (self.new ≡ with_pair self.old name.now value) }
        ensures err { OnErr result (self.new ≡ self.old) }
    {
        if self.entries.contains_key(name) {
            return Ok(false);
        }
        let key = Vec::from_slice(*self.entries.allocator(), name)?;
        self.entries.insert(key, value)?;
        Ok(true)
    }

    /// The value of a name, if it has one.
    pub fn get(&self, name: &[u8]) -> Option<&V>
        ensures { option_copied result ≡ find name.now self.now }
    {
        self.entries.get(name)
    }

    /// The name and the value of a place, counted from 0 in the order of the table. It is the value that
    /// is found under this name.
    pub fn at(&self, index: usize) -> (&[u8], &V)
        requires { index < length self.now }
        ensures pair { slice_get self.now index ≡ Some (result.0.now, result.1.now) }
        ensures found { find result.0.now self.now ≡ Some result.1.now }
    {
        let (name, value) = self.entries.get_index(index).unwrap();
        (name.as_slice(), value)
    }

    /// How many names have a value.
    pub fn len(&self) -> usize
        ensures { result ≡ length self.now }
    {
        self.entries.len()
    }

    /// Whether no name has a value.
    pub fn is_empty(&self) -> bool
        ensures { IsTrue result ↔ (self.now ≡ []) }
    {
        self.entries.is_empty()
    }
}
