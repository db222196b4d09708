//! Names in scope.

ghost use Rattle.std.specs.Prelude.{◌≡◌, [], IfOk, OnErr, OnOk, not};
ghost use Rattle.std.specs.Option.{option_copied};
ghost use Rattle.au_rules.specs.Nests.{entered, left, with_name};
ghost use Rattle.au_types.specs.Tables.{find, has_name};

use au_base::Memory;
use indexmap::IndexMap;
use std::alloc::Global;
use std::marker::Model;

/// Names in scope with their values, in blocks that lie in one another. A name is found without a walk
/// through the blocks. Contracts see the names with their values in the order in which they came, and where
/// each open block begins among them, the innermost first.
#[derive(Drop)]
pub struct Nest<V> {
    entries: IndexMap<Vec<u8>, V>,
    begins: Vec<usize>,
}

impl<V> Model for Nest<V> {
    ghost use Rattle.std.specs.Prelude.{List, ℕ, reverse};
    ghost use Rattle.au_types.specs.Tables.{pairs_by};

    ghost Value = { List (List ℕ × V) × List ℕ };

    ghost view = { λ n. (pairs_by n.entries.entries (λ k. k.items), reverse n.begins.items) };
}

impl<V: Drop> Nest<V> {
    /// No names and no block.
    pub fn new(alloc: Global) -> Nest<V>
        ensures { result ≡ ([], []) }
    {
        Nest {
            entries: IndexMap::new(alloc),
            begins: Vec::new(alloc),
        }
    }

    /// Enters a block, which is the innermost then.
    ///
    /// # Errors
    ///
    /// Only for want of memory; nothing changes then.
    pub fn enter(&mut self) -> Result<(), Memory>
        ensures ok { OnOk result (self.new ≡ entered self.old) }
        ensures err { OnErr result (self.new ≡ self.old) }
    {
        self.begins.push(self.entries.len())?;
        Ok(())
    }

    /// Leaves the innermost block: the names that were put since it was entered aren't in scope any more.
    /// Where there is no block, no name is left.
    pub fn leave(&mut self)
        ensures { self.new ≡ left self.old }
    {
        match self.begins.pop() {
            None => self.entries.truncate(0),
            Some(begin) => self.entries.truncate(begin),
        }
    }

    /// Puts a value under a name, unless the name is in scope. Answers whether it wasn't.
    ///
    /// # Errors
    ///
    /// Only for want of memory; nothing changes then.
    pub fn put(&mut self, name: &[u8], value: V) -> Result<bool, Memory>
        ensures fresh { IfOk result (λ fresh. fresh ≡ not (has_name name.now self.old.0)) }
        ensures ok { OnOk result (self.new ≡ with_name name.now value self.old) }
        ensures err { OnErr result (self.new ≡ self.old) }
    {
        if self.entries.contains_key(name) {
            return Ok(false);
        }
        let key = Vec::from_slice(*self.entries.allocator(), name)?;
        self.entries.insert(key, value)?;
        Ok(true)
    }

    /// The value of a name, if it is in scope.
    pub fn get(&self, name: &[u8]) -> Option<&V>
        ensures { option_copied result ≡ find name.now self.now.0 }
    {
        self.entries.get(name)
    }
}
