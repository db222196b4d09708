//! Places by name.

ghost use Rattle.std.specs.Prelude.{◌≡◌, List, ℕ, [], IsSome, OnErr, OnOk};
ghost use Rattle.au_typing.specs.Places.{place_in, placed};
ghost use Rattle.au_types.specs.Tables.{find};

use au_base::Memory;
use indexmap::IndexMap;
use std::alloc::Global;
use std::marker::Model;

/// A place for each name, or none. It is found without a walk through the names. Contracts see the names that
/// ever had a place, each with the place that it has.
#[derive(Drop)]
pub struct Places {
    entries: IndexMap<Vec<u8>, Option<usize>>,
}

impl Model for Places {
    ghost use Rattle.std.specs.Prelude.{List, Option, ℕ};
    ghost use Rattle.au_types.specs.Tables.{pairs_by};

    ghost Value = { List (List ℕ × Option ℕ) };

    ghost view = { λ p. pairs_by p.entries.entries (λ k. k.items) };
}

impl Places {
    /// No name has a place.
    pub fn new(alloc: Global) -> Places
        ensures { result ≡ [] }
    {
        Places {
            entries: IndexMap::new(alloc),
        }
    }

    /// The place of a name, if it has one.
    pub fn get(&self, name: &[u8]) -> Option<usize>
        ensures { result ≡ place_in name.now self.now }
    {
        match self.entries.get(name) {
            Some(place) => *place,
            None => None,
        }
    }

    /// Makes room for the place of a name.
    ///
    /// # Errors
    ///
    /// Only for want of memory; nothing changes then.
    pub fn make_room(&mut self, name: &[u8]) -> Result<(), Memory>
        ensures room { OnOk result (IsSome (find name.now self.new)) }
        ensures same { OnOk result ((other : List ℕ) → place_in other self.new ≡ place_in other self.old) }
        ensures err { OnErr result (self.new ≡ self.old) }
    {
        if self.entries.contains_key(name) {
            return Ok(());
        }
        let key = Vec::from_slice(*self.entries.allocator(), name)?;
        self.entries.insert(key, None)?;
        Ok(())
    }

    /// Gives a name this place, or none. There is room for it.
    pub fn set(&mut self, name: &[u8], place: Option<usize>)
        requires { IsSome (find name.now self.old) }
        ensures { (other : List ℕ) → place_in other self.new
            ≡ placed name.now place (λ one. place_in one self.old) other }
    {
        if let Some(kept) = self.entries.get_mut(name) {
            *kept = place;
        }
    }
}
