//! What is kept of births.

ghost use Rattle.std.specs.Prelude.{◌≡◌, ℕ, ◌∷◌, ◌++◌, [], Some, nat_eq, map, length, is_some, slice_get};
ghost use Rattle.std.specs.Prelude.{slice_set};
ghost use Rattle.std.specs.Prelude.{if◌then◌else◌, IfSome, IfOk, OnOk};
ghost use Rattle.std.specs.Option.{option_map, option_copied};
ghost use Rattle.indexmap.specs.IndexMap.{get};
ghost use Rattle.au_effects.specs.Parts.{along, part};
ghost use Rattle.au_effects.specs.Worlds as effect;
ghost use Rattle.au_effects.specs.Places.{content_in};
ghost use Rattle.au_effects.specs.Calls.{elements_in};
ghost use Rattle.au_cells.specs.Cells.{low};
ghost use Rattle.au_stores.specs.Births.{kept_with, or_nothing, there, StandsAt};
ghost use Rattle.au_stores.specs.Stores.{held_of, cells_of, content_of_birth, with_content_part};

use crate::worlds::Held;
use au_base::Memory;
use au_cells::Cell;
use au_cells::paths::replace;
use indexmap::IndexMap;
use std::alloc::Global;
use std::marker::Model;
use std::mem;

/// What there is of each birth, seen by contracts as a list in the order of births. What boxes and buffers
/// hold takes memory, as long as they are there, and no other birth does.
#[derive(Drop)]
pub struct Births {
    count: u64,
    kept: IndexMap<u64, Held>,
}

impl Model for Births {
    ghost use Rattle.std.specs.Prelude.{List, nat_eq};
    ghost use Rattle.indexmap.specs.IndexMap.{get};
    ghost use Rattle.au_stores.specs.declared.worlds.Held.{Held};
    ghost use Rattle.std.specs.Coded.{coded_list};
    ghost use Rattle.au_stores.specs.contracts.worlds.Held as held;

    ghost Value = { List Held };

    ghost coded = { coded_list held.the_row.coded };

    ghost use Rattle.au_stores.specs.Births.{listed, IsOfBirths};

    ghost view = { λ b. listed b.count (get nat_eq b.kept) };

    ghost invariant = { λ b. IsOfBirths b.count (get nat_eq b.kept) };
}

impl Births {
    /// No birth.
    pub fn new(alloc: Global) -> Births
        ensures { result ≡ [] }
    {
        Births {
            count: 0,
            kept: IndexMap::new(alloc),
        }
    }

    /// How many births there were.
    pub fn count(&self) -> u64
        ensures { result ≡ length self.now }
    {
        self.count
    }

    /// Adds a birth.
    ///
    /// # Errors
    ///
    /// `Memory` when memory runs out, or the numbers of births do.
    pub fn push(&mut self, birth_held: Held) -> Result<(), Memory>
        ensures { OnOk result (self.new ≡ self.old ++ birth_held ∷ []) }
    {
        let id = self.count;
        self.count = id.checked_add(1).ok_or(Memory)?;
        match birth_held {
            Held::Nothing => Ok(()),
            other => {
                self.kept.insert(id, other)?;
                Ok(())
            }
        }
    }

    /// What there is of a birth, and none where that is nothing.
    pub fn get(&self, id: u64) -> Option<&Held>
        ensures { there self.now id ≡ or_nothing (option_copied result) }
    {
        let newest = self.kept.len().saturating_sub(1);
        match self.kept.get_index(newest) {
            Some((one, birth_held)) if *one == id => Some(birth_held),
            _ => self.kept.get(&id),
        }
    }

    /// Puts what there is of a birth, if it is there.
    ///
    /// # Errors
    ///
    /// `Memory` when memory runs out.
    pub(crate) fn put(&mut self, id: u64, birth_held: Held) -> Result<(), Memory>
        ensures { OnOk result (map held_of self.new ≡ slice_set (map held_of self.old) id
            (held_of birth_held)) }
    {
        if self.count <= id {
            return Ok(());
        }
        if let Some(place) = newest_of(&self.kept, id) {
            exchange_at(&mut self.kept, id, place, birth_held);
            return Ok(());
        }
        self.kept.insert(id, birth_held)?;
        Ok(())
    }

    /// Nothing is left of a birth.
    pub(crate) fn end(&mut self, id: u64)
        ensures { map held_of self.new ≡ slice_set (map held_of self.old) id effect.nothing }
    {
        let _ended = self.kept.swap_remove(&id);
    }

    /// Takes the elements of a buffer, of which nothing is left then. Where there are none, nothing changes.
    pub(crate) fn take_elements(&mut self, id: u64) -> Option<Vec<Cell>>
        ensures elements { option_map cells_of result
            ≡ along (slice_get (map held_of self.old) id) elements_in }
        ensures births { map held_of self.new
            ≡ (if is_some result
            then slice_set (map held_of self.old) id effect.nothing
            else map held_of self.old) }
    {
        match exchange(&mut self.kept, id, Held::Nothing)? {
            Held::Elements(cells) => Some(cells),
            other => {
                exchange(&mut self.kept, id, other);
                None
            }
        }
    }

    /// Takes the content of a box, of which nothing is left then. Where there is none, nothing changes.
    pub(crate) fn take_content(&mut self, id: u64) -> Option<Cell>
        ensures content { option_map low result ≡ content_of_birth id (map held_of self.old) }
        ensures births { map held_of self.new
            ≡ (if is_some result
            then slice_set (map held_of self.old) id effect.nothing
            else map held_of self.old) }
    {
        match exchange(&mut self.kept, id, Held::Nothing)? {
            Held::Content(content) => {
                self.end(id);
                Some(content)
            }
            other => {
                exchange(&mut self.kept, id, other);
                None
            }
        }
    }

    /// Puts a value into a part of the content of a box, and gives what was there. Where the part isn't
    /// there, nothing changes, and the new value is gone.
    pub(crate) fn exchange_content(&mut self, id: u64, path: &[u32], new: Cell) -> Option<Cell>
        ensures old { option_map low result
            ≡ along (content_of_birth id (map held_of self.old)) (part path.now) }
        ensures births { map held_of self.new
            ≡ with_content_part id path.now (low new) (content_of_birth id (map held_of self.old))
            (map held_of self.old) }
    {
        match exchange(&mut self.kept, id, Held::Nothing)? {
            Held::Content(mut base) => {
                let old = replace(&mut base, path, new);
                exchange(&mut self.kept, id, Held::Content(base));
                old
            }
            other => {
                exchange(&mut self.kept, id, other);
                None
            }
        }
    }
}

/// The place of the newest of what is kept, if that is of this birth.
#[inline(always)]
fn newest_of(kept: &IndexMap<u64, Held>, id: u64) -> Option<usize>
    ensures { IfSome result (λ place. StandsAt kept.now id place) }
{
    let newest = kept.len().checked_sub(1)?;
    match kept.get_index(newest) {
        Some((one, _held)) if *one == id => Some(newest),
        _ => None,
    }
}

/// Puts something in the place of what is kept of a birth, and gives that.
#[inline(always)]
fn exchange_at(kept: &mut IndexMap<u64, Held>, id: u64, place: usize, birth_held: Held) -> Held
    requires { StandsAt kept.old id place }
    ensures old { Some result ≡ get nat_eq kept.old id }
    ensures new { (other : ℕ) → get nat_eq kept.new other
        ≡ kept_with id (Some birth_held) (get nat_eq kept.old) other }
{
    let (_one, there) = kept.pair_mut(place);
    mem::replace(there, birth_held)
}

/// Puts something in the place of what is kept of a birth, and gives that. Where nothing is, nothing changes.
fn exchange(kept: &mut IndexMap<u64, Held>, id: u64, birth_held: Held) -> Option<Held>
    ensures old { result ≡ get nat_eq kept.old id }
    ensures new { (other : ℕ) → get nat_eq kept.new other
        ≡ kept_with id (option_map (λ _. birth_held) result) (get nat_eq kept.old) other }
{
    if let Some(place) = newest_of(kept, id) {
        return Some(exchange_at(kept, id, place, birth_held));
    }
    let place = kept.get_mut(&id)?;
    Some(mem::replace(place, birth_held))
}
