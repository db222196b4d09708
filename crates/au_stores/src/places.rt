//! Places, and what they hold.

ghost use Rattle.std.specs.Prelude.{◌≡◌, ◌<◌, [], nat_lt, IsNone, IsFalse, IfOk, OnOk};
ghost use Rattle.std.specs.Option.{option_map, option_copied};
ghost use Rattle.au_effects.specs.Values.{content_of};
ghost use Rattle.au_effects.specs.Places as effect;
ghost use Rattle.au_effects.specs.References.{place_along};
ghost use Rattle.au_cells.specs.Cells.{low, base_of, place_of};
ghost use Rattle.au_stores.specs.Stores.{world_of, top_frame, slot_place, slot_count, put_through, came_out};
ghost use Rattle.au_stores.specs.Stores.{done_in};

use crate::slots::held_value;
use crate::worlds::World;
use au_base::{Memory, Sequence};
use au_cells::forms::reference_in;
use au_cells::paths::{part, replace};
use au_cells::{Borrowed, Cell, Start};
use std::alloc::Global;

impl World {
    /// What a slot of the frame of a number holds.
    fn name(&self, frame: usize, slot: u32) -> Option<&Cell>
        ensures { option_map low (option_copied result) ≡ effect.name_at frame slot (world_of self.now) }
    {
        let depth = self.slots.depth();
        if frame == depth {
            return self.in_slot(slot);
        }
        if depth < frame {
            return None;
        }
        match self.slots.below(depth - 1 - frame) {
            Some(slots) => held_value(slots, slot),
            None => None,
        }
    }

    fn base(&self, start: Start) -> Option<&Cell>
        ensures { option_map low (option_copied result)
            ≡ effect.base_at (base_of start) (world_of self.now) }
    {
        match start {
            Start::Slot { frame, slot } => self.name(frame, slot),
            Start::Content(id) => self.content(id),
        }
    }

    /// What the place of a reference holds, if it is there.
    pub fn at(&self, one: &Borrowed) -> Option<&Cell>
        ensures { option_map low (option_copied result)
            ≡ effect.at (place_of one.now) (world_of self.now) }
    {
        part(self.base(one.start)?, one.path.as_slice())
    }

    /// What a place behind that of a reference holds, if it is there.
    pub fn at_behind(&self, one: &Borrowed, path: &[u32]) -> Option<&Cell>
        ensures { option_map low (option_copied result)
            ≡ effect.at (place_along (place_of one.now) path.now) (world_of self.now) }
    {
        part(self.at(one)?, path)
    }

    /// Puts a value into the part of a slot or of the content of a box, and gives what was there. Where the
    /// part isn't there, nothing changes, and the new value is gone.
    pub fn exchange(&mut self, start: Start, path: &[u32], new: Cell) -> Option<Cell>
        ensures world { came_out result self.new
            ≡ effect.exchanged (record { base = base_of start; path = path.now }) (low new)
            (world_of self.old) }
        ensures kept { IsNone result → world_of self.new ≡ world_of self.old }
        ensures frame { top_frame self.new ≡ top_frame self.old }
    {
        match start {
            Start::Slot { frame, slot } => self.exchange_in_slot(frame, slot, path, new),
            Start::Content(id) => self.exchange_in_box(id, path, new),
        }
    }

    /// Puts a value into a part of a slot of the running frame. Where the part isn't there, nothing changes.
    pub fn put_part(&mut self, slot: u32, path: &[u32], new: Cell) -> Option<Cell>
        ensures world { came_out result self.new
            ≡ effect.exchanged (slot_place (top_frame self.old) slot path.now) (low new) (world_of self.old) }
        ensures kept { IsNone result → world_of self.new ≡ world_of self.old }
        ensures frame { top_frame self.new ≡ top_frame self.old }
    {
        let frame = self.slots.depth();
        self.exchange_in_slot(frame, slot, path, new)
    }

    /// Puts a value into a part of what the reference in a slot of the running frame reaches, which is a use
    /// of it. Where there is no such reference or part, nothing changes.
    ///
    /// # Errors
    ///
    /// `Memory` when memory runs out.
    pub fn put_behind(
        &mut self,
        alloc: Global,
        slot: u32,
        path: &[u32],
        new: Cell,
    ) -> Result<bool, Memory>
        ensures world { IfOk result (λ done. done_in done self.new
            ≡ put_through (top_frame self.old) slot path.now (low new) (world_of self.old)) }
        ensures kept { IfOk result (λ done. IsFalse done → world_of self.new ≡ world_of self.old) }
        ensures frame { OnOk result (top_frame self.new ≡ top_frame self.old) }
    {
        let Some(cell) = self.in_slot(slot) else {
            return Ok(false);
        };
        let Some(one) = reference_in(cell) else {
            return Ok(false);
        };
        let Borrowed {
            borrow,
            start,
            path,
        } = longer(alloc, one, path)?;
        match self.exchange(start, path.as_slice(), new) {
            None => Ok(false),
            Some(_old) => {
                self.tell_use(borrow)?;
                Ok(true)
            }
        }
    }

    /// Whether the frame of a number has a slot.
    fn has_name(&self, frame: usize, slot: u32) -> bool
        ensures { result ≡ nat_lt slot (slot_count frame (world_of self.now)) }
    {
        let depth = self.slots.depth();
        if frame == depth {
            return self.has_slot(slot);
        }
        if depth < frame {
            return false;
        }
        match self.slots.below(depth - 1 - frame) {
            Some(slots) => (slot as usize) < slots.len(),
            None => false,
        }
    }

    /// Puts a value into a slot of the frame of a number, or empties it.
    fn set_name(&mut self, frame: usize, slot: u32, held_value: Option<Cell>) -> Option<Cell>
        requires { slot < slot_count frame (world_of self.old) }
        ensures world { world_of self.new
            ≡ effect.name_set frame slot (option_map low held_value) (world_of self.old) }
        ensures old { option_map low result ≡ effect.name_at frame slot (world_of self.old) }
        ensures frame { top_frame self.new ≡ top_frame self.old }
    {
        let depth = self.slots.depth();
        if frame == depth {
            return self.set_slot(slot, held_value);
        }
        self.slots
            .put_below(depth - 1 - frame, slot as usize, held_value)
    }

    fn exchange_in_slot(&mut self, frame: usize, slot: u32, path: &[u32], new: Cell) -> Option<Cell>
        ensures world { came_out result self.new
            ≡ effect.exchanged (slot_place frame slot path.now) (low new) (world_of self.old) }
        ensures kept { IsNone result → world_of self.new ≡ world_of self.old }
        ensures frame { top_frame self.new ≡ top_frame self.old }
    {
        if !self.has_name(frame, slot) {
            return None;
        }
        let mut base = self.set_name(frame, slot, None)?;
        let old = replace(&mut base, path, new);
        self.set_name(frame, slot, Some(base));
        old
    }

    fn exchange_in_box(&mut self, id: u64, path: &[u32], new: Cell) -> Option<Cell>
        ensures world { came_out result self.new
            ≡ effect.exchanged (record { base = content_of id; path = path.now }) (low new)
            (world_of self.old) }
        ensures kept { IsNone result → world_of self.new ≡ world_of self.old }
        ensures frame { top_frame self.new ≡ top_frame self.old }
    {
        self.births.exchange_content(id, path, new)
    }
}

/// A reference of the same borrow, with the longer path.
///
/// # Errors
///
/// `Memory` when memory runs out.
pub fn longer(alloc: Global, one: &Borrowed, path: &[u32]) -> Result<Borrowed, Memory>
    ensures borrow { IfOk result (λ more. more.borrow ≡ one.now.borrow) }
    ensures place { IfOk result (λ more. place_of more ≡ place_along (place_of one.now) path.now) }
{
    let mut both = one.path.as_slice().to_vec(alloc)?;
    both.extend_from_slice(path)?;
    Ok(Borrowed {
        borrow: one.borrow,
        start: one.start,
        path: Sequence::from_vec(both),
    })
}
