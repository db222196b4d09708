//! The slots of the running frame.

ghost use Rattle.std.specs.Prelude.{◌≡◌, ◌<◌, ◌+◌, ◌-◌, ◌++◌, [], length, map, reverse, replicate, nat_lt};
ghost use Rattle.std.specs.Prelude.{slice_get, IsTrue, IsFalse, ◌↔◌, IfOk, OnOk, Some, None};
ghost use Rattle.std.specs.Option.{option_map, option_copied};
ghost use Rattle.au_effects.specs.Parts.{along};
ghost use Rattle.au_effects.specs.Worlds as effect;
ghost use Rattle.au_effects.specs.Places.{at, name_at, name_set};
ghost use Rattle.au_low.specs.Machines.{new_slots};
ghost use Rattle.au_cells.specs.Cells.{low, lows};
ghost use Rattle.au_stores.specs.Stores.{world_of, slots_of, top_frame, slot_place, slot_count, with_frame};
ghost use Rattle.au_stores.specs.Stores.{without_frames, given_slots, filled, done_in, taken};

use crate::cases::Taken;
use crate::worlds::World;
use au_base::Memory;
use au_cells::paths::part;
use au_cells::{Cell, Piles};

#[inline(always)]
fn item(slots: &[Option<Cell>], slot: usize) -> Option<&Option<Cell>>
    ensures { option_copied result ≡ slice_get slots.now slot }
{
    slots.get(slot)
}

/// What a slot of some frame's slots holds.
#[inline(always)]
pub(crate) fn held_value(slots: &[Option<Cell>], slot: u32) -> Option<&Cell>
    ensures { option_map low (option_copied result)
        ≡ along (slice_get (slots_of slots.now) slot) (λ value. value) }
{
    match item(slots, slot as usize) {
        Some(held_value) => held_value.as_ref(),
        None => None,
    }
}

/// Puts values into the first slots of an empty pile. They come last first, and all are taken.
fn fill_given(piles: &mut Piles<Option<Cell>>, values: &mut Vec<Cell>) -> Result<(), Memory>
    requires { piles.old.0 ≡ [] }
    ensures piles { OnOk result (piles.new ≡ (given_slots (reverse values.old.items), piles.old.1)) }
    ensures taken { OnOk result (values.new.items ≡ []) }
{
    while let Some(value) = values.pop() {
        piles.push(Some(value))?;
    }
    Ok(())
}

/// Puts so many empty slots upon a pile.
pub(crate) fn fill_empty(piles: &mut Piles<Option<Cell>>, count: usize) -> Result<(), Memory>
    ensures { OnOk result (piles.new ≡ (piles.old.0 ++ replicate count None, piles.old.1)) }
{
    for _slot in 0..count {
        piles.push(None)?;
    }
    Ok(())
}

impl World {
    /// Whether the running frame has a slot.
    #[inline(always)]
    pub fn has_slot(&self, slot: u32) -> bool
        ensures is { IsTrue result ↔ (slot < length self.now.slots.0) }
        ensures world { result ≡ nat_lt slot (slot_count (top_frame self.now) (world_of self.now)) }
    {
        (slot as usize) < self.slots.top().len()
    }

    /// What a slot of the running frame holds.
    #[inline(always)]
    pub fn in_slot(&self, slot: u32) -> Option<&Cell>
        ensures { option_map low (option_copied result)
            ≡ name_at (top_frame self.now) slot (world_of self.now) }
    {
        held_value(self.slots.top(), slot)
    }

    /// Puts a value into a slot of the running frame, or empties it.
    #[inline(always)]
    pub fn set_slot(&mut self, slot: u32, held_value: Option<Cell>) -> Option<Cell>
        requires { slot < length self.old.slots.0 }
        ensures world { world_of self.new
            ≡ name_set (top_frame self.old) slot (option_map low held_value) (world_of self.old) }
        ensures old { option_map low result ≡ name_at (top_frame self.old) slot (world_of self.old) }
        ensures frame { top_frame self.new ≡ top_frame self.old }
        ensures slots { length self.new.slots.0 ≡ length self.old.slots.0 }
    {
        self.slots.put(slot as usize, held_value)
    }

    /// The part of a slot of the running frame.
    pub fn slot_part(&self, slot: u32, path: &[u32]) -> Option<&Cell>
        ensures { option_map low (option_copied result)
            ≡ at (slot_place (top_frame self.now) slot path.now) (world_of self.now) }
    {
        part(self.in_slot(slot)?, path)
    }

    /// Puts values into slots of the running frame, from one on. Where one of the slots isn't there, nothing
    /// changes, and the values are gone.
    pub fn fill_slots(&mut self, slot: u32, values: Vec<Cell>) -> bool
        ensures world { done_in result self.new
            ≡ filled (top_frame self.old) slot (lows values.items) (world_of self.old) }
        ensures kept { IsFalse result → world_of self.new ≡ world_of self.old }
        ensures frame { top_frame self.new ≡ top_frame self.old }
    {
        let count = values.len();
        if count == 0 {
            return true;
        }
        let from = slot as usize;
        if self.slots.top().len() < from + count {
            return false;
        }
        let mut at = from;
        for value in values {
            self.slots.put(at, Some(value));
            at += 1;
        }
        true
    }

    /// Puts the fields that are taken of a value into slots of the running frame, from one on, and tells how
    /// they are taken. Where one of the slots isn't there, nothing changes.
    ///
    /// # Errors
    ///
    /// `Memory` when memory runs out.
    pub fn take_apart(&mut self, slot: u32, how: Taken, fields: Vec<Cell>) -> Result<bool, Memory>
        ensures world { IfOk result (λ done. done_in done self.new
            ≡ filled (top_frame self.old) slot (lows fields.items) (taken how (world_of self.old))) }
        ensures kept { IfOk result (λ done. IsFalse done → world_of self.new ≡ world_of self.old) }
        ensures frame { OnOk result (top_frame self.new ≡ top_frame self.old) }
    {
        if !self.fill_slots(slot, fields) {
            return Ok(false);
        }
        self.tell_taken(how)?;
        Ok(true)
    }

    /// Begins a frame of so many slots, which is then the running one: the arguments are in the first slots,
    /// and the others are empty. The arguments come last first, as they are popped, and all are taken.
    ///
    /// # Errors
    ///
    /// `Memory` when memory runs out.
    pub fn begin_frame(&mut self, slots: u32, arguments: &mut Vec<Cell>) -> Result<(), Memory>
        ensures world { OnOk result (world_of self.new
            ≡ with_frame (new_slots slots (reverse (lows arguments.old.items))) (world_of self.old)) }
        ensures taken { OnOk result (arguments.new.items ≡ []) }
        ensures frame { OnOk result (top_frame self.new ≡ top_frame self.old + 1) }
    {
        self.slots.begin()?;
        let count = arguments.len();
        fill_given(&mut self.slots, arguments)?;
        fill_empty(&mut self.slots, (slots as usize).saturating_sub(count))?;
        Ok(())
    }

    /// Ends the running frame, and drops what its slots hold.
    pub fn end_frame(&mut self)
        requires { 0 < top_frame self.old }
        ensures world { world_of self.new ≡ without_frames (top_frame self.old) (world_of self.old) }
        ensures frame { top_frame self.new + 1 ≡ top_frame self.old }
    {
        self.slots.end();
    }
}
