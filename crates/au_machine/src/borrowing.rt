//! The instructions that open and close borrows.

ghost use Rattle.std.specs.Prelude.{◌≡◌, ◌<◌, [], if◌then◌else◌, Some, None, IfOk, OnOk};
ghost use Rattle.std.specs.Option.{option_map};
ghost use Rattle.au_effects.specs.Parts.{along};
ghost use Rattle.au_effects.specs.Values.{Place};
ghost use Rattle.au_low.specs.Machines.{goes, onward, pushes, having, where_true, has_slot};
ghost use Rattle.au_low.specs.Instructions.{
  borrowed,
  borrowed_place,
  is_of_slot,
  new_reference,
  reference_in_slot,
  slot_part,
  stores,
  closes_to,
};
ghost use Rattle.au_cells.specs.Cells.{low, base_of};
ghost use Rattle.au_machine.specs.States.{machine_of, turned, most_place, place_in, IsQuiet, came_still};

use crate::states::{State, Turn};
use au_base::{Memory, Sequence};
use au_cells::copying::copy_path;
use au_cells::forms::{make_reference, reference_in};
use au_cells::{Borrowed, Cell, Start};
use au_low::Mode;
use std::alloc::Global;

impl State {
    /// Opens the next borrow, of a place, and gives its reference.
    ///
    /// # Errors
    ///
    /// `Memory` when memory runs out, as in the calls below.
    fn lend(&mut self, alloc: Global, start: Start, path: Sequence<u32>) -> Result<Cell, Memory>
        ensures new { OnOk result (machine_of self.new ≡ borrowed (machine_of self.old)) }
        ensures cell { IfOk result (λ cell. low cell
            ≡ new_reference (record { base = base_of start; path = path }) (machine_of self.old)) }
        ensures place { OnOk result (self.new.place ≡ self.old.place) }
    {
        let borrow = self.world.open()?;
        self.borrows.push(borrow)?;
        let one = Borrowed {
            borrow,
            start,
            path,
        };
        let cell = make_reference(alloc, one)?;
        Ok(cell)
    }

    /// The place of a slot, where the running frame has it.
    fn slot_place(&self, alloc: Global, slot: u32) -> Option<(Start, Sequence<u32>)>
        ensures { option_map place_in result ≡ (if has_slot slot (machine_of self.now)
            then Some (slot_part slot [] (machine_of self.now)) else None) }
    {
        if !self.has(slot) {
            return None;
        }
        let frame = self.world.slots.depth();
        Some((Start::Slot { frame, slot }, Sequence::new(alloc)))
    }

    /// The place of the reference in a slot.
    fn reached_place(
        &self,
        alloc: Global,
        slot: u32,
    ) -> Result<Option<(Start, Sequence<u32>)>, Memory>
        ensures { IfOk result (λ found. option_map place_in found
            ≡ along (reference_in_slot slot (machine_of self.now)) (λ one. Some one.1)) }
    {
        let Some(cell) = self.held_value(slot) else {
            return Ok(None);
        };
        let Some(one) = reference_in(cell) else {
            return Ok(None);
        };
        let path = copy_path(alloc, one.path.as_slice())?;
        Ok(Some((one.start, path)))
    }

    /// The place that a borrow of a slot is of.
    fn place_at(
        &self,
        alloc: Global,
        mode: Mode,
        slot: u32,
    ) -> Result<Option<(Start, Sequence<u32>)>, Memory>
        ensures { IfOk result (λ found. option_map place_in found
            ≡ borrowed_place mode slot (machine_of self.now)) }
    {
        match mode {
            Mode::Read => Ok(self.slot_place(alloc, slot)),
            Mode::Write => Ok(self.slot_place(alloc, slot)),
            Mode::Again => self.reached_place(alloc, slot),
        }
    }

    /// Borrows a slot, and pushes the reference.
    #[inline(never)]
    pub fn borrow(&mut self, alloc: Global, mode: Mode, slot: u32) -> Result<Turn, Memory>
        requires { self.now.place < most_place }
        ensures is { IfOk result (λ turn. turned turn self.new
            ≡ having (borrowed_place mode slot (machine_of self.old))
            (λ place. pushes (new_reference place (machine_of self.old)) (borrowed (machine_of self.old)))) }
        ensures quiet { IsQuiet (came_still result) self.old.world self.new.world }
    {
        let Some((start, path)) = self.place_at(alloc, mode, slot)? else {
            return Ok(Turn::Stuck);
        };
        let cell = self.lend(alloc, start, path)?;
        self.push(cell)
    }

    /// Borrows the slot itself, and pushes the reference.
    #[inline(never)]
    pub fn borrow_slot(&mut self, alloc: Global, slot: u32, mode: Mode) -> Result<Turn, Memory>
        requires { self.now.place < most_place }
        ensures is { IfOk result (λ turn. turned turn self.new
            ≡ where_true (is_of_slot mode) (having (borrowed_place mode slot (machine_of self.old))
            (λ place. pushes (new_reference place (machine_of self.old)) (borrowed (machine_of self.old))))) }
        ensures quiet { IsQuiet (came_still result) self.old.world self.new.world }
    {
        match mode {
            Mode::Read => self.borrow(alloc, Mode::Read, slot),
            Mode::Write => self.borrow(alloc, Mode::Write, slot),
            Mode::Again => Ok(Turn::Stuck),
        }
    }

    /// Borrows a slot, and puts the reference into another.
    #[inline(never)]
    pub fn bind(&mut self, alloc: Global, from: u32, into: u32, mode: Mode) -> Result<Turn, Memory>
        requires { self.now.place < most_place }
        ensures is { IfOk result (λ turn. turned turn self.new
            ≡ having (borrowed_place mode from (machine_of self.old))
            (λ place. stores into (new_reference place (machine_of self.old)) (borrowed
            (machine_of self.old)))) }
        ensures quiet { IsQuiet (came_still result) self.old.world self.new.world }
    {
        let Some((start, path)) = self.place_at(alloc, mode, from)? else {
            return Ok(Turn::Stuck);
        };
        if !self.has(into) {
            return Ok(Turn::Stuck);
        }
        let cell = self.lend(alloc, start, path)?;
        Ok(self.store(into, cell))
    }

    /// Closes borrows of the frame, the newest first, until so many are open.
    #[inline(never)]
    pub fn close(&mut self, count: u32) -> Result<Turn, Memory>
        requires { self.now.place < most_place }
        ensures is { IfOk result (λ turn. turned turn self.new
            ≡ goes (onward (closes_to count (machine_of self.old)))) }
        ensures quiet { IsQuiet (came_still result) self.old.world self.new.world }
    {
        self.world.close_to(&mut self.borrows, count as usize)?;
        Ok(self.go())
    }
}
