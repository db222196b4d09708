//! The instructions on slots.

ghost use Rattle.std.specs.Prelude.{◌≡◌, ◌<◌, IfOk, None};
ghost use Rattle.au_effects.specs.Places.{at};
ghost use Rattle.au_low.specs.Machines.{pushes, popping, having, in_slot, slot_set};
ghost use Rattle.au_low.specs.Instructions.{slot_part, stores, puts};
ghost use Rattle.au_cells.specs.Cells.{low};
ghost use Rattle.au_machine.specs.States.{machine_of, turned, most_place, IsQuiet, came_still, is_still};

use crate::states::{State, Turn};
use au_base::Memory;
use au_cells::Cell;
use au_cells::copying::copy;
use std::alloc::Global;

/// A cell of the same value; the common ones are copied here.
#[inline(always)]
fn copied(alloc: Global, cell: &Cell) -> Result<Cell, Memory>
    ensures { IfOk result (λ copy. low copy ≡ low cell.now) }
{
    match cell {
        Cell::Nat64(n) => Ok(Cell::Nat64(*n)),
        Cell::Index(n) => Ok(Cell::Index(*n)),
        Cell::Int64(n) => Ok(Cell::Int64(*n)),
        Cell::Int32(n) => Ok(Cell::Int32(*n)),
        Cell::Truth(b) => Ok(Cell::Truth(*b)),
        other => copy(alloc, other),
    }
}

impl State {
    /// Pushes a copy of a part of a slot.
    ///
    /// # Errors
    ///
    /// `Memory` when memory runs out, as in the calls below.
    #[inline]
    pub fn look(&mut self, alloc: Global, slot: u32, path: &[u32]) -> Result<Turn, Memory>
        requires { self.now.place < most_place }
        ensures is { IfOk result (λ turn. turned turn self.new
            ≡ having (at (slot_part slot path.now (machine_of self.old)) (machine_of self.old).world)
            (λ value. pushes value (machine_of self.old))) }
        ensures quiet { IsQuiet (came_still result) self.old.world self.new.world }
    {
        match self.part(slot, path) {
            Some(cell) => {
                let copy = copied(alloc, cell)?;
                self.push(copy)
            }
            None => Ok(Turn::Stuck),
        }
    }

    /// Pushes the value of a slot, which is then empty.
    #[inline]
    pub fn take(&mut self, slot: u32) -> Result<Turn, Memory>
        requires { self.now.place < most_place }
        ensures is { IfOk result (λ turn. turned turn self.new ≡ having (in_slot slot (machine_of self.old))
            (λ value. pushes value (slot_set slot None (machine_of self.old)))) }
        ensures quiet { IsQuiet (came_still result) self.old.world self.new.world }
    {
        if !self.has(slot) {
            return Ok(Turn::Stuck);
        }
        match self.fill(slot, None) {
            Some(cell) => self.push(cell),
            None => Ok(Turn::Stuck),
        }
    }

    /// Pops into a slot.
    #[inline]
    pub fn store_top(&mut self, slot: u32) -> Turn
        requires { self.now.place < most_place }
        ensures is { turned result self.new ≡ popping (machine_of self.old).operands
            (machine_of self.old) (λ value m. stores slot value m) }
        ensures quiet { IsQuiet (is_still result) self.old.world self.new.world }
    {
        match self.pop() {
            Some(cell) => self.store(slot, cell),
            None => Turn::Stuck,
        }
    }

    /// Pops into a part of a slot.
    #[inline]
    pub fn put_top(&mut self, slot: u32, path: &[u32]) -> Turn
        requires { self.now.place < most_place }
        ensures is { turned result self.new ≡ popping (machine_of self.old).operands
            (machine_of self.old) (λ value m. puts (slot_part slot path.now m) value m) }
        ensures quiet { IsQuiet (is_still result) self.old.world self.new.world }
    {
        match self.pop() {
            Some(cell) => self.put(slot, path, cell),
            None => Turn::Stuck,
        }
    }
}
