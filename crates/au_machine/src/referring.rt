//! The instructions on references.

ghost use Rattle.std.specs.Prelude.{◌≡◌, ◌<◌, IfOk};
ghost use Rattle.au_effects.specs.References.{reference_in, referring, reference_along};
ghost use Rattle.au_low.specs.Machines.{pushes, popping, having};
ghost use Rattle.au_low.specs.Instructions.{reference_in_slot, pushes_behind, puts_behind};
ghost use Rattle.au_machine.specs.States.{machine_of, turned, most_place, IsQuiet, came_still};

use crate::states::{State, Turn};
use au_base::Memory;
use au_cells::copying::copy;
use au_cells::forms::{make_reference, reference_in};
use au_stores::places::longer;
use std::alloc::Global;

impl State {
    /// Pushes a copy of what a reference reaches, which is popped.
    ///
    /// # Errors
    ///
    /// `Memory` when memory runs out, as in the calls below.
    #[inline(never)]
    pub fn deref(&mut self, alloc: Global) -> Result<Turn, Memory>
        requires { self.now.place < most_place }
        ensures is { IfOk result (λ turn. turned turn self.new ≡ popping (machine_of self.old).operands
            (machine_of self.old) (λ value m. having (reference_in value) (λ one. pushes_behind one m))) }
        ensures quiet { IsQuiet (came_still result) self.old.world self.new.world }
    {
        let Some(cell) = self.pop() else {
            return Ok(Turn::Stuck);
        };
        let Some(one) = reference_in(&cell) else {
            return Ok(Turn::Stuck);
        };
        let Some(held_value) = self.world.at(one) else {
            return Ok(Turn::Stuck);
        };
        let copy = copy(alloc, held_value)?;
        self.world.tell_use(one.borrow)?;
        self.push(copy)
    }

    /// Pushes a copy of a part of what the reference in a slot reaches.
    #[inline(never)]
    pub fn read(&mut self, alloc: Global, slot: u32, path: &[u32]) -> Result<Turn, Memory>
        requires { self.now.place < most_place }
        ensures is { IfOk result (λ turn. turned turn self.new
            ≡ having (reference_in_slot slot (machine_of self.old))
            (λ one. pushes_behind (reference_along one path.now) (machine_of self.old))) }
        ensures quiet { IsQuiet (came_still result) self.old.world self.new.world }
    {
        let Some(cell) = self.held_value(slot) else {
            return Ok(Turn::Stuck);
        };
        let Some(one) = reference_in(cell) else {
            return Ok(Turn::Stuck);
        };
        let borrow = one.borrow;
        let Some(held_value) = self.world.at_behind(one, path) else {
            return Ok(Turn::Stuck);
        };
        let copy = copy(alloc, held_value)?;
        self.world.tell_use(borrow)?;
        self.push(copy)
    }

    /// Pushes a reference to a part of what the reference in a slot reaches.
    #[inline(never)]
    pub fn part_of(&mut self, alloc: Global, slot: u32, path: &[u32]) -> Result<Turn, Memory>
        requires { self.now.place < most_place }
        ensures is { IfOk result (λ turn. turned turn self.new
            ≡ having (reference_in_slot slot (machine_of self.old))
            (λ one. pushes (referring (reference_along one path.now)) (machine_of self.old))) }
        ensures quiet { IsQuiet (came_still result) self.old.world self.new.world }
    {
        let Some(cell) = self.held_value(slot) else {
            return Ok(Turn::Stuck);
        };
        let Some(one) = reference_in(cell) else {
            return Ok(Turn::Stuck);
        };
        let more = longer(alloc, one, path)?;
        let cell = make_reference(alloc, more)?;
        self.push(cell)
    }

    /// Pops into a part of what the reference in a slot reaches.
    #[inline(never)]
    pub fn put_through(&mut self, alloc: Global, slot: u32, path: &[u32]) -> Result<Turn, Memory>
        requires { self.now.place < most_place }
        ensures is { IfOk result (λ turn. turned turn self.new
            ≡ having (reference_in_slot slot (machine_of self.old))
            (λ one. popping (machine_of self.old).operands (machine_of self.old)
            (λ value m. puts_behind (reference_along one path.now) value m))) }
        ensures quiet { IsQuiet (came_still result) self.old.world self.new.world }
    {
        let Some(cell) = self.pop() else {
            return Ok(Turn::Stuck);
        };
        if !self.world.put_behind(alloc, slot, path, cell)? {
            return Ok(Turn::Stuck);
        }
        Ok(self.go())
    }
}
