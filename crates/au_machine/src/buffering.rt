//! The shipped calls on buffers.

ghost use Rattle.std.specs.Prelude.{◌≡◌, ◌<◌, Some, IfOk};
ghost use Rattle.au_effects.specs.Calls as call;
ghost use Rattle.au_low.specs.Instructions.{answered};
ghost use Rattle.au_cells.specs.Cells.{low};
ghost use Rattle.au_stores.specs.Stores.{world_of};
ghost use Rattle.au_machine.specs.States.{machine_of, turned, most_place, IsQuiet, came_still};

use crate::states::{State, Turn};
use au_base::Memory;
use au_cells::Cell;
use std::alloc::Global;

impl State {
    /// `makeEmpty`: pushes a new buffer of a type, without elements.
    ///
    /// # Errors
    ///
    /// `Memory` when memory runs out, as in the calls below.
    pub fn make_empty(&mut self, alloc: Global, of: u32) -> Result<Turn, Memory>
        requires { self.now.place < most_place }
        ensures is { IfOk result (λ turn. turned turn self.new
            ≡ answered (call.make_empty (Some of) (world_of self.old.world)) (machine_of self.old)) }
        ensures quiet { IsQuiet (came_still result) self.old.world self.new.world }
    {
        let one = self.world.make_empty(alloc, of)?;
        self.answer(one)
    }

    /// `destroyEmpty`: consumes a buffer, or aborts where an element is left.
    pub fn destroy_empty(&mut self, buffer: &Cell) -> Result<Turn, Memory>
        requires { self.now.place < most_place }
        ensures is { IfOk result (λ turn. turned turn self.new
            ≡ answered (call.destroy_empty (world_of self.old.world) (low buffer.now))
            (machine_of self.old)) }
        ensures quiet { IsQuiet (came_still result) self.old.world self.new.world }
    {
        let one = self.world.destroy_empty(buffer)?;
        self.answer(one)
    }

    /// `length`: pushes the number of the elements of a buffer.
    pub fn length(&mut self, reference: &Cell) -> Result<Turn, Memory>
        requires { self.now.place < most_place }
        ensures is { IfOk result (λ turn. turned turn self.new
            ≡ answered (call.length_call (world_of self.old.world) (low reference.now))
            (machine_of self.old)) }
        ensures quiet { IsQuiet (came_still result) self.old.world self.new.world }
    {
        let one = self.world.length(reference)?;
        self.answer(one)
    }

    /// `insertBack`: puts an element behind those of a buffer.
    pub fn insert_back(&mut self, reference: &Cell, new: Cell) -> Result<Turn, Memory>
        requires { self.now.place < most_place }
        ensures is { IfOk result (λ turn. turned turn self.new
            ≡ answered (call.insert_back (world_of self.old.world) (low reference.now) (low new))
            (machine_of self.old)) }
        ensures quiet { IsQuiet (came_still result) self.old.world self.new.world }
    {
        let one = self.world.insert_back(reference, new)?;
        self.answer(one)
    }

    /// `removeBack`: takes the last element of a buffer and pushes it, or aborts where there is none.
    pub fn remove_back(&mut self, reference: &Cell) -> Result<Turn, Memory>
        requires { self.now.place < most_place }
        ensures is { IfOk result (λ turn. turned turn self.new
            ≡ answered (call.remove_back (world_of self.old.world) (low reference.now))
            (machine_of self.old)) }
        ensures quiet { IsQuiet (came_still result) self.old.world self.new.world }
    {
        let one = self.world.remove_back(reference)?;
        self.answer(one)
    }

    /// `nth`: pushes a copy of an element of a buffer, or aborts where it isn't there.
    pub fn nth(&mut self, alloc: Global, reference: &Cell, index: &Cell) -> Result<Turn, Memory>
        requires { self.now.place < most_place }
        ensures is { IfOk result (λ turn. turned turn self.new
            ≡ answered (call.nth_call (world_of self.old.world) (low reference.now) (low index.now))
            (machine_of self.old)) }
        ensures quiet { IsQuiet (came_still result) self.old.world self.new.world }
    {
        let one = self.world.nth(alloc, reference, index)?;
        self.answer(one)
    }

    /// `replaceNth`: puts a value in the place of an element of a buffer and pushes that one, or aborts where
    /// it isn't there.
    pub fn replace_nth(&mut self, reference: &Cell, index: &Cell, new: Cell) -> Result<Turn, Memory>
        requires { self.now.place < most_place }
        ensures is { IfOk result (λ turn. turned turn self.new
            ≡ answered (call.replace_nth (world_of self.old.world)
            (low reference.now) (low index.now) (low new)) (machine_of self.old)) }
        ensures quiet { IsQuiet (came_still result) self.old.world self.new.world }
    {
        let one = self.world.replace_nth(reference, index, new)?;
        self.answer(one)
    }
}
