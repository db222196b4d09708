//! The shipped calls on boxes, and `swap`.

ghost use Rattle.std.specs.Prelude.{◌≡◌, ◌<◌, Some, IfOk};
ghost use Rattle.au_effects.specs.Calls as call;
ghost use Rattle.au_low.specs.Instructions.{answered};
ghost use Rattle.au_cells.specs.Cells.{low};
ghost use Rattle.au_stores.specs.Stores.{world_of};
ghost use Rattle.au_machine.specs.States.{machine_of, turned, most_place, IsQuiet, came_still};

use crate::states::{State, Turn};
use au_base::Memory;
use au_cells::Cell;
use std::alloc::Global;

impl State {
    /// `swap`: puts a value into the place of a reference, and pushes what was there.
    ///
    /// # Errors
    ///
    /// `Memory` when memory runs out, as in the calls below.
    pub fn swap(&mut self, place: &Cell, new: Cell) -> Result<Turn, Memory>
        requires { self.now.place < most_place }
        ensures is { IfOk result (λ turn. turned turn self.new
            ≡ answered (call.swap_call (world_of self.old.world) (low place.now) (low new))
            (machine_of self.old)) }
        ensures quiet { IsQuiet (came_still result) self.old.world self.new.world }
    {
        let one = self.world.swap(place, new)?;
        self.answer(one)
    }

    /// `makeBox`: pushes a new box of a type, with a value as its content.
    pub fn make_box(&mut self, alloc: Global, of: u32, content: Cell) -> Result<Turn, Memory>
        requires { self.now.place < most_place }
        ensures is { IfOk result (λ turn. turned turn self.new
            ≡ answered (call.make_box (Some of) (world_of self.old.world) (low content))
            (machine_of self.old)) }
        ensures quiet { IsQuiet (came_still result) self.old.world self.new.world }
    {
        let one = self.world.make_box(alloc, of, content)?;
        self.answer(one)
    }

    /// `unbox`: consumes a box, and pushes its content.
    pub fn unbox(&mut self, one: &Cell) -> Result<Turn, Memory>
        requires { self.now.place < most_place }
        ensures is { IfOk result (λ turn. turned turn self.new
            ≡ answered (call.unbox_call (world_of self.old.world) (low one.now)) (machine_of self.old)) }
        ensures quiet { IsQuiet (came_still result) self.old.world self.new.world }
    {
        let one = self.world.unbox_call(one)?;
        self.answer(one)
    }

    /// `boxGet` and `boxGetMut`: pushes a reference to the content of the box that a reference reaches.
    pub fn box_get(&mut self, alloc: Global, reference: &Cell) -> Result<Turn, Memory>
        requires { self.now.place < most_place }
        ensures is { IfOk result (λ turn. turned turn self.new
            ≡ answered (call.box_get (world_of self.old.world) (low reference.now)) (machine_of self.old)) }
        ensures quiet { IsQuiet (came_still result) self.old.world self.new.world }
    {
        let one = self.world.box_get(alloc, reference)?;
        self.answer(one)
    }
}
