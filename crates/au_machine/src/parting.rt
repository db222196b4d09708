//! The instructions that take values apart.

ghost use Rattle.std.specs.Prelude.{◌≡◌, ◌<◌, IfOk, OnOk, slice_get, if◌then◌else◌, Some, None};
ghost use Rattle.au_low.specs.Machines.{in_world, popping, slots_filled};
ghost use Rattle.au_low.specs.Instructions.{apart, takes_record, tells_apart, goes_to_case};
ghost use Rattle.au_cells.specs.Cells.{lows};
ghost use Rattle.au_stores.specs.Stores.{taken};
ghost use Rattle.au_machine.specs.States.{machine_of, turned, most_place, IsQuiet, came_still, told};

use crate::jumping::has_label;
use crate::states::{State, Turn};
use au_base::Memory;
use au_cells::forms::into_parts;
use au_cells::{Cell, Parts};
use au_low::Code;
use au_stores::{Taken, Told};
use std::alloc::Global;

/// The label of a case.
fn label_of(labels: &[u32], tag: u32) -> Option<u32>
    ensures { result ≡ slice_get labels.now tag }
{
    labels.get(tag as usize).copied()
}

impl State {
    /// Puts the fields that are taken of a value into slots from one on, where all of these are there, and
    /// tells how they are taken.
    ///
    /// # Errors
    ///
    /// `Memory` when memory runs out, as in the calls below.
    fn spread(&mut self, slot: u32, how: Taken, fields: Vec<Cell>) -> Result<bool, Memory>
        ensures is { IfOk result (λ done. (if done then Some (machine_of self.new) else None)
            ≡ slots_filled slot (lows fields.items)
            (in_world (taken how (machine_of self.old).world) (machine_of self.old))) }
        ensures kept { IfOk result (λ done. (if done then told self.old.world else told self.new.world)
            ≡ told self.old.world) }
        ensures function { OnOk result (self.new.function ≡ self.old.function) }
        ensures place { OnOk result (self.new.place ≡ self.old.place) }
    {
        let done = self.world.take_apart(slot, how, fields)?;
        Ok(done)
    }

    /// Pops a record, and puts its fields into slots from one on.
    #[inline(never)]
    pub fn take_record(&mut self, slot: u32) -> Result<Turn, Memory>
        requires { self.now.place < most_place }
        ensures is { IfOk result (λ turn. turned turn self.new ≡ popping (machine_of self.old).operands
            (machine_of self.old) (λ value m. apart value slot m takes_record)) }
        ensures quiet { IsQuiet (came_still result) self.old.world self.new.world }
    {
        let Some(cell) = self.pop() else {
            return Ok(Turn::Stuck);
        };
        let Some(Parts { tag, birth, fields }) = into_parts(cell) else {
            return Ok(Turn::Stuck);
        };
        if tag != 0 {
            return Ok(Turn::Stuck);
        }
        if !self.spread(slot, Taken::Spent(birth), fields)? {
            return Ok(Turn::Stuck);
        }
        Ok(self.go())
    }

    /// Pops a union's value, puts its fields into slots from one on, and goes to the label of its case.
    /// Behind a reference that is popped, references to the fields are put there.
    #[inline(never)]
    pub fn take_case(
        &mut self,
        alloc: Global,
        code: &Code,
        slot: u32,
        labels: &[u32],
    ) -> Result<Turn, Memory>
        ensures is { IfOk result (λ turn. turned turn self.new ≡ popping (machine_of self.old).operands
            (machine_of self.old) (λ value m. tells_apart value slot m (goes_to_case code.now labels.now))) }
        ensures quiet { IsQuiet (came_still result) self.old.world self.new.world }
    {
        let Some(cell) = self.pop() else {
            return Ok(Turn::Stuck);
        };
        let Some(told) = self.world.told_apart(alloc, cell)? else {
            return Ok(Turn::Stuck);
        };
        let Told { tag, how, fields } = told;
        let Some(label) = label_of(labels, tag) else {
            return Ok(Turn::Stuck);
        };
        if !has_label(code, self.function, label) {
            return Ok(Turn::Stuck);
        }
        if !self.spread(slot, how, fields)? {
            return Ok(Turn::Stuck);
        }
        Ok(self.jump(code, label))
    }
}
