//! The instruction that makes a value of a record or a union.

ghost use Rattle.std.specs.Prelude.{◌≡◌, ◌<◌, length, slice_get, IfOk, OnOk};
ghost use Rattle.std.specs.Option.{option_copied};
ghost use Rattle.au_low.specs.Machines.{having, ordered, popping_all};
ghost use Rattle.au_low.specs.Instructions.{makes};
ghost use Rattle.au_cells.specs.Cells.{lows};
ghost use Rattle.au_machine.specs.States.{machine_of, turned, most_place, IsQuiet, came_still};

use crate::popping::in_order;
use crate::states::{State, Turn};
use au_base::{Memory, Name};
use au_cells::Cell;
use au_cells::forms::make;
use au_low::{Code, LowType};
use au_stores::Held;
use std::alloc::Global;

/// The type of a number.
fn type_at(code: &Code, of: u32) -> Option<&LowType>
    ensures { option_copied result ≡ slice_get code.now.types of }
{
    code.types.as_slice().get(of as usize)
}

impl State {
    /// Pushes a value of these fields, which is born where its type is linear.
    ///
    /// # Errors
    ///
    /// `Memory` when memory runs out, as in the calls below.
    fn make_of(
        &mut self,
        alloc: Global,
        of: u32,
        tag: u32,
        home: &Name,
        fields: Vec<Cell>,
        one: &LowType,
    ) -> Result<Turn, Memory>
        requires { self.now.place < most_place }
        ensures is { IfOk result (λ turn. turned turn self.new
            ≡ makes of tag home.now (lows fields.items) one.now (machine_of self.old)) }
        ensures quiet { IsQuiet (came_still result) self.old.world self.new.world }
    {
        if !one.linear {
            let cell = make(alloc, tag, None, fields)?;
            return self.push(cell);
        }
        let id = self.world.bear(alloc, of, home.as_bytes(), Held::Nothing)?;
        let cell = make(alloc, tag, Some(id), fields)?;
        self.push(cell)
    }

    /// Pops the fields of a case of a type, and pushes its value.
    #[inline(never)]
    pub fn make(
        &mut self,
        alloc: Global,
        code: &Code,
        of: u32,
        tag: u32,
        order: &[u32],
        home: &Name,
    ) -> Result<Turn, Memory>
        requires { self.now.place < most_place }
        ensures is { IfOk result (λ turn. turned turn self.new
            ≡ popping_all (length order.now) (machine_of self.old) (λ values m.
            having (ordered order.now values) (λ values.
            having (slice_get code.now.types of) (λ one. makes of tag home.now values one m)))) }
        ensures quiet { IsQuiet (came_still result) self.old.world self.new.world }
    {
        let Some(cells) = self.pop_all(alloc, order.len())? else {
            return Ok(Turn::Stuck);
        };
        let Some(fields) = in_order(alloc, order, cells)? else {
            return Ok(Turn::Stuck);
        };
        let Some(one) = type_at(code, of) else {
            return Ok(Turn::Stuck);
        };
        self.make_of(alloc, of, tag, home, fields, one)
    }
}
