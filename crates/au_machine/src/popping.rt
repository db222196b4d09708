//! Operands that are popped together, and put into declared order.

ghost use Rattle.std.specs.Prelude.{
  ◌≡◌,
  [],
  List,
  map,
  reverse,
  slice_get,
  slice_set,
  IfOk,
  OnOk,
  IfSome,
  MatchOption,
  Some,
  None,
};
ghost use Rattle.std.specs.Option.{option_map};
ghost use Rattle.au_low.specs.Machines.{
  Low,
  Machine,
  Next,
  stuck,
  popping_all,
  still_there,
  arguments_at,
  ordered,
};
ghost use Rattle.au_cells.specs.Cells.{low, lows};
ghost use Rattle.au_stores.specs.Stores.{slots_of, cells_of};
ghost use Rattle.au_machine.specs.States.{machine_of, standing, is_counted};

use crate::states::State;
use au_base::Memory;
use au_cells::Cell;
use std::alloc::Global;
use std::mem;

/// Takes an argument of a number, if it is still there.
fn take_at(left: &mut Vec<Option<Cell>>, index: u32) -> Option<Cell>
    ensures old { option_map low result ≡ still_there (slice_get (slots_of left.old.items) index) }
    ensures left { IfSome result (λ cell.
        slots_of left.new.items ≡ slice_set (slots_of left.old.items) index None) }
{
    let index = index as usize;
    if left.len() <= index {
        return None;
    }
    let held_value = mem::replace(&mut left[index], None);
    held_value
}

/// Arguments that are still there, in their order; they come last first.
fn all_there(alloc: Global, values: Vec<Cell>) -> Result<Vec<Option<Cell>>, Memory>
    ensures { IfOk result (λ left. slots_of left.items ≡ standing (reverse (lows values.items))) }
{
    let mut values = values;
    let mut left = Vec::new(alloc);
    while let Some(value) = values.pop() {
        left.push(Some(value))?;
    }
    Ok(left)
}

/// The arguments of these numbers, each taken once.
fn picked(
    alloc: Global,
    order: &[u32],
    left: Vec<Option<Cell>>,
) -> Result<Option<Vec<Cell>>, Memory>
    ensures { IfOk result (λ found. option_map cells_of found
        ≡ arguments_at order.now (slots_of left.items)) }
{
    let mut left = left;
    let mut cells = Vec::new(alloc);
    for index in order {
        match take_at(&mut left, *index) {
            Some(cell) => cells.push(cell)?,
            None => return Ok(None),
        }
    }
    Ok(Some(cells))
}

/// Whether an order is the declared one.
pub fn is_declared(order: &[u32]) -> bool
    ensures { result ≡ is_counted 0 order.now }
{
    let mut at = 0;
    for index in order {
        if *index as usize != at {
            return false;
        }
        at += 1;
    }
    true
}

/// Arguments in declared order; they come last first.
///
/// # Errors
///
/// `Memory` when memory runs out.
pub fn in_order(
    alloc: Global,
    order: &[u32],
    values: Vec<Cell>,
) -> Result<Option<Vec<Cell>>, Memory>
    ensures { IfOk result (λ found. option_map cells_of found
        ≡ ordered order.now (reverse (lows values.items))) }
{
    if order.len() != values.len() {
        return Ok(None);
    }
    if is_declared(order) {
        let mut values = values;
        values.reverse();
        return Ok(Some(values));
    }
    let left = all_there(alloc, values)?;
    picked(alloc, order, left)
}

impl State {
    /// Pops so many operands, the newest first.
    ///
    /// # Errors
    ///
    /// `Memory` when memory runs out.
    pub fn pop_all(&mut self, alloc: Global, count: usize) -> Result<Option<Vec<Cell>>, Memory>
        ensures is { IfOk result (λ found. MatchOption found
            ((go : List Low → Machine → Next) → popping_all count (machine_of self.old) go ≡ stuck)
            (λ cells. (go : List Low → Machine → Next) → popping_all count (machine_of self.old) go
            ≡ go (reverse (lows cells.items)) (machine_of self.new))) }
        ensures place { OnOk result (self.new.place ≡ self.old.place) }
        ensures world { OnOk result (self.new.world ≡ self.old.world) }
    {
        self.pop_into(Vec::new(alloc), count)
    }

    /// The same, into an empty vector.
    ///
    /// # Errors
    ///
    /// `Memory` when memory runs out.
    pub fn pop_into(&mut self, cells: Vec<Cell>, count: usize) -> Result<Option<Vec<Cell>>, Memory>
        requires { cells.items ≡ [] }
        ensures is { IfOk result (λ found. MatchOption found
            ((go : List Low → Machine → Next) → popping_all count (machine_of self.old) go ≡ stuck)
            (λ cells. (go : List Low → Machine → Next) → popping_all count (machine_of self.old) go
            ≡ go (reverse (lows cells.items)) (machine_of self.new))) }
        ensures place { OnOk result (self.new.place ≡ self.old.place) }
        ensures world { OnOk result (self.new.world ≡ self.old.world) }
    {
        let mut cells = cells;
        for _index in 0..count {
            match self.pop() {
                Some(cell) => cells.push(cell)?,
                None => return Ok(None),
            }
        }
        Ok(Some(cells))
    }
}
