//! The shipped calls on buffers.

ghost use Rattle.std.specs.Prelude.{◌≡◌, ◌<◌, map, length, slice_get, slice_set, is_some, if◌then◌else◌};
ghost use Rattle.std.specs.Prelude.{Some, IfOk, OnOk};
ghost use Rattle.std.specs.Option.{option_map, option_copied};
ghost use Rattle.au_effects.specs.Parts.{along};
ghost use Rattle.au_effects.specs.Worlds as effect;
ghost use Rattle.au_effects.specs.Calls as call;
ghost use Rattle.au_cells.specs.Cells.{low, lows};
ghost use Rattle.au_low.specs.Machines.{LowWorld};
ghost use Rattle.au_stores.specs.Stores.{world_of, held_of, top_frame, reached_by, elements_of};
ghost use Rattle.au_stores.specs.Stores.{held_elements, count_in, inserted};
ghost use Rattle.au_stores.specs.Answers.{answer_of, given_or};
ghost use Rattle.au_stores.specs.declared.answers.Answered.TheVariants.{NoRule};

use crate::answers::Answered;
use crate::keeping::Births;
use crate::worlds::{Held, World};
use au_base::Memory;
use au_cells::Cell;
use au_cells::copying::copy;
use au_cells::forms::{buffer_in, reference_in};
use au_low::Event;
use au_shipped::AbortKind;
use std::alloc::Global;
use std::mem;

impl World {
    /// `makeEmpty`: a buffer of a type is born, without elements.
    ///
    /// # Errors
    ///
    /// `Memory` when memory runs out.
    pub fn make_empty(&mut self, alloc: Global, of: u32) -> Result<Answered, Memory>
        ensures does { IfOk result (λ one. answer_of one (world_of self.new)
            ≡ call.make_empty (Some of) (world_of self.old)) }
        ensures frame { OnOk result (top_frame self.new ≡ top_frame self.old) }
    {
        let id = self.bear(
            alloc,
            of,
            b"Standard.Buffer",
            Held::Elements(Vec::new(alloc)),
        )?;
        Ok(Answered::Gives(Cell::BufferOf(id)))
    }

    /// `destroyEmpty`: a buffer is consumed; aborts where an element is left.
    ///
    /// # Errors
    ///
    /// `Memory` when memory runs out.
    pub fn destroy_empty(&mut self, buffer: &Cell) -> Result<Answered, Memory>
        ensures does { IfOk result (λ one. answer_of one (world_of self.new)
            ≡ call.destroy_empty (world_of self.old) (low buffer.now)) }
        ensures stays { IfOk result (λ one. one ≡ NoRule → world_of self.new ≡ world_of self.old) }
        ensures frame { OnOk result (top_frame self.new ≡ top_frame self.old) }
    {
        let Some(id) = buffer_in(buffer) else {
            return Ok(Answered::NoRule);
        };
        let Some(count) = self.element_count(id) else {
            return Ok(Answered::NoRule);
        };
        if count != 0 {
            return Ok(Answered::Aborts(AbortKind::NotEmpty));
        }
        self.births.end(id);
        self.tell(Event::Consumed(id))?;
        Ok(Answered::Gives(Cell::Unit))
    }

    /// `length`: a buffer is used; gives the number of its elements.
    ///
    /// # Errors
    ///
    /// `Memory` when memory runs out.
    pub fn length(&mut self, reference: &Cell) -> Result<Answered, Memory>
        ensures does { IfOk result (λ one. answer_of one (world_of self.new)
            ≡ call.length_call (world_of self.old) (low reference.now)) }
        ensures stays { IfOk result (λ one. one ≡ NoRule → world_of self.new ≡ world_of self.old) }
        ensures frame { OnOk result (top_frame self.new ≡ top_frame self.old) }
    {
        let Some((borrow, id)) = self.buffer_reached(reference) else {
            return Ok(Answered::NoRule);
        };
        let Some(count) = self.element_count(id) else {
            return Ok(Answered::NoRule);
        };
        self.tell_use(borrow)?;
        Ok(Answered::Gives(Cell::Index(count as u64)))
    }

    /// `insertBack`: a buffer is used, and gets one more element behind the others.
    ///
    /// # Errors
    ///
    /// `Memory` when memory runs out.
    pub fn insert_back(&mut self, reference: &Cell, new: Cell) -> Result<Answered, Memory>
        ensures does { IfOk result (λ one. answer_of one (world_of self.new)
            ≡ call.insert_back (world_of self.old) (low reference.now) (low new)) }
        ensures stays { IfOk result (λ one. one ≡ NoRule → world_of self.new ≡ world_of self.old) }
        ensures frame { OnOk result (top_frame self.new ≡ top_frame self.old) }
    {
        let Some((borrow, id)) = self.buffer_reached(reference) else {
            return Ok(Answered::NoRule);
        };
        if !inserted(&mut self.births, id, new)? {
            return Ok(Answered::NoRule);
        }
        self.tell_use(borrow)?;
        Ok(Answered::Gives(Cell::Unit))
    }

    /// `removeBack`: a buffer is used; takes its last element, or aborts where there is none.
    ///
    /// # Errors
    ///
    /// `Memory` when memory runs out.
    pub fn remove_back(&mut self, reference: &Cell) -> Result<Answered, Memory>
        ensures does { IfOk result (λ one. answer_of one (world_of self.new)
            ≡ call.remove_back (world_of self.old) (low reference.now)) }
        ensures stays { IfOk result (λ one. one ≡ NoRule → world_of self.new ≡ world_of self.old) }
        ensures frame { OnOk result (top_frame self.new ≡ top_frame self.old) }
    {
        let Some((borrow, id)) = self.buffer_reached(reference) else {
            return Ok(Answered::NoRule);
        };
        let Some(mut cells) = self.births.take_elements(id) else {
            return Ok(Answered::NoRule);
        };
        let last = cells.pop();
        self.births.put(id, Held::Elements(cells))?;
        self.tell_use(borrow)?;
        Ok(given_or(last, AbortKind::Empty))
    }

    /// `nth`: a buffer is used; gives a copy of an element, or aborts where it isn't there.
    ///
    /// # Errors
    ///
    /// `Memory` when memory runs out.
    pub fn nth(&mut self, alloc: Global, reference: &Cell, index: &Cell) -> Result<Answered, Memory>
        ensures does { IfOk result (λ one. answer_of one (world_of self.new)
            ≡ call.nth_call (world_of self.old) (low reference.now) (low index.now)) }
        ensures stays { IfOk result (λ one. one ≡ NoRule → world_of self.new ≡ world_of self.old) }
        ensures frame { OnOk result (top_frame self.new ≡ top_frame self.old) }
    {
        let Some(index) = index_in(index) else {
            return Ok(Answered::NoRule);
        };
        let Some((borrow, id)) = self.buffer_reached(reference) else {
            return Ok(Answered::NoRule);
        };
        let Some(cells) = self.elements(id) else {
            return Ok(Answered::NoRule);
        };
        let answered = copied(alloc, cells, index as usize)?;
        self.tell_use(borrow)?;
        Ok(answered)
    }

    /// `replaceNth`: a buffer is used; puts a value in the place of an element, and gives that one, or aborts
    /// where it isn't there.
    ///
    /// # Errors
    ///
    /// `Memory` when memory runs out.
    pub fn replace_nth(
        &mut self,
        reference: &Cell,
        index: &Cell,
        new: Cell,
    ) -> Result<Answered, Memory>
        ensures does { IfOk result (λ one. answer_of one (world_of self.new)
            ≡ call.replace_nth (world_of self.old) (low reference.now) (low index.now) (low new)) }
        ensures stays { IfOk result (λ one. one ≡ NoRule → world_of self.new ≡ world_of self.old) }
        ensures frame { OnOk result (top_frame self.new ≡ top_frame self.old) }
    {
        let Some(index) = index_in(index) else {
            return Ok(Answered::NoRule);
        };
        let Some((borrow, id)) = self.buffer_reached(reference) else {
            return Ok(Answered::NoRule);
        };
        let Some(mut cells) = self.births.take_elements(id) else {
            return Ok(Answered::NoRule);
        };
        let old = replaced(&mut cells, index as usize, new);
        self.births.put(id, Held::Elements(cells))?;
        self.tell_use(borrow)?;
        Ok(given_or(old, AbortKind::OutOfRange))
    }

    /// The borrow of a reference to a buffer, and the buffer's birth.
    fn buffer_reached(&self, reference: &Cell) -> Option<(u64, u64)>
        ensures { result ≡ reached_by call.buffer_in (low reference.now) (world_of self.now) }
    {
        let one = reference_in(reference)?;
        let held_value = self.at(one)?;
        let id = buffer_in(held_value)?;
        Some((one.borrow, id))
    }

    /// How many elements the buffer of a birth has.
    fn element_count(&self, id: u64) -> Option<usize>
        ensures { result ≡ count_in (elements_of id (world_of self.now)) }
    {
        let cells = self.elements(id)?;
        Some(cells.len())
    }
}

/// The index that a value is.
pub fn index_in(cell: &Cell) -> Option<u64>
    ensures { result ≡ call.index_in (low cell.now) }
{
    match cell {
        Cell::Index(n) => Some(*n),
        _ => None,
    }
}

/// A copy of an element, or the abort where it isn't there.
fn copied(alloc: Global, cells: &[Cell], index: usize) -> Result<Answered, Memory>
    ensures { IfOk result (λ one. (w : LowWorld) → answer_of one w
        ≡ call.element_copied (slice_get (lows cells.now) index) w) }
{
    match cells.get(index) {
        None => Ok(Answered::Aborts(AbortKind::OutOfRange)),
        Some(cell) => Ok(Answered::Gives(copy(alloc, cell)?)),
    }
}

/// What is given, or the abort where nothing is.
fn given_or(held_value: Option<Cell>, why: AbortKind) -> Answered
    ensures { result ≡ given_or held_value why }
{
    match held_value {
        Some(cell) => Answered::Gives(cell),
        None => Answered::Aborts(why),
    }
}

/// Puts a value behind the elements of a buffer. Where there is no buffer, nothing changes.
fn inserted(births: &mut Births, id: u64, new: Cell) -> Result<bool, Memory>
    ensures done { IfOk result (λ done. done ≡ is_some (held_elements id (map held_of births.old))) }
    ensures births { IfOk result (λ done. map held_of births.new
        ≡ inserted id (low new) (map held_of births.old)) }
{
    let Some(mut cells) = births.take_elements(id) else {
        return Ok(false);
    };
    cells.push(new)?;
    births.put(id, Held::Elements(cells))?;
    Ok(true)
}

/// Puts a value in the place of an element, and gives that one. Where it isn't there, nothing changes, and
/// the new value is gone.
fn replaced(cells: &mut Vec<Cell>, index: usize, new: Cell) -> Option<Cell>
    ensures old { option_map low result ≡ slice_get (lows cells.old.items) index }
    ensures new { lows cells.new.items ≡ slice_set (lows cells.old.items) index (low new) }
{
    if index >= cells.len() {
        return None;
    }
    Some(mem::replace(&mut cells[index], new))
}
