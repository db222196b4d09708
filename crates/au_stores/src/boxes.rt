//! The shipped calls on places and on boxes.

ghost use Rattle.std.specs.Prelude.{◌≡◌, [], Some, IfOk, OnOk};
ghost use Rattle.au_effects.specs.Values.{reference, content_of};
ghost use Rattle.au_effects.specs.Calls as call;
ghost use Rattle.au_cells.specs.Cells.{low};
ghost use Rattle.au_stores.specs.Stores.{world_of, top_frame, reached_by};
ghost use Rattle.au_stores.specs.Answers.{answer_of};
ghost use Rattle.au_stores.specs.declared.answers.Answered.TheVariants.{NoRule};

use crate::answers::Answered;
use crate::worlds::{Held, World};
use au_base::{Memory, Sequence};
use au_cells::forms::{box_in, make_reference, reference_in};
use au_cells::{Borrowed, Cell, Start};
use std::alloc::Global;

impl World {
    /// `swap`: puts a value into the place of a reference, and gives what was there.
    ///
    /// # Errors
    ///
    /// `Memory` when memory runs out.
    pub fn swap(&mut self, reference: &Cell, new: Cell) -> Result<Answered, Memory>
        ensures does { IfOk result (λ one. answer_of one (world_of self.new)
            ≡ call.swap_call (world_of self.old) (low reference.now) (low new)) }
        ensures stays { IfOk result (λ one. one ≡ NoRule → world_of self.new ≡ world_of self.old) }
        ensures frame { OnOk result (top_frame self.new ≡ top_frame self.old) }
    {
        let Some(one) = reference_in(reference) else {
            return Ok(Answered::NoRule);
        };
        match self.exchange(one.start, one.path.as_slice(), new) {
            None => Ok(Answered::NoRule),
            Some(old) => {
                self.tell_use(one.borrow)?;
                Ok(Answered::Gives(old))
            }
        }
    }

    /// `makeBox`: a box of a type is born, with a value as its content.
    ///
    /// # Errors
    ///
    /// `Memory` when memory runs out.
    pub fn make_box(&mut self, alloc: Global, of: u32, content: Cell) -> Result<Answered, Memory>
        ensures does { IfOk result (λ one. answer_of one (world_of self.new)
            ≡ call.make_box (Some of) (world_of self.old) (low content)) }
        ensures frame { OnOk result (top_frame self.new ≡ top_frame self.old) }
    {
        let id = self.bear(alloc, of, b"Standard.Box", Held::Content(content))?;
        Ok(Answered::Gives(Cell::BoxOf(id)))
    }

    /// `unbox`: a box is consumed, and gives its content.
    ///
    /// # Errors
    ///
    /// `Memory` when memory runs out.
    pub fn unbox_call(&mut self, one: &Cell) -> Result<Answered, Memory>
        ensures does { IfOk result (λ answered. answer_of answered (world_of self.new)
            ≡ call.unbox_call (world_of self.old) (low one.now)) }
        ensures stays { IfOk result (λ answered. answered ≡ NoRule → world_of self.new ≡ world_of self.old) }
        ensures frame { OnOk result (top_frame self.new ≡ top_frame self.old) }
    {
        let Some(id) = box_in(one) else {
            return Ok(Answered::NoRule);
        };
        match self.unbox(id)? {
            Some(content) => Ok(Answered::Gives(content)),
            None => Ok(Answered::NoRule),
        }
    }

    /// `boxGet` and `boxGetMut`: the box that a reference reaches is used; gives a reference of the same
    /// borrow to its content.
    ///
    /// # Errors
    ///
    /// `Memory` when memory runs out.
    pub fn box_get(&mut self, alloc: Global, reference: &Cell) -> Result<Answered, Memory>
        ensures does { IfOk result (λ one. answer_of one (world_of self.new)
            ≡ call.box_get (world_of self.old) (low reference.now)) }
        ensures stays { IfOk result (λ one. one ≡ NoRule → world_of self.new ≡ world_of self.old) }
        ensures frame { OnOk result (top_frame self.new ≡ top_frame self.old) }
    {
        let Some((borrow, id)) = self.box_reached(reference) else {
            return Ok(Answered::NoRule);
        };
        self.tell_use(borrow)?;
        let content = content_reference(alloc, borrow, id)?;
        Ok(Answered::Gives(content))
    }

    /// The borrow of a reference to a box, and the box's birth.
    fn box_reached(&self, reference: &Cell) -> Option<(u64, u64)>
        ensures { result ≡ reached_by call.box_in (low reference.now) (world_of self.now) }
    {
        let one = reference_in(reference)?;
        let held_value = self.at(one)?;
        let id = box_in(held_value)?;
        Some((one.borrow, id))
    }
}

/// A reference of a borrow to the content of a box.
fn content_reference(alloc: Global, borrow: u64, id: u64) -> Result<Cell, Memory>
    ensures { IfOk result (λ cell. low cell ≡ reference borrow (record { base = content_of id; path = [] })) }
{
    let start = Start::Content(id);
    let path = Sequence::new(alloc);
    make_reference(
        alloc,
        Borrowed {
            borrow,
            start,
            path,
        },
    )
}
