//! What boxes and buffers hold.

ghost use Rattle.std.specs.Prelude.{◌≡◌, ◌<◌, length, map, is_some, slice_get, slice_set, if◌then◌else◌};
ghost use Rattle.std.specs.Prelude.{IfOk, OnOk};
ghost use Rattle.std.specs.Option.{option_map, option_copied};
ghost use Rattle.au_effects.specs.Parts.{along};
ghost use Rattle.au_effects.specs.Worlds as effect;
ghost use Rattle.au_effects.specs.Places.{content_in};
ghost use Rattle.au_effects.specs.Calls.{elements_in};
ghost use Rattle.au_cells.specs.Cells.{low, lows};
ghost use Rattle.au_stores.specs.Stores.{world_of, held_of, cells_of, top_frame};

use crate::worlds::{Held, World};
use au_base::Memory;
use au_cells::Cell;
use au_low::Event;

impl World {
    /// The content of the box of a birth.
    pub fn content(&self, id: u64) -> Option<&Cell>
        ensures { option_map low (option_copied result)
            ≡ along (slice_get (world_of self.now).births id) content_in }
    {
        match self.births.get(id) {
            Some(Held::Content(cell)) => Some(cell),
            Some(Held::Elements(_)) => None,
            Some(Held::Nothing) => None,
            None => None,
        }
    }

    /// The elements of the buffer of a birth.
    pub fn elements(&self, id: u64) -> Option<&[Cell]>
        ensures { option_map lows (option_copied result)
            ≡ along (slice_get (world_of self.now).births id) elements_in }
    {
        match self.births.get(id) {
            Some(Held::Elements(cells)) => Some(cells.as_slice()),
            Some(Held::Content(_)) => None,
            Some(Held::Nothing) => None,
            None => None,
        }
    }

    /// Ends the box of a birth, and gives its content. Where it holds none, nothing changes.
    ///
    /// # Errors
    ///
    /// `Memory` when memory runs out.
    pub fn unbox(&mut self, id: u64) -> Result<Option<Cell>, Memory>
        ensures content { IfOk result (λ held_value. option_map low held_value
            ≡ along (slice_get (world_of self.old).births id) content_in) }
        ensures world { IfOk result (λ held_value. world_of self.new
            ≡ (if is_some held_value then effect.ends id (world_of self.old) else world_of self.old)) }
        ensures frame { OnOk result (top_frame self.new ≡ top_frame self.old) }
    {
        match self.births.take_content(id) {
            Some(content) => {
                self.tell(Event::Consumed(id))?;
                Ok(Some(content))
            }
            None => Ok(None),
        }
    }
}
