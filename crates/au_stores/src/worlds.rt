//! The world: what there is of frames and births, and what is told of it.

ghost use Rattle.std.specs.Prelude.{◌≡◌, ◌<◌, ◌≤◌, ◌∷◌, [], length, IfOk, OnOk};
ghost use Rattle.au_base.specs.Limits.{most_name_bytes};
ghost use Rattle.au_effects.specs.Worlds as effect;
ghost use Rattle.au_low.specs.Runs.{first_world};
ghost use Rattle.au_stores.specs.Stores.{world_of, held_of, deed_of, top_frame};

use crate::keeping::Births;
use au_base::{Memory, Name};
use au_cells::{Cell, Piles};
use au_low::Event;
use std::alloc::Global;

/// What there is of a birth besides its value.
#[derive(Drop)]
pub enum Held {
    /// Nothing.
    Nothing,
    /// The content of a box.
    Content(Cell),
    /// The elements of a buffer.
    Elements(Vec<Cell>),
}

/// What the actions of a run change.
#[derive(Drop)]
pub struct World {
    /// The slots of the frames, those of the running one at the top.
    pub slots: Piles<Option<Cell>>,
    /// What there is of each birth.
    pub births: Births,
    /// The number of the next borrow.
    pub borrows: u64,
    /// Whether events are kept.
    pub keeps: bool,
    /// The events that were kept.
    pub events: Vec<Event>,
}

impl World {
    /// A world in which nothing has happened, with one frame that has no slot.
    pub fn new(alloc: Global, keeps: bool) -> World
        ensures world { world_of result ≡ first_world keeps [] }
        ensures slots { result.slots ≡ ([], []) }
    {
        World {
            slots: Piles::new(alloc),
            births: Births::new(alloc),
            borrows: 0,
            keeps,
            events: Vec::new(alloc),
        }
    }

    /// Tells an event.
    ///
    /// # Errors
    ///
    /// `Memory` when memory runs out.
    pub fn tell(&mut self, event: Event) -> Result<(), Memory>
        ensures world { OnOk result (world_of self.new ≡ effect.tells (deed_of event) (world_of self.old)) }
        ensures frame { OnOk result (top_frame self.new ≡ top_frame self.old) }
    {
        if self.keeps {
            self.events.push(event)?;
        }
        Ok(())
    }

    /// Tells that a value was consumed that may have a birth.
    ///
    /// # Errors
    ///
    /// `Memory` when memory runs out.
    pub fn spend(&mut self, birth: Option<u64>) -> Result<(), Memory>
        ensures world { OnOk result (world_of self.new ≡ effect.spends birth (world_of self.old)) }
        ensures frame { OnOk result (top_frame self.new ≡ top_frame self.old) }
    {
        match birth {
            None => Ok(()),
            Some(id) => self.tell(Event::Consumed(id)),
        }
    }

    /// Tells a use of a borrow.
    ///
    /// # Errors
    ///
    /// `Memory` when memory runs out.
    pub fn tell_use(&mut self, borrow: u64) -> Result<(), Memory>
        ensures world { OnOk result
            (world_of self.new ≡ effect.tells (effect.used borrow) (world_of self.old)) }
        ensures frame { OnOk result (top_frame self.new ≡ top_frame self.old) }
    {
        self.tell(Event::Used(borrow))
    }

    /// Tells that a borrow was closed.
    ///
    /// # Errors
    ///
    /// `Memory` when memory runs out.
    pub fn tell_close(&mut self, borrow: u64) -> Result<(), Memory>
        ensures world { OnOk result (world_of self.new ≡ effect.closes (borrow ∷ []) (world_of self.old)) }
        ensures frame { OnOk result (top_frame self.new ≡ top_frame self.old) }
    {
        self.tell(Event::Closed(borrow))
    }

    /// Opens the next borrow, and gives its number.
    ///
    /// # Errors
    ///
    /// `Memory` when memory runs out, or the numbers of borrows do.
    pub fn open(&mut self) -> Result<u64, Memory>
        ensures borrow { IfOk result (λ borrow. borrow ≡ self.old.borrows) }
        ensures world { OnOk result (world_of self.new ≡ effect.opens (world_of self.old)) }
        ensures frame { OnOk result (top_frame self.new ≡ top_frame self.old) }
    {
        let borrow = self.borrows;
        self.borrows = borrow.checked_add(1).ok_or(Memory)?;
        self.tell(Event::Opened(borrow))?;
        Ok(borrow)
    }

    /// Adds a birth, with what there is of it, and gives its number. The home is the name of the module in
    /// whose text it stands.
    ///
    /// # Errors
    ///
    /// `Memory` when memory runs out.
    pub fn bear(
        &mut self,
        alloc: Global,
        of: u32,
        home: &[u8],
        birth_held: Held,
    ) -> Result<u64, Memory>
        requires some { 0 < length home.now }
        requires most { length home.now ≤ most_name_bytes }
        ensures id { IfOk result (λ id. id ≡ length self.old.births) }
        ensures world { OnOk result
            (world_of self.new ≡ effect.bears of home.now (held_of birth_held) (world_of self.old)) }
        ensures frame { OnOk result (top_frame self.new ≡ top_frame self.old) }
    {
        let id = self.births.count();
        if self.keeps {
            let module = Name::copy_of(alloc, home)?;
            self.events.push(Event::Born { id, of, module })?;
        }
        self.births.push(birth_held)?;
        Ok(id)
    }
}
