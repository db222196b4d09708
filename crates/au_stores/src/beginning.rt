//! The world of a run that begins.

ghost use Rattle.std.specs.Prelude.{◌≡◌, ◌<◌, length, replicate, codes, IfOk, None};
ghost use Rattle.au_effects.specs.Worlds as effect;
ghost use Rattle.au_low.specs.Runs.{first_world, root_slots};
ghost use Rattle.au_stores.specs.Stores.{world_of, top_frame};

use crate::slots::fill_empty;
use crate::worlds::{Held, World};
use au_base::Memory;
use au_cells::Cell;
use std::alloc::Global;

impl World {
    /// A world in which nothing has happened, with one frame of so many empty slots.
    ///
    /// # Errors
    ///
    /// `Memory` when memory runs out.
    pub fn with_slots(alloc: Global, keeps: bool, slots: u32) -> Result<World, Memory>
        ensures world { IfOk result (λ w. world_of w ≡ first_world keeps (replicate slots None)) }
        ensures count { IfOk result (λ w. length w.slots.0 ≡ slots) }
        ensures frame { IfOk result (λ w. top_frame w ≡ 0) }
    {
        let mut world = World::new(alloc, keeps);
        fill_empty(&mut world.slots, slots as usize)?;
        Ok(world)
    }

    /// A world with one frame of so many slots, in which the root was born and is in slot 0.
    ///
    /// # Errors
    ///
    /// `Memory` when memory runs out.
    pub fn with_root(alloc: Global, keeps: bool, slots: u32) -> Result<World, Memory>
        requires { 0 < slots }
        ensures world { IfOk result (λ w. world_of w
            ≡ effect.bears 0 (codes "Austral.Pervasive") effect.nothing
            (first_world keeps (root_slots slots))) }
        ensures frame { IfOk result (λ w. top_frame w ≡ 0) }
    {
        let mut world = World::with_slots(alloc, keeps, slots)?;
        world.set_slot(0, Some(Cell::Root(0)));
        world.bear(alloc, 0, b"Austral.Pervasive", Held::Nothing)?;
        Ok(world)
    }
}
