//! Closing borrows.

ghost use Rattle.std.specs.Prelude.{◌≡◌, ◌<◌, ◌+◌, ◌-◌, length, take, drop, reverse, OnOk};
ghost use Rattle.au_effects.specs.Worlds as effect;
ghost use Rattle.au_cells.specs.Piles.{next_top};
ghost use Rattle.au_stores.specs.Stores.{world_of, top_frame, without_frames};

use crate::worlds::World;
use au_base::Memory;
use au_cells::Piles;

impl World {
    /// Closes open borrows, the newest first, until so many are left. The newest one is the last of the
    /// pile at the top.
    ///
    /// # Errors
    ///
    /// `Memory` when memory runs out.
    pub fn close_to(&mut self, opened: &mut Piles<u64>, count: usize) -> Result<(), Memory>
        ensures world { OnOk result (world_of self.new
            ≡ effect.closes (take (length opened.old.0 - count) (reverse opened.old.0)) (world_of self.old)) }
        ensures left { OnOk result (reverse opened.new.0
            ≡ drop (length opened.old.0 - count) (reverse opened.old.0)) }
        ensures below { OnOk result (opened.new.1 ≡ opened.old.1) }
        ensures frame { OnOk result (top_frame self.new ≡ top_frame self.old) }
    {
        while count < opened.top().len() {
            let Some(borrow) = opened.pop() else {
                break;
            };
            self.tell_close(borrow)?;
        }
        Ok(())
    }

    /// Ends the running frame: closes its open borrows, the newest first, and drops what its slots hold.
    ///
    /// # Errors
    ///
    /// `Memory` when memory runs out.
    pub fn leave_frame(&mut self, opened: &mut Piles<u64>) -> Result<(), Memory>
        requires { 0 < top_frame self.old }
        ensures world { OnOk result (world_of self.new ≡ without_frames (top_frame self.old)
            (effect.closes (reverse opened.old.0) (world_of self.old))) }
        ensures left { OnOk result (opened.new ≡ next_top opened.old.1) }
        ensures frame { OnOk result (top_frame self.new + 1 ≡ top_frame self.old) }
    {
        self.close_to(opened, 0)?;
        opened.end();
        self.end_frame();
        Ok(())
    }
}
