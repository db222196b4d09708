//! How a run goes on after a shipped call.

ghost use Rattle.std.specs.Prelude.{◌≡◌, ◌<◌, IfOk, OnOk, false, true, if◌then◌else◌};
ghost use Rattle.au_effects.specs.Values.{unit};
ghost use Rattle.au_effects.specs.Calls.{in_line};
ghost use Rattle.au_low.specs.Machines.{writes, onward, pushed};
ghost use Rattle.au_low.specs.Instructions.{answered};
ghost use Rattle.au_stores.specs.Stores.{world_of, top_frame};
ghost use Rattle.au_stores.specs.Answers.{answer_of};
ghost use Rattle.au_machine.specs.States.{machine_of, turned, most_place, IsQuiet, came_still, is_nothing};

use crate::states::{State, Turn};
use au_base::Memory;
use au_cells::Cell;
use au_stores::Answered;

impl State {
    /// Goes on by what a shipped call came to.
    ///
    /// # Errors
    ///
    /// `Memory` when memory runs out, as in the calls below.
    pub fn answer(&mut self, one: Answered) -> Result<Turn, Memory>
        requires { self.now.place < most_place }
        ensures is { IfOk result (λ turn. turned turn self.new
            ≡ answered (answer_of one (world_of self.old.world)) (machine_of self.old)) }
        ensures moves { (if came_still result then is_nothing one else true) ≡ true }
        ensures quiet { IsQuiet (came_still result) self.old.world self.new.world }
    {
        match one {
            Answered::Gives(cell) => self.push(cell),
            Answered::Aborts(why) => {
                self.why = why;
                Ok(Turn::Aborts)
            }
            Answered::NoRule => Ok(Turn::Stuck),
        }
    }

    /// Notes bytes that are to be written, with a newline behind them where they are a line.
    fn note_bytes(&mut self, line: bool, bytes: &[u8]) -> Result<(), Memory>
        ensures bytes { OnOk result (self.new.bytes.items ≡ in_line line bytes.now) }
        ensures machine { OnOk result (machine_of self.new ≡ machine_of self.old) }
        ensures place { OnOk result (self.new.place ≡ self.old.place) }
    {
        self.bytes.clear();
        self.bytes.extend_from_slice(bytes)?;
        if line {
            self.bytes.push(b'\n')?;
        }
        Ok(())
    }

    /// Goes on once these bytes are written, with a newline behind them where they are a line.
    pub fn write_out(&mut self, line: bool, bytes: &[u8]) -> Result<Turn, Memory>
        requires { self.now.place < most_place }
        ensures is { IfOk result (λ turn. turned turn self.new
            ≡ writes (in_line line bytes.now) (onward (pushed unit (machine_of self.old)))) }
        ensures moves { came_still result ≡ false }
    {
        self.note_bytes(line, bytes)?;
        self.operands.push(Cell::Unit)?;
        self.place += 1;
        Ok(Turn::Writes)
    }
}
