//! The shipped calls that print, and those on texts.

ghost use Rattle.std.specs.Prelude.{◌≡◌, ◌<◌, IfOk};
ghost use Rattle.au_effects.specs.Calls as call;
ghost use Rattle.au_effects.specs.Numbers.{truth_word};
ghost use Rattle.au_low.specs.Instructions.{answered, text_bytes};
ghost use Rattle.au_cells.specs.Cells.{low};
ghost use Rattle.au_stores.specs.Stores.{world_of};
ghost use Rattle.au_machine.specs.States.{machine_of, turned, most_place, IsQuiet, came_still, is_still};

use crate::states::{State, Turn};
use au_base::Memory;
use au_cells::Cell;
use au_cells::forms::{text_in, truth_in};
use au_cells::numbers::number_in;
use au_low::Code;
use au_shipped::AbortKind;
use itoa::Buffer;

/// The bytes of a text of the code, by its number.
pub fn text_of(code: &Code, number: u32) -> &[u8]
    ensures { result.now ≡ text_bytes code.now number }
{
    match code.texts.as_slice().get(number as usize) {
        Some(text) => text.as_bytes(),
        None => &[],
    }
}

/// The word for a truth value.
fn word_of(truth: bool) -> &'static [u8]
    ensures { result.now ≡ truth_word truth }
{
    if truth { b"true" } else { b"false" }
}

impl State {
    /// `print` and `printLn` of a text.
    ///
    /// # Errors
    ///
    /// `Memory` when memory runs out, as in the calls below.
    pub fn print_text(&mut self, code: &Code, line: bool, text: &Cell) -> Result<Turn, Memory>
        requires { self.now.place < most_place }
        ensures is { IfOk result (λ turn. turned turn self.new
            ≡ answered (call.print_text (text_bytes code.now) line (world_of self.old.world) (low text.now))
            (machine_of self.old)) }
        ensures quiet { IsQuiet (came_still result) self.old.world self.new.world }
    {
        match text_in(text) {
            Some(number) => self.write_out(line, text_of(code, number)),
            None => Ok(Turn::Stuck),
        }
    }

    /// `print` and `printLn` of an integer.
    pub fn print_number(&mut self, line: bool, number: &Cell) -> Result<Turn, Memory>
        requires { self.now.place < most_place }
        ensures is { IfOk result (λ turn. turned turn self.new
            ≡ answered (call.print_number line (world_of self.old.world) (low number.now))
            (machine_of self.old)) }
        ensures quiet { IsQuiet (came_still result) self.old.world self.new.world }
    {
        match number_in(number) {
            Some((_kind, z)) => {
                let mut digits = Buffer::new();
                self.write_out(line, digits.format(z).as_bytes())
            }
            None => Ok(Turn::Stuck),
        }
    }

    /// `print` and `printLn` of a Bool.
    pub fn print_truth(&mut self, line: bool, truth: &Cell) -> Result<Turn, Memory>
        requires { self.now.place < most_place }
        ensures is { IfOk result (λ turn. turned turn self.new
            ≡ answered (call.print_truth line (world_of self.old.world) (low truth.now))
            (machine_of self.old)) }
        ensures quiet { IsQuiet (came_still result) self.old.world self.new.world }
    {
        match truth_in(truth) {
            Some(truth) => self.write_out(line, word_of(truth)),
            None => Ok(Turn::Stuck),
        }
    }

    /// `abort`: aborts with a text.
    pub fn abort(&mut self, text: &Cell) -> Turn
        ensures is { turned result self.new
            ≡ answered (call.abort_call (world_of self.old.world) (low text.now)) (machine_of self.old) }
        ensures quiet { IsQuiet (is_still result) self.old.world self.new.world }
    {
        match text_in(text) {
            Some(number) => {
                self.why = AbortKind::Called(number);
                Turn::Aborts
            }
            None => Turn::Stuck,
        }
    }

    /// `spanLength`: pushes how many bytes a text has.
    pub fn span_length(&mut self, code: &Code, text: &Cell) -> Result<Turn, Memory>
        requires { self.now.place < most_place }
        ensures is { IfOk result (λ turn. turned turn self.new
            ≡ answered (call.span_length (text_bytes code.now) (world_of self.old.world) (low text.now))
            (machine_of self.old)) }
        ensures quiet { IsQuiet (came_still result) self.old.world self.new.world }
    {
        match text_in(text) {
            Some(number) => self.push(Cell::Index(text_of(code, number).len() as u64)),
            None => Ok(Turn::Stuck),
        }
    }
}
