//! The instructions that go to labels.

ghost use Rattle.std.specs.Prelude.{◌≡◌, ◌<◌, nat_lt, length, slice_get, not};
ghost use Rattle.au_effects.specs.Numbers.{truth_in};
ghost use Rattle.au_low.specs.Machines.{popping, having};
ghost use Rattle.au_low.specs.Instructions.{instructions, jumps, jumps_unless};
ghost use Rattle.au_machine.specs.States.{machine_of, turned, most_place, IsQuiet, is_still};

use crate::states::{State, Turn};
use au_cells::forms::truth_in;
use au_low::Code;

/// Whether a function has an instruction of a number.
#[inline(always)]
pub fn has_label(code: &Code, function: usize, label: u32) -> bool
    ensures { result ≡ nat_lt label (length (instructions (slice_get code.now.functions function))) }
{
    match code.functions.as_slice().get(function) {
        Some(function) => (label as usize) < function.code.len(),
        None => false,
    }
}

impl State {
    /// Goes to a label.
    #[inline(always)]
    pub fn jump(&mut self, code: &Code, label: u32) -> Turn
        ensures is { turned result self.new ≡ jumps code.now label (machine_of self.old) }
        ensures moves { is_still result ≡ not (nat_lt label
            (length (instructions (slice_get code.now.functions self.old.function)))) }
        ensures quiet { IsQuiet (is_still result) self.old.world self.new.world }
    {
        if !has_label(code, self.function, label) {
            return Turn::Stuck;
        }
        self.place = label as usize;
        Turn::Goes
    }

    /// Goes to a label where a test is false.
    #[inline(always)]
    pub fn jump_unless(&mut self, code: &Code, label: u32, test: bool) -> Turn
        requires { self.now.place < most_place }
        ensures is { turned result self.new ≡ jumps_unless code.now label (machine_of self.old) test }
        ensures quiet { IsQuiet (is_still result) self.old.world self.new.world }
    {
        if test {
            return self.go();
        }
        self.jump(code, label)
    }

    /// Pops a truth value, and goes to a label where it is false.
    #[inline(always)]
    pub fn jump_not(&mut self, code: &Code, label: u32) -> Turn
        requires { self.now.place < most_place }
        ensures is { turned result self.new ≡ popping (machine_of self.old).operands (machine_of self.old)
            (λ value m. having (truth_in value) (jumps_unless code.now label m)) }
        ensures quiet { IsQuiet (is_still result) self.old.world self.new.world }
    {
        let Some(cell) = self.pop() else {
            return Turn::Stuck;
        };
        let Some(test) = truth_in(&cell) else {
            return Turn::Stuck;
        };
        self.jump_unless(code, label, test)
    }
}
