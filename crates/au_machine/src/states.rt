//! The state of a running machine.

ghost use Rattle.std.specs.Prelude.{◌≡◌, ◌<◌, ◌+◌, [], IfOk, IfSome, MatchOption, length, IsTrue, ◌↔◌, false};
ghost use Rattle.std.specs.Prelude.{not};
ghost use Rattle.std.specs.Option.{option_map, option_copied};
ghost use Rattle.au_effects.specs.Places.{at};
ghost use Rattle.au_low.specs.Machines.{goes, onward, pushed, pushes, in_slot, has_slot, slot_set};
ghost use Rattle.au_low.specs.Instructions.{comes, slot_part, stores, puts};
ghost use Rattle.au_cells.specs.Cells.{low, result_of};
ghost use Rattle.au_machine.specs.States.{machine_of, turned, most_place, IsQuiet, came_still, is_still};
ghost use Rattle.au_machine.specs.States.{told};

use au_base::Memory;
use au_cells::{Cell, Computed, Piles};
use au_shipped::AbortKind;
use au_stores::World;

/// Where a frame goes on that waits for another.
#[derive(Clone, Copy)]
pub struct Back {
    /// Its function.
    pub function: usize,
    /// The place in its instructions.
    pub place: usize,
}

/// What an instruction came to.
#[derive(Clone, Copy)]
pub enum Turn {
    /// The run goes on.
    Goes,
    /// The run goes on once the state's bytes are written.
    Writes,
    /// It waits for the next byte of the input.
    Waits,
    /// The run ended in success.
    Succeeds,
    /// The run ended in failure.
    Fails,
    /// The program aborted; why is in the state.
    Aborts,
    /// No rule applies.
    Stuck,
}

/// The state of a running machine.
#[derive(Drop)]
pub struct State {
    /// The function that runs.
    pub function: usize,
    /// The place of the next of its instructions.
    pub place: usize,
    /// The operands of each frame, the newest last.
    pub operands: Piles<Cell>,
    /// The open borrows of each frame, the newest last.
    pub borrows: Piles<u64>,
    /// Where the frames go on that wait, the newest last.
    pub backs: Vec<Back>,
    /// The slots of the frames, the births and the events.
    pub world: World,
    /// What is to be written.
    pub bytes: Vec<u8>,
    /// Why the program aborted, where it did.
    pub why: AbortKind,
}

impl State {
    /// Goes on to the next instruction.
    #[inline(always)]
    pub fn go(&mut self) -> Turn
        requires { self.now.place < most_place }
        ensures is { turned result self.new ≡ goes (onward (machine_of self.old)) }
        ensures moves { is_still result ≡ false }
    {
        self.place += 1;
        Turn::Goes
    }

    /// Pops an operand.
    #[inline(always)]
    pub fn pop(&mut self) -> Option<Cell>
        ensures is { MatchOption result
            ((machine_of self.old).operands ≡ [])
            (λ x. machine_of self.old ≡ pushed (low x) (machine_of self.new)) }
        ensures place { self.new.place ≡ self.old.place }
        ensures world { self.new.world ≡ self.old.world }
    {
        self.operands.pop()
    }

    /// Pushes an operand, and goes on.
    ///
    /// # Errors
    ///
    /// `Memory` when memory runs out.
    #[inline(always)]
    pub fn push(&mut self, cell: Cell) -> Result<Turn, Memory>
        requires { self.now.place < most_place }
        ensures is { IfOk result (λ turn. turned turn self.new ≡ pushes (low cell) (machine_of self.old)) }
        ensures moves { came_still result ≡ false }
    {
        self.operands.push(cell)?;
        self.place += 1;
        Ok(Turn::Goes)
    }

    /// Pushes what an operation came to, or aborts.
    ///
    /// # Errors
    ///
    /// `Memory` when memory runs out.
    #[inline(always)]
    pub fn come(&mut self, computed: Computed) -> Result<Turn, Memory>
        requires { self.now.place < most_place }
        ensures is { IfOk result (λ turn. turned turn self.new
            ≡ comes (result_of computed) (machine_of self.old)) }
        ensures quiet { IsQuiet (came_still result) self.old.world self.new.world }
    {
        match computed {
            Computed::Value(cell) => self.push(cell),
            Computed::Fault => {
                self.why = AbortKind::Arithmetic;
                Ok(Turn::Aborts)
            }
            Computed::NoRule => Ok(Turn::Stuck),
        }
    }

    /// Whether the running frame has a slot.
    #[inline(always)]
    pub fn has(&self, slot: u32) -> bool
        ensures is { result ≡ has_slot slot (machine_of self.now) }
        ensures slots { IsTrue result ↔ (slot < length self.now.world.slots.0) }
    {
        self.world.has_slot(slot)
    }

    /// What a slot of the running frame holds.
    #[inline(always)]
    pub fn held_value(&self, slot: u32) -> Option<&Cell>
        ensures is { option_map low (option_copied result) ≡ in_slot slot (machine_of self.now) }
        ensures slots { IfSome result (λ cell. slot < length self.now.world.slots.0) }
    {
        match self.world.in_slot(slot) {
            Some(cell) => Some(cell),
            None => None,
        }
    }

    /// What a part of a slot of the running frame holds.
    #[inline(always)]
    pub fn part(&self, slot: u32, path: &[u32]) -> Option<&Cell>
        ensures { option_map low (option_copied result)
            ≡ at (slot_part slot path.now (machine_of self.now)) (machine_of self.now).world }
    {
        self.world.slot_part(slot, path)
    }

    /// Puts a value into a slot of the running frame, or empties it.
    #[inline(always)]
    pub fn fill(&mut self, slot: u32, held_value: Option<Cell>) -> Option<Cell>
        requires { slot < length self.old.world.slots.0 }
        ensures new { machine_of self.new ≡ slot_set slot (option_map low held_value) (machine_of self.old) }
        ensures old { option_map low result ≡ in_slot slot (machine_of self.old) }
        ensures place { self.new.place ≡ self.old.place }
        ensures told { told self.new.world ≡ told self.old.world }
    {
        self.world.set_slot(slot, held_value)
    }

    /// Puts a value into a slot of the running frame, and goes on.
    #[inline(always)]
    pub fn store(&mut self, slot: u32, cell: Cell) -> Turn
        requires { self.now.place < most_place }
        ensures is { turned result self.new ≡ stores slot (low cell) (machine_of self.old) }
        ensures moves { is_still result ≡ not (has_slot slot (machine_of self.old)) }
        ensures quiet { IsQuiet (is_still result) self.old.world self.new.world }
    {
        if !self.has(slot) {
            return Turn::Stuck;
        }
        self.fill(slot, Some(cell));
        self.go()
    }

    /// Puts a value into a slot of the running frame that holds one, and goes on.
    #[inline(always)]
    pub fn put_whole(&mut self, slot: u32, cell: Cell) -> Turn
        requires { self.now.place < most_place }
        ensures is { turned result self.new
            ≡ puts (slot_part slot [] (machine_of self.old)) (low cell) (machine_of self.old) }
        ensures quiet { IsQuiet (is_still result) self.old.world self.new.world }
    {
        match self.held_value(slot) {
            Some(_) => {
                self.fill(slot, Some(cell));
                self.go()
            }
            None => Turn::Stuck,
        }
    }

    /// Puts a value into a part of a slot of the running frame, and goes on.
    pub fn put(&mut self, slot: u32, path: &[u32], cell: Cell) -> Turn
        requires { self.now.place < most_place }
        ensures is { turned result self.new
            ≡ puts (slot_part slot path.now (machine_of self.old)) (low cell) (machine_of self.old) }
        ensures quiet { IsQuiet (is_still result) self.old.world self.new.world }
    {
        if path.is_empty() {
            return self.put_whole(slot, cell);
        }
        match self.world.put_part(slot, path, cell) {
            Some(_old) => self.go(),
            None => Turn::Stuck,
        }
    }
}
