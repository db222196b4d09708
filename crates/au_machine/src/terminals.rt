//! The shipped calls on the terminal and on the root.

ghost use Rattle.std.specs.Prelude.{◌≡◌, ◌<◌, Some, IfOk};
ghost use Rattle.std.specs.Option.{option_map};
ghost use Rattle.au_base.specs.declared.kinds.IntKind.TheVariants.{Nat8};
ghost use Rattle.au_effects.specs.Numbers.{number_of};
ghost use Rattle.au_effects.specs.Values.{optional};
ghost use Rattle.au_effects.specs.Calls as call;
ghost use Rattle.au_low.specs.Instructions.{answered};
ghost use Rattle.au_cells.specs.Cells.{low};
ghost use Rattle.au_stores.specs.Stores.{world_of, reached_by};
ghost use Rattle.au_machine.specs.States.{machine_of, turned, most_place, IsQuiet, came_still};

use crate::states::{State, Turn};
use au_base::Memory;
use au_cells::Cell;
use au_cells::forms::{optional, reference_in, root_in, terminal_in};
use au_stores::{Answered, World};
use std::alloc::Global;

/// The borrow of a reference to a terminal, and the terminal's birth.
fn terminal_reached(world: &World, reference: &Cell) -> Option<(u64, u64)>
    ensures { result ≡ reached_by call.terminal_in (low reference.now) (world_of world.now) }
{
    let one = reference_in(reference)?;
    let held_value = world.at(one)?;
    let id = terminal_in(held_value)?;
    Some((one.borrow, id))
}

/// The byte that a value is.
fn byte_in(cell: &Cell) -> Option<u8>
    ensures { result ≡ call.natural_in (number_of Nat8 (low cell.now)) }
{
    match cell {
        Cell::Nat8(n) => Some(*n),
        _ => None,
    }
}

/// The byte that was read, as a value.
#[tactic(auto, using(crate::proofs::StateLemmas::cell_equations))]
fn byte_cell(byte: Option<u8>) -> Option<Cell>
    ensures { option_map low result ≡ call.byte_value byte }
{
    match byte {
        Some(byte) => Some(Cell::Nat8(byte)),
        None => None,
    }
}

/// What was read, as an Option: one that is none where no byte was left.
fn heard_value(alloc: Global, byte: Option<u8>) -> Result<Cell, Memory>
    ensures { IfOk result (λ cell. low cell ≡ optional (call.byte_value byte)) }
{
    optional(alloc, byte_cell(byte))
}

impl State {
    /// `surrenderRoot`: consumes the root.
    ///
    /// # Errors
    ///
    /// `Memory` when memory runs out, as in the calls below.
    pub fn surrender_root(&mut self, root: &Cell) -> Result<Turn, Memory>
        requires { self.now.place < most_place }
        ensures is { IfOk result (λ turn. turned turn self.new
            ≡ answered (call.surrender_root (world_of self.old.world) (low root.now)) (machine_of self.old)) }
        ensures quiet { IsQuiet (came_still result) self.old.world self.new.world }
    {
        let Some(id) = root_in(root) else {
            return Ok(Turn::Stuck);
        };
        self.world.spend(Some(id))?;
        self.answer(Answered::Gives(Cell::Unit))
    }

    /// `acquireTerminal`: pushes a new terminal of a type, for a reference to the root.
    pub fn acquire_terminal(
        &mut self,
        alloc: Global,
        of: u32,
        reference: &Cell,
    ) -> Result<Turn, Memory>
        requires { self.now.place < most_place }
        ensures is { IfOk result (λ turn. turned turn self.new
            ≡ answered (call.acquire_terminal (Some of) (world_of self.old.world) (low reference.now))
            (machine_of self.old)) }
        ensures quiet { IsQuiet (came_still result) self.old.world self.new.world }
    {
        let one = self.world.acquire_terminal(alloc, of, reference)?;
        self.answer(one)
    }

    /// `releaseTerminal`: consumes a terminal.
    pub fn release_terminal(&mut self, terminal: &Cell) -> Result<Turn, Memory>
        requires { self.now.place < most_place }
        ensures is { IfOk result (λ turn. turned turn self.new
            ≡ answered (call.release_terminal (world_of self.old.world) (low terminal.now))
            (machine_of self.old)) }
        ensures quiet { IsQuiet (came_still result) self.old.world self.new.world }
    {
        let Some(id) = terminal_in(terminal) else {
            return Ok(Turn::Stuck);
        };
        self.world.spend(Some(id))?;
        self.answer(Answered::Gives(Cell::Unit))
    }

    /// `writeByte`: writes a byte to the terminal that a reference reaches.
    pub fn write_byte(&mut self, reference: &Cell, byte: &Cell) -> Result<Turn, Memory>
        requires { self.now.place < most_place }
        ensures is { IfOk result (λ turn. turned turn self.new
            ≡ answered (call.write_byte (world_of self.old.world) (low reference.now) (low byte.now))
            (machine_of self.old)) }
        ensures quiet { IsQuiet (came_still result) self.old.world self.new.world }
    {
        let Some((borrow, _id)) = terminal_reached(&self.world, reference) else {
            return Ok(Turn::Stuck);
        };
        let Some(byte) = byte_in(byte) else {
            return Ok(Turn::Stuck);
        };
        self.world.tell_use(borrow)?;
        self.write_out(false, &[byte])
    }

    /// `readByte`: waits for the next byte of the input, where a reference reaches a terminal.
    pub fn read_byte(&self, reference: &Cell) -> Turn
        ensures { turned result self.now
            ≡ answered (call.read_byte (world_of self.now.world) (low reference.now)) (machine_of self.now) }
    {
        match terminal_reached(&self.world, reference) {
            Some(_) => Turn::Waits,
            None => Turn::Stuck,
        }
    }

    /// What `readByte` comes to when this byte has come, or none was left.
    pub fn hear_byte(
        &mut self,
        alloc: Global,
        byte: Option<u8>,
        reference: &Cell,
    ) -> Result<Turn, Memory>
        requires { self.now.place < most_place }
        ensures is { IfOk result (λ turn. turned turn self.new
            ≡ answered (call.byte_read byte (world_of self.old.world) (low reference.now))
            (machine_of self.old)) }
        ensures quiet { IsQuiet (came_still result) self.old.world self.new.world }
    {
        let Some((borrow, _id)) = terminal_reached(&self.world, reference) else {
            return Ok(Turn::Stuck);
        };
        let cell = heard_value(alloc, byte)?;
        self.world.tell_use(borrow)?;
        self.answer(Answered::Gives(cell))
    }
}
