//! The shipped calls on the root and on the terminal.

ghost use Rattle.std.specs.Prelude.{◌≡◌, Some, IfOk, OnOk, IsNone};
ghost use Rattle.std.specs.Option.{option_map};
ghost use Rattle.au_base.specs.declared.kinds.IntKind.TheVariants.{Nat8};
ghost use Rattle.au_effects.specs.Numbers.{number_of};
ghost use Rattle.au_effects.specs.Calls as call;
ghost use Rattle.au_cells.specs.Cells.{low};
ghost use Rattle.au_stores.specs.Stores.{world_of, top_frame, reached_by};
ghost use Rattle.au_stores.specs.Answers.{answer_of, waiting, writing};
ghost use Rattle.au_stores.specs.declared.answers.Answered.TheVariants.{NoRule};

use crate::answers::Answered;
use crate::worlds::{Held, World};
use au_base::Memory;
use au_cells::Cell;
use au_cells::forms::{optional, reference_in, root_in, terminal_in};
use au_low::Event;
use std::alloc::Global;

impl World {
    /// `surrenderRoot`: the root is consumed.
    ///
    /// # Errors
    ///
    /// `Memory` when memory runs out.
    pub fn surrender_root(&mut self, root: &Cell) -> Result<Answered, Memory>
        ensures does { IfOk result (λ one. answer_of one (world_of self.new)
            ≡ call.surrender_root (world_of self.old) (low root.now)) }
        ensures stays { IfOk result (λ one. one ≡ NoRule → world_of self.new ≡ world_of self.old) }
        ensures frame { OnOk result (top_frame self.new ≡ top_frame self.old) }
    {
        let Some(id) = root_in(root) else {
            return Ok(Answered::NoRule);
        };
        self.tell(Event::Consumed(id))?;
        Ok(Answered::Gives(Cell::Unit))
    }

    /// `releaseTerminal`: the terminal is consumed.
    ///
    /// # Errors
    ///
    /// `Memory` when memory runs out.
    pub fn release_terminal(&mut self, terminal: &Cell) -> Result<Answered, Memory>
        ensures does { IfOk result (λ one. answer_of one (world_of self.new)
            ≡ call.release_terminal (world_of self.old) (low terminal.now)) }
        ensures stays { IfOk result (λ one. one ≡ NoRule → world_of self.new ≡ world_of self.old) }
        ensures frame { OnOk result (top_frame self.new ≡ top_frame self.old) }
    {
        let Some(id) = terminal_in(terminal) else {
            return Ok(Answered::NoRule);
        };
        self.tell(Event::Consumed(id))?;
        Ok(Answered::Gives(Cell::Unit))
    }

    /// `acquireTerminal`: the root that a reference reaches is used, and a terminal of a type is born.
    ///
    /// # Errors
    ///
    /// `Memory` when memory runs out.
    pub fn acquire_terminal(
        &mut self,
        alloc: Global,
        of: u32,
        reference: &Cell,
    ) -> Result<Answered, Memory>
        ensures does { IfOk result (λ one. answer_of one (world_of self.new)
            ≡ call.acquire_terminal (Some of) (world_of self.old) (low reference.now)) }
        ensures stays { IfOk result (λ one. one ≡ NoRule → world_of self.new ≡ world_of self.old) }
        ensures frame { OnOk result (top_frame self.new ≡ top_frame self.old) }
    {
        let Some((borrow, _root)) = self.root_reached(reference) else {
            return Ok(Answered::NoRule);
        };
        self.tell_use(borrow)?;
        let id = self.bear(alloc, of, b"Standard.IO.Terminal", Held::Nothing)?;
        Ok(Answered::Gives(Cell::Terminal(id)))
    }

    /// Whether `readByte` waits for a byte of the input: the reference reaches a terminal.
    pub fn waits(&self, reference: &Cell) -> bool
        ensures { waiting result ≡ call.read_byte (world_of self.now) (low reference.now) }
    {
        self.terminal_reached(reference).is_some()
    }

    /// `readByte` when the byte that it waited for has come, or none was left: the terminal is used; gives an
    /// Option of the byte.
    ///
    /// # Errors
    ///
    /// `Memory` when memory runs out.
    pub fn hear(
        &mut self,
        alloc: Global,
        reference: &Cell,
        byte: Option<u8>,
    ) -> Result<Answered, Memory>
        ensures does { IfOk result (λ one. answer_of one (world_of self.new)
            ≡ call.byte_read byte (world_of self.old) (low reference.now)) }
        ensures stays { IfOk result (λ one. one ≡ NoRule → world_of self.new ≡ world_of self.old) }
        ensures frame { OnOk result (top_frame self.new ≡ top_frame self.old) }
    {
        let Some((borrow, _id)) = self.terminal_reached(reference) else {
            return Ok(Answered::NoRule);
        };
        self.tell_use(borrow)?;
        let given = optional(alloc, byte_held(byte))?;
        Ok(Answered::Gives(given))
    }

    /// `writeByte`: the terminal is used; gives the byte that is to be written. Where no rule applies there
    /// is none, and nothing changes.
    ///
    /// # Errors
    ///
    /// `Memory` when memory runs out.
    pub fn write_byte(&mut self, reference: &Cell, byte: &Cell) -> Result<Option<u8>, Memory>
        ensures does { IfOk result (λ one. writing one (world_of self.new)
            ≡ call.write_byte (world_of self.old) (low reference.now) (low byte.now)) }
        ensures stays { IfOk result (λ one. IsNone one → world_of self.new ≡ world_of self.old) }
        ensures frame { OnOk result (top_frame self.new ≡ top_frame self.old) }
    {
        let Some((borrow, _id)) = self.terminal_reached(reference) else {
            return Ok(None);
        };
        let Some(byte) = byte_in(byte) else {
            return Ok(None);
        };
        self.tell_use(borrow)?;
        Ok(Some(byte))
    }

    /// The borrow of a reference to a terminal, and the terminal's birth.
    fn terminal_reached(&self, reference: &Cell) -> Option<(u64, u64)>
        ensures { result ≡ reached_by call.terminal_in (low reference.now) (world_of self.now) }
    {
        let one = reference_in(reference)?;
        let held_value = self.at(one)?;
        let id = terminal_in(held_value)?;
        Some((one.borrow, id))
    }

    /// The borrow of a reference to the root, and the root's birth.
    fn root_reached(&self, reference: &Cell) -> Option<(u64, u64)>
        ensures { result ≡ reached_by call.root_in (low reference.now) (world_of self.now) }
    {
        let one = reference_in(reference)?;
        let held_value = self.at(one)?;
        let id = root_in(held_value)?;
        Some((one.borrow, id))
    }
}

/// The byte that a value is.
fn byte_in(cell: &Cell) -> Option<u8>
    ensures { result ≡ call.natural_in (number_of Nat8 (low cell.now)) }
{
    match cell {
        Cell::Nat8(n) => Some(*n),
        _ => None,
    }
}

/// The value that a byte is, if there is one.
#[tactic(auto, using(au_cells::proofs::CellLemmas::nat8_is))]
fn byte_held(byte: Option<u8>) -> Option<Cell>
    ensures { option_map low result ≡ call.byte_value byte }
{
    match byte {
        None => None,
        Some(n) => Some(Cell::Nat8(n)),
    }
}
