//! Whether an instruction waits for a byte of the input.

ghost use Rattle.std.specs.Prelude.{◌≡◌};
ghost use Rattle.au_effects.specs.Calls.{read_byte};
ghost use Rattle.au_low.specs.declared.code.Code.{Code};
ghost use Rattle.au_low.specs.Instructions.{act};
ghost use Rattle.au_cells.specs.Cells.{low};
ghost use Rattle.au_stores.specs.Stores.{world_of};
ghost use Rattle.au_machine.specs.States.{machine_of};
ghost use Rattle.au_runs.specs.Waits.{is_waiting, is_asking, is_read, is_of_one, waits_at, waits_in};

use au_cells::Cell;
use au_low::Instr;
use au_machine::{State, Turn};
use au_shipped::ShippedCall;

/// Whether a shipped call, with a type or without, is the one that reads a byte.
fn is_read(call: ShippedCall, of: Option<u32>) -> bool
    ensures { result ≡ is_read call of }
{
    match call {
        ShippedCall::ReadByte => of.is_none(),
        _ => false,
    }
}

/// Whether an order of one argument is one.
fn is_of_one(order: &[u32]) -> bool
    ensures { result ≡ is_of_one order.now }
{
    match order {
        [] => true,
        [index] => *index == 0,
        _ => false,
    }
}

/// Whether a call that reads a byte through this reference waits for it.
fn waits_through(state: &State, reference: &Cell) -> bool
    ensures { result ≡ is_asking (read_byte (world_of state.now.world) (low reference.now)) }
{
    match state.read_byte(reference) {
        Turn::Waits => true,
        _ => false,
    }
}

/// Whether a call that reads a byte waits for it, by the newest operand.
fn waits_at_top(state: &State) -> bool
    ensures { result ≡ waits_at (machine_of state.now).operands (machine_of state.now).world }
{
    let cells = state.operands.top();
    if cells.is_empty() {
        return false;
    }
    waits_through(state, &cells[cells.len() - 1])
}

/// Whether a shipped call waits for a byte.
#[inline(never)]
fn waits_in(state: &State, call: ShippedCall, of: Option<u32>, order: &[u32]) -> bool
    ensures { result ≡ waits_in call of order.now (machine_of state.now) }
{
    is_read(call, of) && is_of_one(order) && waits_at_top(state)
}

/// Whether an instruction waits for a byte.
#[inline(always)]
pub fn waits(state: &State, instr: &Instr) -> bool
    ensures { (code : Code) → result ≡ is_waiting (act code instr.now (machine_of state.now)) }
{
    match instr {
        Instr::Shipped { call, of, order } => waits_in(state, *call, *of, order.as_slice()),
        _ => false,
    }
}
