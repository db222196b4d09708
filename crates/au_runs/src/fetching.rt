//! The next instruction of a state, which stays as it is where the instruction waits for a byte.

ghost use Rattle.std.specs.Prelude.{IfOk};
ghost use Rattle.au_low.specs.Runs.{next};
ghost use Rattle.au_machine.specs.States.{machine_of, came, came_still, IsQuiet};
ghost use Rattle.au_runs.specs.Steps.{WaitsAsBefore};

use crate::waiting::waits;
use crate::{act, fetched};
use au_base::Memory;
use au_low::Code;
use au_machine::{State, Turn};
use std::alloc::Global;

/// Does the next instruction. Where it waits for a byte of the input, the state stays as it is.
///
/// # Errors
///
/// `Memory` when memory runs out.
#[inline(always)]
pub fn next(state: &mut State, alloc: Global, code: &Code) -> Result<Turn, Memory>
    ensures came { IfOk result (λ turn. came turn state.new (next code.now (machine_of state.old))) }
    ensures waits { IfOk result (λ turn. WaitsAsBefore turn (machine_of state.old) (machine_of state.new)) }
    ensures quiet { IsQuiet (came_still result) state.old.world state.new.world }
{
    let Some(instr) = fetched(state, code) else {
        return Ok(Turn::Stuck);
    };
    if waits(state, instr) {
        return Ok(Turn::Waits);
    }
    act(state, alloc, code, instr)
}
