//! The state in which a run begins.

ghost use Rattle.std.specs.Prelude.{◌≡◌, true, false, IfOk};
ghost use Rattle.std.specs.Option.{option_map};
ghost use Rattle.au_low.specs.Runs.{first, first_machine, entry_begins};
ghost use Rattle.au_stores.specs.Stores.{world_of, top_frame};
ghost use Rattle.au_machine.specs.States.{machine_of};

use au_base::Memory;
use au_cells::Piles;
use au_low::{Code, Function};
use au_machine::State;
use au_shipped::AbortKind;
use au_stores::World;
use std::alloc::Global;

/// The state before the first step, in a world.
fn first_state(alloc: Global, world: World) -> State
    requires { top_frame world ≡ 0 }
    ensures { machine_of result ≡ first_machine (world_of world) }
{
    State {
        function: 0,
        place: 0,
        operands: Piles::new(alloc),
        borrows: Piles::new(alloc),
        backs: Vec::new(alloc),
        world,
        bytes: Vec::new(alloc),
        why: AbortKind::Arithmetic,
    }
}

/// The state in which an entry begins that takes the root.
fn with_root(
    alloc: Global,
    keep: bool,
    types: usize,
    entry: &Function,
) -> Result<Option<State>, Memory>
    ensures { IfOk result (λ s. option_map machine_of s ≡ entry_begins keep true types entry.now) }
{
    if entry.params != 1 || entry.slots == 0 || types == 0 {
        return Ok(None);
    }
    let world = World::with_root(alloc, keep, entry.slots)?;
    Ok(Some(first_state(alloc, world)))
}

/// The state in which an entry begins that doesn't take the root.
fn without_root(alloc: Global, keep: bool, entry: &Function) -> Result<Option<State>, Memory>
    ensures { IfOk result (λ s. option_map machine_of s ≡ entry_begins keep false 0 entry.now) }
{
    if entry.params != 0 {
        return Ok(None);
    }
    let world = World::with_slots(alloc, keep, entry.slots)?;
    Ok(Some(first_state(alloc, world)))
}

/// The state in which a run of code begins, if it can.
///
/// # Errors
///
/// `Memory` when memory runs out.
pub fn begun(alloc: Global, code: &Code, keep: bool) -> Result<Option<State>, Memory>
    ensures { IfOk result (λ s. option_map machine_of s ≡ first keep code.now) }
{
    match code.functions.as_slice().get(0) {
        None => Ok(None),
        Some(entry) if code.root => with_root(alloc, keep, code.types.len(), entry),
        Some(entry) => without_root(alloc, keep, entry),
    }
}
