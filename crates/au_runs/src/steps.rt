//! The steps of a machine: the next instruction, what it does, and one that waited for a byte.

ghost use Rattle.std.specs.Prelude.{◌≡◌, ◌<◌, IfOk, IfSome};
ghost use Rattle.std.specs.Option.{option_copied};
ghost use Rattle.au_low.specs.Instructions.{act};
ghost use Rattle.au_low.specs.Runs.{fetched, heard};
ghost use Rattle.au_machine.specs.States.{machine_of, turned, came, most_place, IsQuiet, came_still};
ghost use Rattle.au_runs.specs.Orders.{heard_by};

use crate::calling::{call, wrap};
use crate::looping::{for_step, for_test};
use crate::shipping::{hear_call, ship};
use au_base::Memory;
use au_low::{Code, Instr, Mode};
use au_machine::{State, Turn};
use au_strides::ends::{function_at, instr_at};
use std::alloc::Global;

/// Does an instruction.
///
/// # Errors
///
/// `Memory` when memory runs out.
#[inline(always)]
pub fn act(state: &mut State, alloc: Global, code: &Code, instr: &Instr) -> Result<Turn, Memory>
    requires { state.now.place < most_place }
    ensures is { IfOk result (λ turn. came turn state.new (act code.now instr.now (machine_of state.old))) }
    ensures quiet { IsQuiet (came_still result) state.old.world state.new.world }
{
    match instr {
        Instr::Push { kind, value } => state.push_number(*kind, *value),
        Instr::PushBool(value) => state.push_truth(*value),
        Instr::PushUnit => state.push_unit(),
        Instr::PushText(text) => state.push_text(code, *text),
        Instr::Look { slot, path } => state.look(alloc, *slot, path.as_slice()),
        Instr::Move(slot) => state.take(*slot),
        Instr::Store(slot) => Ok(state.store_top(*slot)),
        Instr::Set { slot, path } => Ok(state.put_top(*slot, path.as_slice())),
        Instr::Discard => Ok(state.discard()),
        Instr::Arith { op, kind } => state.arith(*op, *kind),
        Instr::Wrap { op, kind, order } => wrap(state, *op, *kind, order.as_slice()),
        Instr::Compare { order, kind } => state.compare(*order, *kind),
        Instr::Not => state.negate(),
        Instr::Convert(kind) => state.convert(alloc, *kind),
        Instr::Jump(label) => Ok(state.jump(code, *label)),
        Instr::JumpNot(label) => Ok(state.jump_not(code, *label)),
        Instr::ForTest {
            counter,
            last,
            label,
        } => Ok(for_test(state, code, *counter, *last, *label)),
        Instr::ForStep {
            counter,
            last,
            label,
        } => Ok(for_step(state, code, *counter, *last, *label)),
        Instr::Make {
            of,
            tag,
            order,
            module,
        } => { state.make(alloc, code, *of, *tag, order.as_slice(), module) }
        Instr::Take(slot) => state.take_record(*slot),
        Instr::Case { slot, labels } => state.take_case(alloc, code, *slot, labels.as_slice()),
        Instr::Call { function, order } => call(state, alloc, code, *function, order.as_slice()),
        Instr::Shipped { call, of, order } => ship(
            state,
            alloc,
            code,
            *call,
            *of,
            order.as_slice(),
        ),
        Instr::Return => state.return_top(),
        Instr::Read { slot, path } => state.read(alloc, *slot, path.as_slice()),
        Instr::Put { slot, path } => state.put_through(alloc, *slot, path.as_slice()),
        Instr::Deref => state.deref(alloc),
        Instr::Open { slot, mode } => state.borrow_slot(alloc, *slot, *mode),
        Instr::Again(slot) => state.borrow(alloc, Mode::Again, *slot),
        Instr::Part { slot, path } => state.part_of(alloc, *slot, path.as_slice()),
        Instr::Bind { from, into, mode } => state.bind(alloc, *from, *into, *mode),
        Instr::Close(count) => state.close(*count),
    }
}

/// The instruction at the place that a state has reached.
#[inline(always)]
pub fn fetched<'a>(state: &State, code: &'a Code) -> Option<&'a Instr>
    ensures is { option_copied result ≡ fetched code.now (machine_of state.now) }
    ensures place { IfSome result (λ instr. state.now.place < most_place) }
{
    match function_at(code, state.function) {
        Some(function) => instr_at(function.code.as_slice(), state.place),
        None => None,
    }
}

/// Goes on with this instruction, which waits for a byte.
fn hear_instr(
    state: &mut State,
    alloc: Global,
    instr: &Instr,
    byte: Option<u8>,
) -> Result<Turn, Memory>
    requires { state.now.place < most_place }
    ensures is { IfOk result (λ turn. turned turn state.new
        ≡ heard_by byte instr.now (machine_of state.old)) }
    ensures quiet { IsQuiet (came_still result) state.old.world state.new.world }
{
    match instr {
        Instr::Shipped {
            call,
            of: _of,
            order,
        } => { hear_call(state, alloc, *call, byte, order.as_slice()) }
        _ => Ok(Turn::Stuck),
    }
}

/// Goes on with an instruction that waits for a byte of the input, once it has come, or none was left.
///
/// # Errors
///
/// `Memory` when memory runs out.
pub fn hear(state: &mut State, alloc: Global, code: &Code, byte: Option<u8>) -> Result<Turn, Memory>
    ensures is { IfOk result (λ turn. came turn state.new (heard code.now byte (machine_of state.old))) }
    ensures quiet { IsQuiet (came_still result) state.old.world state.new.world }
{
    match fetched(state, code) {
        Some(instr) => hear_instr(state, alloc, instr, byte),
        None => Ok(Turn::Stuck),
    }
}
