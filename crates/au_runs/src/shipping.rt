//! The instruction that does a shipped call: its arguments are popped by its order.

ghost use Rattle.std.specs.Prelude.{◌≡◌, ◌<◌, ◌∷◌, [], IfOk, nat_lt, length};
ghost use Rattle.au_effects.specs.Calls.{arity, shipped, of_one, byte_read};
ghost use Rattle.au_low.specs.Machines.{where_true};
ghost use Rattle.au_low.specs.Instructions.{answered, is_type, shipped_arguments, text_bytes};
ghost use Rattle.au_machine.specs.States.{machine_of, turned, most_place, IsQuiet, came_still};
ghost use Rattle.au_runs.specs.Orders.{arguments};

use crate::arguing::{pop_one, pop_pair, pop_three};
use au_base::Memory;
use au_low::Code;
use au_machine::calling_shipped::arity;
use au_machine::{State, Turn};
use au_shipped::ShippedCall;
use std::alloc::Global;

/// Whether a number is that of a type, if one is given.
fn is_type(code: &Code, of: Option<u32>) -> bool
    ensures { result ≡ is_type code.now of }
{
    match of {
        Some(of) => (of as usize) < code.types.len(),
        None => true,
    }
}

/// Does a shipped call without arguments.
///
/// # Errors
///
/// `Memory` when memory runs out, as in the calls below.
fn with_none(
    state: &mut State,
    alloc: Global,
    code: &Code,
    call: ShippedCall,
    of: Option<u32>,
    order: &[u32],
) -> Result<Turn, Memory>
    requires place { state.now.place < most_place }
    requires arity { arity call ≡ 0 }
    ensures is { IfOk result (λ turn. turned turn state.new ≡ arguments 0 order.now (machine_of state.old)
        (λ values m. answered (shipped (text_bytes code.now) call of m.world values) m)) }
    ensures quiet { IsQuiet (came_still result) state.old.world state.new.world }
{
    if !order.is_empty() {
        return Ok(Turn::Stuck);
    }
    match of {
        Some(of) => state.make_empty(alloc, of),
        None => Ok(Turn::Stuck),
    }
}

/// Does a shipped call of one argument.
fn with_one(
    state: &mut State,
    alloc: Global,
    code: &Code,
    call: ShippedCall,
    of: Option<u32>,
    order: &[u32],
) -> Result<Turn, Memory>
    requires { state.now.place < most_place }
    ensures is { IfOk result (λ turn. turned turn state.new ≡ arguments 1 order.now (machine_of state.old)
        (λ values m. answered (shipped (text_bytes code.now) call of m.world values) m)) }
    ensures quiet { IsQuiet (came_still result) state.old.world state.new.world }
{
    match pop_one(state, order) {
        Some(a) => state.shipped_with(alloc, code, call, of, a),
        None => Ok(Turn::Stuck),
    }
}

/// Does a shipped call of two arguments.
fn with_two(
    state: &mut State,
    alloc: Global,
    code: &Code,
    call: ShippedCall,
    of: Option<u32>,
    order: &[u32],
) -> Result<Turn, Memory>
    requires { state.now.place < most_place }
    ensures is { IfOk result (λ turn. turned turn state.new ≡ arguments 2 order.now (machine_of state.old)
        (λ values m. answered (shipped (text_bytes code.now) call of m.world values) m)) }
    ensures quiet { IsQuiet (came_still result) state.old.world state.new.world }
{
    match pop_pair(state, order) {
        Some((a, b)) => state.shipped_with_two(alloc, code, call, of, a, b),
        None => Ok(Turn::Stuck),
    }
}

/// Does a shipped call of three arguments.
fn with_three(
    state: &mut State,
    alloc: Global,
    code: &Code,
    call: ShippedCall,
    of: Option<u32>,
    order: &[u32],
) -> Result<Turn, Memory>
    requires { state.now.place < most_place }
    ensures is { IfOk result (λ turn. turned turn state.new ≡ arguments 3 order.now (machine_of state.old)
        (λ values m. answered (shipped (text_bytes code.now) call of m.world values) m)) }
    ensures quiet { IsQuiet (came_still result) state.old.world state.new.world }
{
    match pop_three(state, alloc, order)? {
        Some((a, b, c)) => state.shipped_with_three(code, call, of, a, b, c),
        None => Ok(Turn::Stuck),
    }
}

/// Pops the arguments of a shipped call, and does it.
#[inline(never)]
pub fn ship(
    state: &mut State,
    alloc: Global,
    code: &Code,
    call: ShippedCall,
    of: Option<u32>,
    order: &[u32],
) -> Result<Turn, Memory>
    requires { state.now.place < most_place }
    ensures is { IfOk result (λ turn. turned turn state.new ≡ where_true (is_type code.now of)
        (shipped_arguments call order.now (machine_of state.old)
        (λ values m. answered (shipped (text_bytes code.now) call of m.world values) m))) }
    ensures quiet { IsQuiet (came_still result) state.old.world state.new.world }
{
    if !is_type(code, of) {
        return Ok(Turn::Stuck);
    }
    match arity(call) {
        0 => with_none(state, alloc, code, call, of, order),
        1 => with_one(state, alloc, code, call, of, order),
        2 => with_two(state, alloc, code, call, of, order),
        _ => with_three(state, alloc, code, call, of, order),
    }
}

/// Pops the argument of a shipped call that waited for a byte, and goes on with the byte, or with none where
/// none was left.
pub fn hear_call(
    state: &mut State,
    alloc: Global,
    call: ShippedCall,
    byte: Option<u8>,
    order: &[u32],
) -> Result<Turn, Memory>
    requires { state.now.place < most_place }
    ensures is { IfOk result (λ turn. turned turn state.new
        ≡ shipped_arguments call order.now (machine_of state.old)
        (λ values m. answered (of_one (byte_read byte m.world) values) m)) }
    ensures quiet { IsQuiet (came_still result) state.old.world state.new.world }
{
    if arity(call) != 1 {
        return Ok(Turn::Stuck);
    }
    match pop_one(state, order) {
        Some(a) => state.hear_byte(alloc, byte, &a),
        None => Ok(Turn::Stuck),
    }
}
