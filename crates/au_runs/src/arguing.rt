//! Arguments that are popped and put into declared order.

ghost use Rattle.std.specs.Prelude.{◌≡◌, ◌∷◌, [], List, length, reverse, Some, None, IfOk, OnOk, MatchOption};
ghost use Rattle.std.specs.Option.{option_map};
ghost use Rattle.au_low.specs.Machines.{Low, Machine, Next, stuck, popping_all, ordered};
ghost use Rattle.au_cells.specs.Cells.{low, lows};
ghost use Rattle.au_machine.specs.States.{machine_of};
ghost use Rattle.au_runs.specs.Orders.{arguments, crossing, is_single, backwards_of};

use au_base::Memory;
use au_cells::Cell;
use au_machine::State;
use au_machine::popping::{in_order, is_declared};
use std::alloc::Global;

/// Whether the order of two arguments turns them round, if it is one.
fn crossing(order: &[u32]) -> Option<bool>
    ensures { result ≡ crossing order.now }
{
    if order.is_empty() {
        return Some(false);
    }
    if order.len() != 2 {
        return None;
    }
    if order[0] == 0 && order[1] == 1 {
        return Some(false);
    }
    if order[0] == 1 && order[1] == 0 {
        return Some(true);
    }
    None
}

/// Arguments that come last first in the order of the text, last first in declared order.
pub fn arranged(
    alloc: Global,
    order: &[u32],
    values: Vec<Cell>,
) -> Result<Option<Vec<Cell>>, Memory>
    ensures { IfOk result (λ found. option_map backwards_of found
        ≡ ordered order.now (reverse (lows values.items))) }
{
    if order.len() == values.len() && is_declared(order) {
        return Ok(Some(values));
    }
    let Some(cells) = in_order(alloc, order, values)? else {
        return Ok(None);
    };
    let mut cells = cells;
    cells.reverse();
    Ok(Some(cells))
}

/// Whether the order of one argument is one.
fn is_of_one(order: &[u32]) -> bool
    ensures { result ≡ is_single order.now }
{
    order.is_empty() || (order.len() == 1 && order[0] == 0)
}

/// Pops an argument.
pub fn pop_one(state: &mut State, order: &[u32]) -> Option<Cell>
    ensures is { MatchOption result
        ((go : List Low → Machine → Next) → arguments 1 order.now (machine_of state.old) go ≡ stuck)
        (λ a. (go : List Low → Machine → Next)
        → arguments 1 order.now (machine_of state.old) go ≡ go (low a ∷ []) (machine_of state.new)) }
    ensures place { state.new.place ≡ state.old.place }
    ensures world { state.new.world ≡ state.old.world }
{
    let a = state.pop()?;
    if !is_of_one(order) {
        return None;
    }
    Some(a)
}

/// Pops two arguments.
pub fn pop_pair(state: &mut State, order: &[u32]) -> Option<(Cell, Cell)>
    ensures is { MatchOption result
        ((go : List Low → Machine → Next) → arguments 2 order.now (machine_of state.old) go ≡ stuck)
        (λ p. (go : List Low → Machine → Next) → arguments 2 order.now (machine_of state.old) go
        ≡ go (low p.0 ∷ low p.1 ∷ []) (machine_of state.new)) }
    ensures place { state.new.place ≡ state.old.place }
    ensures world { state.new.world ≡ state.old.world }
{
    let b = state.pop()?;
    let a = state.pop()?;
    let crossed = crossing(order)?;
    if crossed {
        return Some((b, a));
    }
    Some((a, b))
}

/// The three cells of a vector, if it has three.
fn three_of(cells: Vec<Cell>) -> Option<(Cell, Cell, Cell)>
    ensures { MatchOption result
        (length cells.items ≡ 3 → ⊥) (λ p. lows cells.items ≡ low p.0 ∷ low p.1 ∷ low p.2 ∷ []) }
{
    if cells.len() != 3 {
        return None;
    }
    let mut cells = cells;
    let c = cells.pop()?;
    let b = cells.pop()?;
    let a = cells.pop()?;
    Some((a, b, c))
}

/// A vector of three cells, the last one first.
fn vector_of(alloc: Global, a: Cell, b: Cell, c: Cell) -> Result<Vec<Cell>, Memory>
    ensures { IfOk result (λ cells. reverse (lows cells.items) ≡ low a ∷ low b ∷ low c ∷ []) }
{
    let mut cells = Vec::new(alloc);
    cells.push(c)?;
    cells.push(b)?;
    cells.push(a)?;
    Ok(cells)
}

/// Three arguments in declared order.
fn in_order_of_three(
    alloc: Global,
    order: &[u32],
    a: Cell,
    b: Cell,
    c: Cell,
) -> Result<Option<(Cell, Cell, Cell)>, Memory>
    ensures { IfOk result (λ found. MatchOption found
        (ordered order.now (low a ∷ low b ∷ low c ∷ []) ≡ None)
        (λ p. ordered order.now (low a ∷ low b ∷ low c ∷ []) ≡ Some (low p.0 ∷ low p.1 ∷ low p.2 ∷ []))) }
{
    let values = vector_of(alloc, a, b, c)?;
    let Some(cells) = in_order(alloc, order, values)? else {
        return Ok(None);
    };
    Ok(three_of(cells))
}

/// Three operands that are popped, of which the last was pushed last.
fn popped_three(state: &mut State) -> Option<(Cell, Cell, Cell)>
    ensures is { MatchOption result
        ((go : List Low → Machine → Next) → popping_all 3 (machine_of state.old) go ≡ stuck)
        (λ p. (go : List Low → Machine → Next) → popping_all 3 (machine_of state.old) go
        ≡ go (low p.0 ∷ low p.1 ∷ low p.2 ∷ []) (machine_of state.new)) }
    ensures place { state.new.place ≡ state.old.place }
    ensures world { state.new.world ≡ state.old.world }
{
    let c = state.pop()?;
    let b = state.pop()?;
    let a = state.pop()?;
    Some((a, b, c))
}

/// Pops three arguments.
///
/// # Errors
///
/// `Memory` when memory runs out.
pub fn pop_three(
    state: &mut State,
    alloc: Global,
    order: &[u32],
) -> Result<Option<(Cell, Cell, Cell)>, Memory>
    ensures is { IfOk result (λ found. MatchOption found
        ((go : List Low → Machine → Next) → arguments 3 order.now (machine_of state.old) go ≡ stuck)
        (λ p. (go : List Low → Machine → Next) → arguments 3 order.now (machine_of state.old) go
        ≡ go (low p.0 ∷ low p.1 ∷ low p.2 ∷ []) (machine_of state.new))) }
    ensures place { OnOk result (state.new.place ≡ state.old.place) }
    ensures world { OnOk result (state.new.world ≡ state.old.world) }
{
    let Some((a, b, c)) = popped_three(state) else {
        return Ok(None);
    };
    if order.is_empty() {
        return Ok(Some((a, b, c)));
    }
    let found = in_order_of_three(alloc, order, a, b, c)?;
    Ok(found)
}
