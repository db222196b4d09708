//! Making values, and taking them apart.

ghost use Rattle.std.specs.Prelude.{◌≡◌, IfOk};
ghost use Rattle.std.specs.Option.{option_map, option_copied};
ghost use Rattle.au_effects.specs.Values.{made, reference, fields_of, optional};
ghost use Rattle.au_effects.specs.Numbers.{truth_in, text_in};
ghost use Rattle.au_effects.specs.Calls.{root_in, box_in, buffer_in, terminal_in};
ghost use Rattle.au_effects.specs.References.{reference_in};
ghost use Rattle.au_cells.specs.Cells.{low, lows, place_of, lent, taken_apart, apart_of, case_counted};

use crate::cells::{Borrowed, Cell, Parts};
use au_base::Memory;
use std::alloc::Global;

/// The truth value that a value is.
#[tactic(auto, using(crate::proofs::CellLemmas::cell_steps))]
pub fn truth_in(cell: &Cell) -> Option<bool>
    ensures { result ≡ truth_in (low cell.now) }
{
    match cell {
        Cell::Truth(b) => Some(*b),
        _ => None,
    }
}

/// The text that a value is, by its number.
#[tactic(auto, using(crate::proofs::CellLemmas::cell_steps))]
pub fn text_in(cell: &Cell) -> Option<u32>
    ensures { result ≡ text_in (low cell.now) }
{
    match cell {
        Cell::Text(n) => Some(*n),
        _ => None,
    }
}

/// The birth of the box that a value is.
#[tactic(auto, using(crate::proofs::CellLemmas::cell_steps))]
pub fn box_in(cell: &Cell) -> Option<u64>
    ensures { result ≡ box_in (low cell.now) }
{
    match cell {
        Cell::BoxOf(id) => Some(*id),
        _ => None,
    }
}

/// The birth of the buffer that a value is.
#[tactic(auto, using(crate::proofs::CellLemmas::cell_steps))]
pub fn buffer_in(cell: &Cell) -> Option<u64>
    ensures { result ≡ buffer_in (low cell.now) }
{
    match cell {
        Cell::BufferOf(id) => Some(*id),
        _ => None,
    }
}

/// The birth of the terminal that a value is.
#[tactic(auto, using(crate::proofs::CellLemmas::cell_steps))]
pub fn terminal_in(cell: &Cell) -> Option<u64>
    ensures { result ≡ terminal_in (low cell.now) }
{
    match cell {
        Cell::Terminal(id) => Some(*id),
        _ => None,
    }
}

/// The birth of the root that a value is.
#[tactic(auto, using(crate::proofs::CellLemmas::cell_steps))]
pub fn root_in(cell: &Cell) -> Option<u64>
    ensures { result ≡ root_in (low cell.now) }
{
    match cell {
        Cell::Root(id) => Some(*id),
        _ => None,
    }
}

/// The reference that a value is.
#[tactic(auto, using(crate::proofs::CellLemmas::cell_steps))]
pub fn reference_in(cell: &Cell) -> Option<&Borrowed>
    ensures { option_map lent (option_copied result) ≡ reference_in (low cell.now) }
{
    match cell {
        Cell::Reference(one) => Some(one),
        _ => None,
    }
}

/// The number of the case of a value of a record or a union, and how many fields it has.
pub fn case_of(cell: &Cell) -> Option<(u32, usize)>
    ensures { result ≡ option_map case_counted (taken_apart (low cell.now)) }
{
    match cell {
        Cell::Made(parts) => Some((parts.tag, parts.fields.len())),
        _ => None,
    }
}

/// The parts of a value of a record or a union. Any other value is gone.
pub fn into_parts(cell: Cell) -> Option<Parts>
    ensures { option_map apart_of result ≡ taken_apart (low cell) }
{
    match cell {
        Cell::Made(parts) => Some(Box::into_inner(parts)),
        _ => None,
    }
}

/// A value of a record or a union.
///
/// # Errors
///
/// `Memory` when memory runs out.
#[tactic(auto, using(crate::proofs::CellLemmas::cell_steps))]
pub fn make(alloc: Global, tag: u32, birth: Option<u64>, fields: Vec<Cell>) -> Result<Cell, Memory>
    ensures { IfOk result (λ cell. low cell ≡ made tag birth (fields_of (lows fields.items))) }
{
    let parts = Parts { tag, birth, fields };
    Ok(Cell::Made(Box::new(alloc, parts)?))
}

/// A reference.
///
/// # Errors
///
/// `Memory` when memory runs out.
#[tactic(auto, using(crate::proofs::CellLemmas::cell_steps))]
pub fn make_reference(alloc: Global, one: Borrowed) -> Result<Cell, Memory>
    ensures { IfOk result (λ cell. low cell ≡ reference one.borrow (place_of one)) }
{
    Ok(Cell::Reference(Box::new(alloc, one)?))
}

/// The Option of a value: one that holds it, or one that is none where there is no value.
///
/// # Errors
///
/// `Memory` when memory runs out.
pub fn optional(alloc: Global, held: Option<Cell>) -> Result<Cell, Memory>
    ensures { IfOk result (λ cell. low cell ≡ optional (option_map low held)) }
{
    match held {
        None => make(alloc, 0, None, Vec::new(alloc)),
        Some(cell) => make_some(alloc, cell),
    }
}

fn make_some(alloc: Global, cell: Cell) -> Result<Cell, Memory>
    ensures { IfOk result (λ made. low made ≡ optional (Some (low cell))) }
{
    let fields = vec![in alloc; cell]?;
    make(alloc, 1, None, fields)
}
