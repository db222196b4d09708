//! Copies, which are the same values.

ghost use Rattle.std.specs.Prelude.{◌≡◌, IfOk};
ghost use Rattle.au_effects.specs.Values.{reference};
ghost use Rattle.au_cells.specs.Cells.{low, lows, value_of, place_of};

use crate::cells::{Borrowed, Cell, Parts};
use au_base::{Memory, Sequence};
use std::alloc::Global;

/// The same path.
///
/// # Errors
///
/// `Memory` when memory runs out.
pub fn copy_path(alloc: Global, path: &[u32]) -> Result<Sequence<u32>, Memory>
    ensures { IfOk result (λ copy. copy ≡ path.now) }
{
    let path = path.to_vec(alloc)?;
    Ok(Sequence::from_vec(path))
}

/// A cell of the same value.
///
/// # Errors
///
/// `Memory` when memory runs out.
#[tactic(auto, using(crate::proofs::CellLemmas::cell_steps))]
#[cycle(copy)]
pub fn copy(alloc: Global, cell: &Cell) -> Result<Cell, Memory>
    ensures { IfOk result (λ copy. low copy ≡ low cell.now) }
{
    match cell {
        Cell::Unit => Ok(Cell::Unit),
        Cell::Truth(b) => Ok(Cell::Truth(*b)),
        Cell::Nat8(n) => Ok(Cell::Nat8(*n)),
        Cell::Nat16(n) => Ok(Cell::Nat16(*n)),
        Cell::Nat32(n) => Ok(Cell::Nat32(*n)),
        Cell::Nat64(n) => Ok(Cell::Nat64(*n)),
        Cell::Int8(n) => Ok(Cell::Int8(*n)),
        Cell::Int16(n) => Ok(Cell::Int16(*n)),
        Cell::Int32(n) => Ok(Cell::Int32(*n)),
        Cell::Int64(n) => Ok(Cell::Int64(*n)),
        Cell::Index(n) => Ok(Cell::Index(*n)),
        Cell::Text(n) => Ok(Cell::Text(*n)),
        Cell::Made(parts) => copy_made(alloc, parts),
        Cell::Reference(one) => copy_reference(alloc, one),
        Cell::BoxOf(id) => Ok(Cell::BoxOf(*id)),
        Cell::BufferOf(id) => Ok(Cell::BufferOf(*id)),
        Cell::Terminal(id) => Ok(Cell::Terminal(*id)),
        Cell::Root(id) => Ok(Cell::Root(*id)),
    }
}

#[tactic(auto, using(crate::proofs::CellLemmas::cell_steps))]
#[cycle(copy)]
fn copy_made(alloc: Global, parts: &Parts) -> Result<Cell, Memory>
    ensures { IfOk result (λ copy. low copy ≡ value_of parts.now) }
{
    let fields = copy_all(alloc, &parts.fields)?;
    let copy = Parts {
        tag: parts.tag,
        birth: parts.birth,
        fields,
    };
    Ok(Cell::Made(Box::new(alloc, copy)?))
}

/// Cells of the same values, each in its place.
///
/// # Errors
///
/// `Memory` when memory runs out.
#[tactic(auto, using(crate::proofs::CellLemmas::cell_steps))]
#[cycle(copy)]
pub fn copy_all(alloc: Global, cells: &Vec<Cell>) -> Result<Vec<Cell>, Memory>
    ensures { IfOk result (λ copies. lows copies.items ≡ lows cells.now.items) }
{
    let mut copies = Vec::new(alloc);
    for cell in cells {
        let copy = copy(alloc, cell)?;
        copies.push(copy)?;
    }
    Ok(copies)
}

#[tactic(auto, using(crate::proofs::CellLemmas::cell_steps))]
fn copy_reference(alloc: Global, one: &Borrowed) -> Result<Cell, Memory>
    ensures { IfOk result (λ copy. low copy ≡ reference one.now.borrow (place_of one.now)) }
{
    let path = copy_path(alloc, one.path.as_slice())?;
    let copy = Borrowed {
        borrow: one.borrow,
        start: one.start,
        path,
    };
    Ok(Cell::Reference(Box::new(alloc, copy)?))
}
