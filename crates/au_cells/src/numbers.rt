//! Numbers, and operations on values.

ghost use Rattle.std.specs.Prelude.{◌≡◌, IfOk, IfSome};
ghost use Rattle.std.specs.Option.{option_map};
ghost use Rattle.au_ints.specs.Ranges.{IsOfKind};
ghost use Rattle.au_ints.specs.Operations.{trapped, converted};
ghost use Rattle.au_effects.specs.Values.{number, optional};
ghost use Rattle.au_effects.specs.Answers as answer;
ghost use Rattle.au_effects.specs.Numbers as effect;
ghost use Rattle.au_cells.specs.Cells.{low, result_of};

use crate::cells::{Cell, Computed};
use crate::forms::{optional, truth_in};
use au_base::{IntKind, Memory};
use au_ints::{IntOp, Order, WrapOp, compare, convert, trap, wrap};
use std::alloc::Global;

/// A number for each kind.
fn kind_number(kind: IntKind) -> u8
    ensures { result ≡ effect.kind_number kind }
{
    match kind {
        IntKind::Nat8 => 0,
        IntKind::Nat16 => 1,
        IntKind::Nat32 => 2,
        IntKind::Nat64 => 3,
        IntKind::Int8 => 4,
        IntKind::Int16 => 5,
        IntKind::Int32 => 6,
        IntKind::Int64 => 7,
        IntKind::Index => 8,
    }
}

/// The number that a value is, with its kind.
#[tactic(auto, using(crate::proofs::CellLemmas::cell_steps))]
pub fn number_in(cell: &Cell) -> Option<(IntKind, i128)>
    ensures is { result ≡ effect.number_in (low cell.now) }
    ensures within { IfSome result (λ one. IsOfKind one.0 one.1) }
{
    match cell {
        Cell::Nat8(n) => Some((IntKind::Nat8, *n as i128)),
        Cell::Nat16(n) => Some((IntKind::Nat16, *n as i128)),
        Cell::Nat32(n) => Some((IntKind::Nat32, *n as i128)),
        Cell::Nat64(n) => Some((IntKind::Nat64, *n as i128)),
        Cell::Int8(n) => Some((IntKind::Int8, *n as i128)),
        Cell::Int16(n) => Some((IntKind::Int16, *n as i128)),
        Cell::Int32(n) => Some((IntKind::Int32, *n as i128)),
        Cell::Int64(n) => Some((IntKind::Int64, *n as i128)),
        Cell::Index(n) => Some((IntKind::Index, *n as i128)),
        Cell::Unit => None,
        Cell::Truth(_) => None,
        Cell::Text(_) => None,
        Cell::Made(_) => None,
        Cell::Reference(_) => None,
        Cell::BoxOf(_) => None,
        Cell::BufferOf(_) => None,
        Cell::Terminal(_) => None,
        Cell::Root(_) => None,
    }
}

/// The number of a kind that a value is.
pub fn number_of(kind: IntKind, cell: &Cell) -> Option<i128>
    ensures is { result ≡ effect.number_of kind (low cell.now) }
    ensures within { IfSome result (λ z. IsOfKind kind z) }
{
    let (its, z) = number_in(cell)?;
    if kind_number(its) == kind_number(kind) {
        Some(z)
    } else {
        None
    }
}

/// The value that a number of a kind is.
#[tactic(auto, using(crate::proofs::CellLemmas::cell_steps))]
pub fn number(kind: IntKind, z: i128) -> Cell
    requires { IsOfKind kind z }
    ensures { low result ≡ number kind z }
{
    match kind {
        IntKind::Nat8 => Cell::Nat8(z as u8),
        IntKind::Nat16 => Cell::Nat16(z as u16),
        IntKind::Nat32 => Cell::Nat32(z as u32),
        IntKind::Nat64 => Cell::Nat64(z as u64),
        IntKind::Int8 => Cell::Int8(z as i8),
        IntKind::Int16 => Cell::Int16(z as i16),
        IntKind::Int32 => Cell::Int32(z as i32),
        IntKind::Int64 => Cell::Int64(z as i64),
        IntKind::Index => Cell::Index(z as u64),
    }
}

/// The exact result of two numbers of a kind, or an abort where there is none in the kind's range.
pub fn compute(op: IntOp, kind: IntKind, a: &Cell, b: &Cell) -> Computed
    ensures { result_of result ≡ effect.computed op kind (low a.now) (low b.now) }
{
    let Some(a) = number_of(kind, a) else {
        return Computed::NoRule;
    };
    let Some(b) = number_of(kind, b) else {
        return Computed::NoRule;
    };
    match trap(op, kind, a, b) {
        Some(z) => Computed::Value(number(kind, z)),
        None => Computed::Fault,
    }
}

/// The wrapped result of two numbers of a kind.
pub fn wrap_around(op: WrapOp, kind: IntKind, a: &Cell, b: &Cell) -> Computed
    ensures { result_of result ≡ effect.wrapped_around op kind (low a.now) (low b.now) }
{
    let Some(a) = number_of(kind, a) else {
        return Computed::NoRule;
    };
    let Some(b) = number_of(kind, b) else {
        return Computed::NoRule;
    };
    Computed::Value(number(kind, wrap(op, kind, a, b)))
}

/// Whether two numbers of a kind, or two truth values where no kind is given, stand in an order.
pub fn compare_cells(order: Order, kind: Option<IntKind>, a: &Cell, b: &Cell) -> Computed
    ensures { result_of result ≡ effect.compared order kind (low a.now) (low b.now) }
{
    match kind {
        Some(kind) => compare_numbers(order, kind, a, b),
        None => compare_truths(order, a, b),
    }
}

#[tactic(auto, using(crate::proofs::CellLemmas::cell_steps))]
fn compare_numbers(order: Order, kind: IntKind, a: &Cell, b: &Cell) -> Computed
    ensures { result_of result ≡ effect.compared order (Some kind) (low a.now) (low b.now) }
{
    let Some(a) = number_of(kind, a) else {
        return Computed::NoRule;
    };
    let Some(b) = number_of(kind, b) else {
        return Computed::NoRule;
    };
    Computed::Value(Cell::Truth(compare(order, a, b)))
}

fn compare_truths(order: Order, a: &Cell, b: &Cell) -> Computed
    ensures { result_of result ≡ effect.compared order None (low a.now) (low b.now) }
{
    let Some(a) = truth_in(a) else {
        return Computed::NoRule;
    };
    let Some(b) = truth_in(b) else {
        return Computed::NoRule;
    };
    compare_bools(order, a, b)
}

#[tactic(auto, using(crate::proofs::CellLemmas::cell_steps))]
fn compare_bools(order: Order, a: bool, b: bool) -> Computed
    ensures { result_of result ≡ effect.compared_truths order a b }
{
    match order {
        Order::Equal => Computed::Value(Cell::Truth(if a { b } else { !b })),
        Order::NotEqual => Computed::Value(Cell::Truth(if a { !b } else { b })),
        Order::Less => Computed::NoRule,
        Order::LessEqual => Computed::NoRule,
        Order::Greater => Computed::NoRule,
        Order::GreaterEqual => Computed::NoRule,
    }
}

/// The other truth value.
#[tactic(auto, using(crate::proofs::CellLemmas::cell_steps))]
pub fn negate(cell: &Cell) -> Computed
    ensures { result_of result ≡ effect.negated (low cell.now) }
{
    match truth_in(cell) {
        Some(b) => Computed::Value(Cell::Truth(!b)),
        None => Computed::NoRule,
    }
}

/// A number at another kind: an Option, which is none where that kind doesn't have it.
///
/// # Errors
///
/// `Memory` when memory runs out.
pub fn convert_cell(alloc: Global, to: IntKind, cell: &Cell) -> Result<Computed, Memory>
    ensures { IfOk result (λ r. result_of r ≡ effect.converted_value to (low cell.now)) }
{
    match number_in(cell) {
        Some((_, z)) => Ok(Computed::Value(optional(alloc, at_kind(to, z))?)),
        None => Ok(Computed::NoRule),
    }
}

fn at_kind(to: IntKind, z: i128) -> Option<Cell>
    ensures { option_map low result ≡ effect.at_kind to (converted to z) }
{
    match convert(to, z) {
        Some(z) => Some(number(to, z)),
        None => None,
    }
}
