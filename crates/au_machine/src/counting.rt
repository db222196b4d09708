//! Operations on numbers of the kinds that programs count with, each with its kind known; `au_cells` has
//! those of the other kinds.

ghost use Rattle.std.specs.Prelude.{◌≡◌, IfSome, Some};
ghost use Rattle.au_ints.specs.Ranges.{IsOfKind};
ghost use Rattle.au_ints.specs.Operations.{trapped};
ghost use Rattle.au_ints.specs.Orders.{truth_of};
ghost use Rattle.au_effects.specs.Values.{truth};
ghost use Rattle.au_effects.specs.Answers as answer;
ghost use Rattle.au_effects.specs.Numbers.{computed, compared, number_or_fault};
ghost use Rattle.au_cells.specs.Cells.{low, result_of};

use au_base::IntKind;
use au_cells::numbers::{compare_cells, compute, number};
use au_cells::{Cell, Computed};
use au_ints::{IntOp, Order, compare, trap};

/// The exact result of an operation, where there is one in the range of the kind. Each operation is a call
/// of its own, of which a few instructions are left where the kind is known.
#[inline(always)]
pub fn exact(op: IntOp, kind: IntKind, a: i128, b: i128) -> Option<i128>
    requires first { IsOfKind kind a }
    requires second { IsOfKind kind b }
    ensures is { result ≡ trapped op kind a b }
    ensures within { IfSome result (λ z. IsOfKind kind z) }
{
    match op {
        IntOp::Add => trap(IntOp::Add, kind, a, b),
        IntOp::Subtract => trap(IntOp::Subtract, kind, a, b),
        IntOp::Multiply => trap(IntOp::Multiply, kind, a, b),
        IntOp::Divide => trap(IntOp::Divide, kind, a, b),
    }
}

/// What an operation on two numbers of a kind comes to.
#[inline(always)]
fn come_to(op: IntOp, kind: IntKind, a: i128, b: i128) -> Computed
    requires first { IsOfKind kind a }
    requires second { IsOfKind kind b }
    ensures { result_of result ≡ number_or_fault kind (trapped op kind a b) }
{
    match exact(op, kind, a, b) {
        Some(z) => Computed::Value(number(kind, z)),
        None => Computed::Fault,
    }
}

/// The exact result of two numbers of a kind, or an abort where there is none in the kind's range.
#[inline(always)]
#[tactic(auto, using(crate::proofs::StateLemmas::cell_equations))]
pub fn compute_at(op: IntOp, kind: IntKind, a: &Cell, b: &Cell) -> Computed
    ensures { result_of result ≡ computed op kind (low a.now) (low b.now) }
{
    match (kind, a, b) {
        (IntKind::Nat64, Cell::Nat64(a), Cell::Nat64(b)) => {
            come_to(op, IntKind::Nat64, *a as i128, *b as i128)
        }
        (IntKind::Index, Cell::Index(a), Cell::Index(b)) => {
            come_to(op, IntKind::Index, *a as i128, *b as i128)
        }
        (IntKind::Int64, Cell::Int64(a), Cell::Int64(b)) => {
            come_to(op, IntKind::Int64, *a as i128, *b as i128)
        }
        (IntKind::Int32, Cell::Int32(a), Cell::Int32(b)) => {
            come_to(op, IntKind::Int32, *a as i128, *b as i128)
        }
        _ => compute(op, kind, a, b),
    }
}

/// Whether two numbers stand in an order.
#[inline(always)]
#[tactic(auto, using(crate::proofs::StateLemmas::cell_equations))]
fn stands(order: Order, a: i128, b: i128) -> Computed
    ensures { result_of result ≡ answer.value (truth (truth_of order a b)) }
{
    Computed::Value(Cell::Truth(compare(order, a, b)))
}

/// Whether two numbers of a kind, or two truth values where no kind is given, stand in an order.
#[inline(always)]
#[tactic(auto, using(crate::proofs::StateLemmas::cell_equations))]
pub fn compare_at(order: Order, kind: Option<IntKind>, a: &Cell, b: &Cell) -> Computed
    ensures { result_of result ≡ compared order kind (low a.now) (low b.now) }
{
    match (kind, a, b) {
        (Some(IntKind::Nat64), Cell::Nat64(a), Cell::Nat64(b)) => {
            stands(order, *a as i128, *b as i128)
        }
        (Some(IntKind::Index), Cell::Index(a), Cell::Index(b)) => {
            stands(order, *a as i128, *b as i128)
        }
        (Some(IntKind::Int64), Cell::Int64(a), Cell::Int64(b)) => {
            stands(order, *a as i128, *b as i128)
        }
        (Some(IntKind::Int32), Cell::Int32(a), Cell::Int32(b)) => {
            stands(order, *a as i128, *b as i128)
        }
        _ => compare_cells(order, kind, a, b),
    }
}
