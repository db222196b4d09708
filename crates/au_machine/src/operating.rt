//! The instructions that push constants and operate on operands.

ghost use Rattle.std.specs.Prelude.{◌≡◌, ◌<◌, IfOk, MatchOption, nat_lt, length, false};
ghost use Rattle.std.specs.Option.{option_map};
ghost use Rattle.au_ints.specs.Ranges.{is_of_kind};
ghost use Rattle.au_ints.specs.Operations.{converted};
ghost use Rattle.au_effects.specs.Values.{unit, truth, number, text};
ghost use Rattle.au_effects.specs.Numbers.{computed, compared, negated, at_kind, converted_value};
ghost use Rattle.au_low.specs.Machines.{
  Low,
  Machine,
  Next,
  goes,
  stuck,
  onward,
  pushes,
  popping,
  popping_two,
  where_true,
};
ghost use Rattle.au_low.specs.Instructions.{comes};
ghost use Rattle.au_cells.specs.Cells.{low, result_of};
ghost use Rattle.au_machine.specs.States.{machine_of, turned, most_place, IsQuiet, came_still, is_still};
ghost use Rattle.au_machine.specs.Newest.{of_newest, HasTwo};

use crate::counting::{compare_at, compute_at};
use crate::states::{State, Turn};
use au_base::{IntKind, Memory};
use au_cells::numbers::{convert_cell, negate, number};
use au_cells::{Cell, Computed};
use au_ints::{IntOp, Order, convert};
use au_low::Code;
use std::alloc::Global;

/// A number of a kind, where it is in the kind's range.
fn at_kind(kind: IntKind, value: i128) -> Option<Cell>
    ensures { option_map low result ≡ at_kind kind (converted kind value) }
{
    match convert(kind, value) {
        Some(z) => Some(number(kind, z)),
        None => None,
    }
}

impl State {
    /// Pushes a number of a kind.
    ///
    /// # Errors
    ///
    /// `Memory` when memory runs out, as in the calls below.
    #[inline]
    pub fn push_number(&mut self, kind: IntKind, value: i128) -> Result<Turn, Memory>
        requires { self.now.place < most_place }
        ensures is { IfOk result (λ turn. turned turn self.new
            ≡ where_true (is_of_kind kind value) (pushes (number kind value) (machine_of self.old))) }
        ensures quiet { IsQuiet (came_still result) self.old.world self.new.world }
    {
        match kind {
            IntKind::Nat64 => self.push_at(IntKind::Nat64, value),
            IntKind::Index => self.push_at(IntKind::Index, value),
            IntKind::Int64 => self.push_at(IntKind::Int64, value),
            IntKind::Int32 => self.push_at(IntKind::Int32, value),
            other => self.push_at(other, value),
        }
    }

    /// The same, of which a few instructions are left where the kind is known.
    #[inline(always)]
    fn push_at(&mut self, kind: IntKind, value: i128) -> Result<Turn, Memory>
        requires { self.now.place < most_place }
        ensures is { IfOk result (λ turn. turned turn self.new
            ≡ where_true (is_of_kind kind value) (pushes (number kind value) (machine_of self.old))) }
        ensures quiet { IsQuiet (came_still result) self.old.world self.new.world }
    {
        match at_kind(kind, value) {
            Some(cell) => self.push(cell),
            None => Ok(Turn::Stuck),
        }
    }

    /// Pushes a truth value.
    #[tactic(auto, using(crate::proofs::StateLemmas::cell_equations))]
    #[inline]
    pub fn push_truth(&mut self, value: bool) -> Result<Turn, Memory>
        requires { self.now.place < most_place }
        ensures is { IfOk result (λ turn. turned turn self.new ≡ pushes (truth value) (machine_of self.old)) }
        ensures moves { came_still result ≡ false }
    {
        self.push(Cell::Truth(value))
    }

    /// Pushes a text.
    #[inline(never)]
    pub fn push_text(&mut self, code: &Code, number: u32) -> Result<Turn, Memory>
        requires { self.now.place < most_place }
        ensures is { IfOk result (λ turn. turned turn self.new
            ≡ where_true (nat_lt number (length code.now.texts)) (pushes (text number)
            (machine_of self.old))) }
        ensures quiet { IsQuiet (came_still result) self.old.world self.new.world }
    {
        if code.texts.len() <= number as usize {
            return Ok(Turn::Stuck);
        }
        self.push(Cell::Text(number))
    }

    /// Pushes Unit.
    #[tactic(auto, using(crate::proofs::StateLemmas::cell_equations))]
    #[inline]
    pub fn push_unit(&mut self) -> Result<Turn, Memory>
        requires { self.now.place < most_place }
        ensures is { IfOk result (λ turn. turned turn self.new ≡ pushes unit (machine_of self.old)) }
        ensures moves { came_still result ≡ false }
    {
        self.push(Cell::Unit)
    }

    /// Pops an operand.
    #[inline]
    pub fn discard(&mut self) -> Turn
        requires { self.now.place < most_place }
        ensures is { turned result self.new
            ≡ popping (machine_of self.old).operands (machine_of self.old) (λ value m. goes (onward m)) }
        ensures quiet { IsQuiet (is_still result) self.old.world self.new.world }
    {
        match self.pop() {
            Some(_cell) => self.go(),
            None => Turn::Stuck,
        }
    }

    /// Pops two operands, of which the second was pushed last.
    #[inline(always)]
    fn pop_two(&mut self) -> Option<(Cell, Cell)>
        ensures is { MatchOption result
            ((go : Low → Low → Machine → Next)
            → popping_two (machine_of self.old).operands (machine_of self.old) go ≡ stuck)
            (λ p. HasTwo (low p.0) (low p.1) (machine_of self.old) (machine_of self.new)) }
        ensures place { self.new.place ≡ self.old.place }
        ensures world { self.new.world ≡ self.old.world }
    {
        let b = self.pop()?;
        let a = self.pop()?;
        Some((a, b))
    }

    /// The exact result of an operation on the two newest operands, if these are numbers of a kind.
    #[inline(always)]
    fn computed(&self, op: IntOp, kind: IntKind) -> Computed
        ensures { result_of result ≡ of_newest (computed op kind) (machine_of self.now).operands }
    {
        let cells = self.operands.top();
        if cells.len() < 2 {
            return Computed::NoRule;
        }
        compute_at(op, kind, &cells[cells.len() - 2], &cells[cells.len() - 1])
    }

    /// Whether the two newest operands stand in an order, if they can be compared.
    #[inline(always)]
    fn compared(&self, order: Order, kind: Option<IntKind>) -> Computed
        ensures { result_of result ≡ of_newest (compared order kind) (machine_of self.now).operands }
    {
        let cells = self.operands.top();
        if cells.len() < 2 {
            return Computed::NoRule;
        }
        compare_at(
            order,
            kind,
            &cells[cells.len() - 2],
            &cells[cells.len() - 1],
        )
    }

    /// Pushes the exact result of an operation on two numbers of a kind, or aborts.
    #[inline]
    pub fn arith(&mut self, op: IntOp, kind: IntKind) -> Result<Turn, Memory>
        requires { self.now.place < most_place }
        ensures is { IfOk result (λ turn. turned turn self.new ≡ popping_two (machine_of self.old).operands
            (machine_of self.old) (λ a b m. comes (computed op kind a b) m)) }
        ensures quiet { IsQuiet (came_still result) self.old.world self.new.world }
    {
        let computed = self.computed(op, kind);
        match self.pop_two() {
            Some(_) => self.come(computed),
            None => Ok(Turn::Stuck),
        }
    }

    /// Pushes whether two operands stand in an order.
    #[inline]
    pub fn compare(&mut self, order: Order, kind: Option<IntKind>) -> Result<Turn, Memory>
        requires { self.now.place < most_place }
        ensures is { IfOk result (λ turn. turned turn self.new ≡ popping_two (machine_of self.old).operands
            (machine_of self.old) (λ a b m. comes (compared order kind a b) m)) }
        ensures quiet { IsQuiet (came_still result) self.old.world self.new.world }
    {
        let compared = self.compared(order, kind);
        match self.pop_two() {
            Some(_) => self.come(compared),
            None => Ok(Turn::Stuck),
        }
    }

    /// Pushes the other truth value.
    #[inline]
    pub fn negate(&mut self) -> Result<Turn, Memory>
        requires { self.now.place < most_place }
        ensures is { IfOk result (λ turn. turned turn self.new ≡ popping (machine_of self.old).operands
            (machine_of self.old) (λ a m. comes (negated a) m)) }
        ensures quiet { IsQuiet (came_still result) self.old.world self.new.world }
    {
        match self.pop() {
            Some(a) => self.come(negate(&a)),
            None => Ok(Turn::Stuck),
        }
    }

    /// Pushes the Option of a number at a kind.
    #[inline(never)]
    pub fn convert(&mut self, alloc: Global, kind: IntKind) -> Result<Turn, Memory>
        requires { self.now.place < most_place }
        ensures is { IfOk result (λ turn. turned turn self.new ≡ popping (machine_of self.old).operands
            (machine_of self.old) (λ a m. comes (converted_value kind a) m)) }
        ensures quiet { IsQuiet (came_still result) self.old.world self.new.world }
    {
        match self.pop() {
            Some(a) => self.come(convert_cell(alloc, kind, &a)?),
            None => Ok(Turn::Stuck),
        }
    }
}
