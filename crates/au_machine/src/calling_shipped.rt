//! Shipped calls by their arguments.

ghost use Rattle.std.specs.Prelude.{◌≡◌, ◌<◌, ◌∷◌, [], Some, None, IfOk};
ghost use Rattle.au_effects.specs.Calls.{arity, shipped};
ghost use Rattle.au_low.specs.Instructions.{answered, text_bytes};
ghost use Rattle.au_cells.specs.Cells.{low};
ghost use Rattle.au_stores.specs.Stores.{world_of};
ghost use Rattle.au_machine.specs.States.{machine_of, turned, most_place, IsQuiet, came_still};

use crate::states::{State, Turn};
use au_base::Memory;
use au_cells::Cell;
use au_low::Code;
use au_shipped::ShippedCall;
use std::alloc::Global;

/// How many arguments a shipped call has.
pub fn arity(call: ShippedCall) -> usize
    ensures { result ≡ arity call }
{
    match call {
        ShippedCall::MakeEmpty => 0,
        ShippedCall::Swap => 2,
        ShippedCall::InsertBack => 2,
        ShippedCall::Nth => 2,
        ShippedCall::WriteByte => 2,
        ShippedCall::Wrap(_, _) => 2,
        ShippedCall::ReplaceNth => 3,
        _ => 1,
    }
}

impl State {
    /// Does a shipped call of one argument, which makes no birth.
    ///
    /// # Errors
    ///
    /// `Memory` when memory runs out, as in the calls below.
    pub fn call_with(
        &mut self,
        alloc: Global,
        code: &Code,
        call: ShippedCall,
        a: &Cell,
    ) -> Result<Turn, Memory>
        requires { self.now.place < most_place }
        ensures is { IfOk result (λ turn. turned turn self.new
            ≡ answered (shipped (text_bytes code.now) call None (world_of self.old.world) (low a.now ∷ []))
            (machine_of self.old)) }
        ensures quiet { IsQuiet (came_still result) self.old.world self.new.world }
    {
        match call {
            ShippedCall::PrintText => self.print_text(code, false, a),
            ShippedCall::PrintInt => self.print_number(false, a),
            ShippedCall::PrintBool => self.print_truth(false, a),
            ShippedCall::PrintLnText => self.print_text(code, true, a),
            ShippedCall::PrintLnInt => self.print_number(true, a),
            ShippedCall::PrintLnBool => self.print_truth(true, a),
            ShippedCall::SpanLength => self.span_length(code, a),
            ShippedCall::Abort => Ok(self.abort(a)),
            ShippedCall::SurrenderRoot => self.surrender_root(a),
            ShippedCall::Unbox => self.unbox(a),
            ShippedCall::BoxGet => self.box_get(alloc, a),
            ShippedCall::BoxGetMut => self.box_get(alloc, a),
            ShippedCall::DestroyEmpty => self.destroy_empty(a),
            ShippedCall::Length => self.length(a),
            ShippedCall::RemoveBack => self.remove_back(a),
            ShippedCall::ReadByte => Ok(self.read_byte(a)),
            ShippedCall::ReleaseTerminal => self.release_terminal(a),
            _ => Ok(Turn::Stuck),
        }
    }

    /// Does a shipped call of two arguments.
    pub fn call_with_two(
        &mut self,
        alloc: Global,
        code: &Code,
        call: ShippedCall,
        a: Cell,
        b: Cell,
    ) -> Result<Turn, Memory>
        requires { self.now.place < most_place }
        ensures is { IfOk result (λ turn. turned turn self.new
            ≡ answered (shipped (text_bytes code.now) call None
            (world_of self.old.world) (low a ∷ low b ∷ []))
            (machine_of self.old)) }
        ensures quiet { IsQuiet (came_still result) self.old.world self.new.world }
    {
        match call {
            ShippedCall::Swap => self.swap(&a, b),
            ShippedCall::InsertBack => self.insert_back(&a, b),
            ShippedCall::Nth => self.nth(alloc, &a, &b),
            ShippedCall::WriteByte => self.write_byte(&a, &b),
            _ => Ok(Turn::Stuck),
        }
    }

    /// Does a shipped call of three arguments.
    pub fn call_with_three(
        &mut self,
        code: &Code,
        call: ShippedCall,
        a: Cell,
        b: Cell,
        c: Cell,
    ) -> Result<Turn, Memory>
        requires { self.now.place < most_place }
        ensures is { IfOk result (λ turn. turned turn self.new
            ≡ answered (shipped (text_bytes code.now) call None
            (world_of self.old.world) (low a ∷ low b ∷ low c ∷ []))
            (machine_of self.old)) }
        ensures quiet { IsQuiet (came_still result) self.old.world self.new.world }
    {
        match call {
            ShippedCall::ReplaceNth => self.replace_nth(&a, &b, c),
            _ => Ok(Turn::Stuck),
        }
    }

    /// Does a shipped call of one argument that makes a birth of a type.
    pub fn bear_with(
        &mut self,
        alloc: Global,
        code: &Code,
        call: ShippedCall,
        of: u32,
        a: Cell,
    ) -> Result<Turn, Memory>
        requires { self.now.place < most_place }
        ensures is { IfOk result (λ turn. turned turn self.new
            ≡ answered (shipped (text_bytes code.now) call (Some of) (world_of self.old.world) (low a ∷ []))
            (machine_of self.old)) }
        ensures quiet { IsQuiet (came_still result) self.old.world self.new.world }
    {
        match call {
            ShippedCall::MakeBox => self.make_box(alloc, of, a),
            ShippedCall::AcquireTerminal => self.acquire_terminal(alloc, of, &a),
            _ => Ok(Turn::Stuck),
        }
    }

    /// Does a shipped call with one argument.
    pub fn shipped_with(
        &mut self,
        alloc: Global,
        code: &Code,
        call: ShippedCall,
        of: Option<u32>,
        a: Cell,
    ) -> Result<Turn, Memory>
        requires { self.now.place < most_place }
        ensures is { IfOk result (λ turn. turned turn self.new
            ≡ answered (shipped (text_bytes code.now) call of (world_of self.old.world) (low a ∷ []))
            (machine_of self.old)) }
        ensures quiet { IsQuiet (came_still result) self.old.world self.new.world }
    {
        match of {
            Some(of) => self.bear_with(alloc, code, call, of, a),
            None => self.call_with(alloc, code, call, &a),
        }
    }

    /// Does a shipped call with two arguments.
    pub fn shipped_with_two(
        &mut self,
        alloc: Global,
        code: &Code,
        call: ShippedCall,
        of: Option<u32>,
        a: Cell,
        b: Cell,
    ) -> Result<Turn, Memory>
        requires { self.now.place < most_place }
        ensures is { IfOk result (λ turn. turned turn self.new
            ≡ answered (shipped (text_bytes code.now) call of (world_of self.old.world)
            (low a ∷ low b ∷ [])) (machine_of self.old)) }
        ensures quiet { IsQuiet (came_still result) self.old.world self.new.world }
    {
        match of {
            Some(_) => Ok(Turn::Stuck),
            None => self.call_with_two(alloc, code, call, a, b),
        }
    }

    /// Does a shipped call with three arguments.
    pub fn shipped_with_three(
        &mut self,
        code: &Code,
        call: ShippedCall,
        of: Option<u32>,
        a: Cell,
        b: Cell,
        c: Cell,
    ) -> Result<Turn, Memory>
        requires { self.now.place < most_place }
        ensures is { IfOk result (λ turn. turned turn self.new
            ≡ answered (shipped (text_bytes code.now) call of (world_of self.old.world)
            (low a ∷ low b ∷ low c ∷ [])) (machine_of self.old)) }
        ensures quiet { IsQuiet (came_still result) self.old.world self.new.world }
    {
        match of {
            Some(_) => Ok(Turn::Stuck),
            None => self.call_with_three(code, call, a, b, c),
        }
    }
}
