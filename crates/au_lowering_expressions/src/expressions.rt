//! The code of expressions.

ghost use Rattle.std.specs.Prelude.{◌≡◌, IfOk, OnOk, Some, false, length};
ghost use Rattle.au_closed_trees.specs.contracts.phase.ClosedTreesPhase.TheImpl.{ghosts as closed};
ghost use Rattle.au_closed_trees.specs.TreeViews.{closed_note};
ghost use Rattle.au_closed_meanings.specs.Surroundings.{view_in};
ghost use Rattle.au_lowered.specs.Drafts.{either, does, ◌>>◌};
ghost use Rattle.au_lowered.specs.Expressions.{code, code_of_all, code_of_named, operand};
ghost use Rattle.au_lowered.specs.Expressions as spec;
ghost use Rattle.au_lowering_expressions.specs.Parts as parts;
ghost use Rattle.au_lowering_expressions.specs.Views.{drafts_said, operation_said, scope_said};
ghost use Rattle.au_lowering_expressions.specs.Wrote.{first_branch, wrote};
ghost use Rattle.au_meaning.specs.Expressions as meant;
ghost use Rattle.au_syntax.specs.Views.{argument_all, expression, expression_all};

use crate::calls::{put_call, put_named_call};
use crate::drafts::{Draft, end_jump, end_test, put};
use crate::leaves::{
    put_alone, put_borrow, put_integer, put_negative, put_part, put_path, put_read, put_text,
};
use crate::locals::Locals;
use crate::opening::opens;
use crate::operations::{Operation, operation_of};
use crate::types::{compared_kind, kind_in};
use au_base::Memory;
use au_closed_meanings::Lookup;
use au_closed_trees::{ClosedNote, ClosedTrees};
use au_ints::{IntOp, Order};
use au_low::Instr;
use au_syntax::{Argument, Expr};
use std::alloc::Global;

/// The note of an expression.
#[tactic(auto, using(au_syntax::proofs::ExpressionLemmas::expression_steps))]
pub fn note_of(of: &Expr<ClosedTrees>) -> &ClosedNote
    ensures { closed_note result.now ≡ meant.note_of (expression closed of.now) }
{
    match of {
        Expr::Number(site, _) => &site.note,
        Expr::Negative(site, _) => &site.note,
        Expr::Text(site, _) => &site.note,
        Expr::Bool(site, _) => &site.note,
        Expr::Nil(site) => &site.note,
        Expr::Path(site, _, _) => &site.note,
        Expr::Arrow(site, _, _) => &site.note,
        Expr::Call(site, _, _, _) => &site.note,
        Expr::NamedCall(site, _, _, _) => &site.note,
        Expr::Parenthesized(site, _) => &site.note,
        Expr::Dereference(site, _) => &site.note,
        Expr::Borrow(site, _, _) => &site.note,
        Expr::BorrowPart(site, _, _) => &site.note,
        Expr::Binary(site, _, _, _) => &site.note,
        Expr::Not(site, _) => &site.note,
        Expr::Typed(site, _, _) => &site.note,
        Expr::If(site, _, _, _) => &site.note,
    }
}

/// Writes what computes, where the whole has this note.
fn put_arith(op: IntOp, note: &ClosedNote, out: &mut Vec<Draft>) -> Result<(), Memory>
    ensures { OnOk result (drafts_said out.new.items
        ≡ wrote (parts.arith op (closed_note note.now)) (drafts_said out.old.items)) }
{
    match kind_in(&note.of) {
        None => Ok(()),
        Some(kind) => put(out, Instr::Arith { op, kind }),
    }
}

/// Writes what compares, where the first operand has this note.
fn put_compare(order: Order, note: &ClosedNote, out: &mut Vec<Draft>) -> Result<(), Memory>
    ensures { OnOk result (drafts_said out.new.items
        ≡ wrote (parts.compare order (closed_note note.now)) (drafts_said out.old.items)) }
{
    match compared_kind(&note.of) {
        None => Ok(()),
        Some(kind) => put(out, Instr::Compare { order, kind }),
    }
}

/// Writes `JUMPNOT(l) PUSHBOOL(1) JUMP(m) l:`, and answers the place of the jump.
fn write_true(out: &mut Vec<Draft>) -> Result<usize, Memory>
    ensures { IfOk result (λ jump. parts.FirstBranch (does parts.pushes_true) (drafts_said out.old.items)
        (drafts_said out.new.items) jump) }
{
    let test = out.len();
    put(out, Instr::JumpNot(0))?;
    put(out, Instr::PushBool(true))?;
    let jump = out.len();
    end_first(out, test)?;
    Ok(jump)
}

/// Ends the first of two branches: behind it stands a jump, and the test at a place goes behind that.
fn end_first(out: &mut Vec<Draft>, test: usize) -> Result<(), Memory>
    ensures { OnOk result (drafts_said out.new.items ≡ parts.first_ended test (drafts_said out.old.items)) }
{
    put(out, Instr::Jump(0))?;
    end_test(out, test)
}

/// Writes the first of two branches, `JUMPNOT(l) e JUMP(m) l:`, and answers the place of the jump, which
/// leads nowhere yet.
#[cycle(write)]
fn write_first<R: Lookup>(
    alloc: Global,
    lookup: &R,
    scope: &Locals,
    of: &Expr<ClosedTrees>,
    out: &mut Vec<Draft>,
) -> Result<usize, Memory>
    ensures { IfOk result (λ jump. parts.FirstBranch
        (code (view_in (R.round lookup.now)) (scope_said scope.now) (expression closed of.now))
        (drafts_said out.old.items) (drafts_said out.new.items) jump) }
{
    let test = out.len();
    put(out, Instr::JumpNot(0))?;
    write(alloc, lookup, scope, of, out)?;
    let jump = out.len();
    end_first(out, test)?;
    Ok(jump)
}

/// Writes the second operand of `and`.
#[cycle(write)]
fn write_and<R: Lookup>(
    alloc: Global,
    lookup: &R,
    scope: &Locals,
    second: &Expr<ClosedTrees>,
    out: &mut Vec<Draft>,
) -> Result<(), Memory>
    ensures { OnOk result (drafts_said out.new.items
        ≡ wrote (either false
        (code (view_in (R.round lookup.now)) (scope_said scope.now) (expression closed second.now))
        (does parts.pushes_false)) (drafts_said out.old.items)) }
{
    let jump = write_first(alloc, lookup, scope, second, out)?;
    put(out, Instr::PushBool(false))?;
    end_jump(out, jump)?;
    Ok(())
}

/// Writes the second operand of `or`.
#[cycle(write)]
fn write_or<R: Lookup>(
    alloc: Global,
    lookup: &R,
    scope: &Locals,
    second: &Expr<ClosedTrees>,
    out: &mut Vec<Draft>,
) -> Result<(), Memory>
    ensures { OnOk result (drafts_said out.new.items
        ≡ wrote (either false (does parts.pushes_true)
        (code (view_in (R.round lookup.now)) (scope_said scope.now) (expression closed second.now)))
        (drafts_said out.old.items)) }
{
    let jump = write_true(out)?;
    write(alloc, lookup, scope, second, out)?;
    end_jump(out, jump)?;
    Ok(())
}

/// Writes the second operand of what computes, and that, where the whole has this note.
#[cycle(write)]
fn write_computed<R: Lookup>(
    alloc: Global,
    lookup: &R,
    scope: &Locals,
    op: IntOp,
    whole: &ClosedNote,
    second: &Expr<ClosedTrees>,
    out: &mut Vec<Draft>,
) -> Result<(), Memory>
    ensures { OnOk result (drafts_said out.new.items
        ≡ wrote (parts.arith op (closed_note whole.now))
        (wrote (code (view_in (R.round lookup.now)) (scope_said scope.now) (expression closed second.now))
        (drafts_said out.old.items))) }
{
    write(alloc, lookup, scope, second, out)?;
    put_arith(op, whole, out)
}

/// Writes the second operand of what compares, and that, where the first has this note.
#[cycle(write)]
fn write_compared<R: Lookup>(
    alloc: Global,
    lookup: &R,
    scope: &Locals,
    order: Order,
    first: &ClosedNote,
    second: &Expr<ClosedTrees>,
    out: &mut Vec<Draft>,
) -> Result<(), Memory>
    ensures { OnOk result (drafts_said out.new.items
        ≡ wrote (parts.compare order (closed_note first.now))
        (wrote (code (view_in (R.round lookup.now)) (scope_said scope.now) (expression closed second.now))
        (drafts_said out.old.items))) }
{
    write(alloc, lookup, scope, second, out)?;
    put_compare(order, first, out)
}

/// An operation, and what its code depends on.
#[derive(Clone, Copy)]
struct Operated<'a> {
    /// What it does.
    operation: Operation,
    /// The note of the whole.
    whole: &'a ClosedNote,
    /// The note of its first operand.
    first: &'a ClosedNote,
}

/// Writes an operation behind its first operand.
#[cycle(write)]
fn write_second<R: Lookup>(
    alloc: Global,
    lookup: &R,
    scope: &Locals,
    of: &Operated,
    second: &Expr<ClosedTrees>,
    out: &mut Vec<Draft>,
) -> Result<(), Memory>
    ensures { OnOk result (drafts_said out.new.items
        ≡ wrote (parts.second_of (operation_said of.now.operation) (closed_note of.now.whole.now)
        (closed_note of.now.first.now)
        (code (view_in (R.round lookup.now)) (scope_said scope.now) (expression closed second.now)))
        (drafts_said out.old.items)) }
{
    match of.operation {
        Operation::And => write_and(alloc, lookup, scope, second, out),
        Operation::Or => write_or(alloc, lookup, scope, second, out),
        Operation::Computes(op) => write_computed(alloc, lookup, scope, op, of.whole, second, out),
        Operation::Compares(order) => {
            write_compared(alloc, lookup, scope, order, of.first, second, out)
        }
    }
}

/// Writes what a dereference is of: a variable is looked at.
#[cycle(write)]
fn write_operand<R: Lookup>(
    alloc: Global,
    lookup: &R,
    scope: &Locals,
    of: &Expr<ClosedTrees>,
    out: &mut Vec<Draft>,
) -> Result<(), Memory>
    ensures { OnOk result (drafts_said out.new.items
        ≡ wrote (operand (scope_said scope.now) (expression closed of.now)
        (code (view_in (R.round lookup.now)) (scope_said scope.now) (expression closed of.now)))
        (drafts_said out.old.items)) }
{
    let found = put_alone(alloc, scope, of, out)?;
    if found {
        return Ok(());
    }
    write(alloc, lookup, scope, of, out)?;
    Ok(())
}

/// Writes an expression.
#[cycle(write)]
fn write<R: Lookup>(
    alloc: Global,
    lookup: &R,
    scope: &Locals,
    of: &Expr<ClosedTrees>,
    out: &mut Vec<Draft>,
) -> Result<(), Memory>
    ensures { OnOk result (drafts_said out.new.items
        ≡ wrote (code (view_in (R.round lookup.now)) (scope_said scope.now) (expression closed of.now))
        (drafts_said out.old.items)) }
{
    match of {
        Expr::Number(site, literal) => put_integer(lookup, &site.note, literal.value, out),
        Expr::Negative(site, literal) => put_negative(lookup, &site.note, literal.value, out),
        Expr::Text(_, text) => put_text(alloc, text, out),
        Expr::Bool(_, value) => put(out, Instr::PushBool(*value)),
        Expr::Nil(_) => put(out, Instr::PushUnit),
        Expr::Path(site, name, fields) => {
            put_path(alloc, lookup, scope, &site.note, &name.name, fields, out)
        }
        Expr::Arrow(_, name, fields) => put_read(alloc, lookup, scope, &name.name, fields, out),
        Expr::Call(site, _, arguments, callee) => {
            write_all(alloc, lookup, scope, arguments, out)?;
            put_call(alloc, lookup, &site.note, callee, out)
        }
        Expr::NamedCall(site, _, arguments, callee) => {
            write_arguments(alloc, lookup, scope, arguments, out)?;
            put_named_call(alloc, lookup, &site.note, callee, arguments, out)
        }
        Expr::Parenthesized(_, inner) => write(alloc, lookup, scope, inner, out),
        Expr::Dereference(_, inner) => {
            write_operand(alloc, lookup, scope, inner, out)?;
            put(out, Instr::Deref)
        }
        Expr::Borrow(_, mode, name) => put_borrow(scope, *mode, &name.name, out),
        Expr::BorrowPart(_, name, fields) => {
            put_part(alloc, lookup, scope, &name.name, fields, out)
        }
        Expr::Binary(site, operator, first, second) => {
            write(alloc, lookup, scope, first, out)?;
            let operated = Operated {
                operation: operation_of(*operator),
                whole: &site.note,
                first: note_of(first),
            };
            write_second(alloc, lookup, scope, &operated, second, out)
        }
        Expr::Not(_, inner) => {
            write(alloc, lookup, scope, inner, out)?;
            put(out, Instr::Not)
        }
        Expr::Typed(_, inner, _) => write(alloc, lookup, scope, inner, out),
        Expr::If(_, test, first, second) => {
            write(alloc, lookup, scope, test, out)?;
            let jump = write_first(alloc, lookup, scope, first, out)?;
            write(alloc, lookup, scope, second, out)?;
            end_jump(out, jump)?;
            Ok(())
        }
    }
}

/// Writes arguments in the order of the text.
#[cycle(write)]
fn write_all<R: Lookup>(
    alloc: Global,
    lookup: &R,
    scope: &Locals,
    all: &Vec<Expr<ClosedTrees>>,
    out: &mut Vec<Draft>,
) -> Result<(), Memory>
    ensures { OnOk result (drafts_said out.new.items
        ≡ wrote (code_of_all (view_in (R.round lookup.now)) (scope_said scope.now)
        (expression_all closed all.now.items)) (drafts_said out.old.items)) }
{
    for one in all {
        write(alloc, lookup, scope, one, out)?;
    }
    Ok(())
}

/// Writes a named argument.
#[cycle(write)]
fn write_argument<R: Lookup>(
    alloc: Global,
    lookup: &R,
    scope: &Locals,
    of: &Argument<ClosedTrees>,
    out: &mut Vec<Draft>,
) -> Result<(), Memory>
    ensures { OnOk result (drafts_said out.new.items
        ≡ wrote (code (view_in (R.round lookup.now)) (scope_said scope.now) (expression closed of.now.value))
        (drafts_said out.old.items)) }
{
    write(alloc, lookup, scope, &of.value, out)
}

/// Writes named arguments in the order of the text.
#[cycle(write)]
fn write_arguments<R: Lookup>(
    alloc: Global,
    lookup: &R,
    scope: &Locals,
    all: &Vec<Argument<ClosedTrees>>,
    out: &mut Vec<Draft>,
) -> Result<(), Memory>
    ensures { OnOk result (drafts_said out.new.items
        ≡ wrote (code_of_named (view_in (R.round lookup.now)) (scope_said scope.now)
        (argument_all closed all.now.items)) (drafts_said out.old.items)) }
{
    for one in all {
        write_argument(alloc, lookup, scope, one, out)?;
    }
    Ok(())
}

/// Writes what closes borrows, if any are opened, where so many borrow statements stand round them.
fn put_closing(out: &mut Vec<Draft>, opens: bool, around: u32) -> Result<(), Memory>
    ensures { OnOk result (drafts_said out.new.items
        ≡ wrote (spec.closing opens around) (drafts_said out.old.items)) }
{
    if opens {
        put(out, Instr::Close(around))?;
        return Ok(());
    }
    Ok(())
}

/// Writes the code of an expression behind other code.
///
/// # Errors
///
/// Only for want of memory. It is also what is answered where a place has more than 32 bits.
pub fn write_expression<R: Lookup>(
    alloc: Global,
    lookup: &R,
    scope: &Locals,
    of: &Expr<ClosedTrees>,
    out: &mut Vec<Draft>,
) -> Result<(), Memory>
    ensures { OnOk result (drafts_said out.new.items
        ≡ wrote (code (view_in (R.round lookup.now)) (scope_said scope.now) (expression closed of.now))
        (drafts_said out.old.items)) }
{
    write(alloc, lookup, scope, of, out)
}

/// Writes the code of a whole expression, where so many borrow statements stand round it.
///
/// # Errors
///
/// Only for want of memory. It is also what is answered where a place has more than 32 bits.
pub fn write_whole<R: Lookup>(
    alloc: Global,
    lookup: &R,
    scope: &Locals,
    around: u32,
    of: &Expr<ClosedTrees>,
    out: &mut Vec<Draft>,
) -> Result<(), Memory>
    ensures { OnOk result (drafts_said out.new.items
        ≡ wrote (spec.whole (view_in (R.round lookup.now)) around (scope_said scope.now)
        (expression closed of.now)) (drafts_said out.old.items)) }
{
    write(alloc, lookup, scope, of, out)?;
    put_closing(out, opens(of), around)?;
    Ok(())
}
