//! Pieces of the code of statements that hold no block.

ghost use Rattle.std.specs.Prelude.{◌≡◌, ◌+◌, [], IfOk, None, OnOk, Some, length, set};
ghost use Rattle.std.specs.Option.{option_map};
ghost use Rattle.au_closed_trees.specs.contracts.phase.ClosedTreesPhase.TheImpl.{ghosts as closed};
ghost use Rattle.au_closed_trees.specs.TreeViews.{closed_note};
ghost use Rattle.au_type_texts.specs.Views.{closed_meaning};
ghost use Rattle.au_closed_meanings.specs.Surroundings.{view_in};
ghost use Rattle.au_lowered.specs.Drafts.{does, plain, unless};
ghost use Rattle.au_lowered.specs.Expressions.{whole};
ghost use Rattle.au_low.specs.declared.instructions.Instr.TheVariants.{ForStep, ForTest, Look, Store};
ghost use Rattle.au_lowering_expressions.specs.Views.{drafts_said, scope_said};
ghost use Rattle.au_lowering_expressions.specs.Wrote.{wrote};
ghost use Rattle.au_lowering_statements.specs.Views.{Begins};
ghost use Rattle.au_meaning.specs.Names as names;
ghost use Rattle.au_meaning.specs.Names.{variable_of, with_name};
ghost use Rattle.au_syntax.specs.Views.{expression};

use crate::entering::{declare, declare_noted, further};
use crate::writers::Writer;
use au_base::{Memory, Name, Sequence};
use au_closed_meanings::Lookup;
use au_closed_trees::{ClosedNote, ClosedTrees};
use au_low::Instr;
use au_lowering_expressions::{Draft, Locals, here, patch, put, write_whole};
use au_syntax::{Access, BorrowMode, Expr};
use au_type_texts::{Closed, copy_closed};
use std::alloc::Global;

/// How `borrow` and `borrow!` borrow.
pub fn mode_of(access: Access) -> BorrowMode
    ensures { result ≡ names.mode_of access }
{
    match access {
        Access::Read => BorrowMode::Read,
        Access::Write => BorrowMode::Write,
    }
}

/// The type of the reference that a borrow of something of a type gives.
fn borrowed(alloc: Global, mode: BorrowMode, of: &Closed) -> Result<Option<Closed>, Memory>
    ensures { IfOk result (λ made. option_map closed_meaning made
        ≡ names.borrowed mode (Some (closed_meaning of.now))) }
{
    let copy = copy_closed(alloc, of)?;
    match mode {
        BorrowMode::Read => Ok(Some(Closed::Read(Box::new(alloc, copy)?))),
        BorrowMode::Write => Ok(Some(Closed::Write(Box::new(alloc, copy)?))),
        BorrowMode::Reborrow => Ok(Some(copy)),
    }
}

/// The type of the reference that a borrow of a variable gives.
fn borrowed_of(
    alloc: Global,
    mode: BorrowMode,
    scope: &Locals,
    name: &Name,
) -> Result<Option<Closed>, Memory>
    ensures { IfOk result (λ made. option_map closed_meaning made
        ≡ names.borrowed mode (names.type_in (variable_of (scope_said scope.now) name.now))) }
{
    match scope.find(name) {
        None => Ok(None),
        Some(one) => match &one.of {
            None => Ok(None),
            Some(of) => borrowed(alloc, mode, of),
        },
    }
}

/// Declares the reference that a borrow of a variable gives.
pub fn declare_reference(
    alloc: Global,
    mode: BorrowMode,
    variable: &Name,
    slot: u32,
    name: &Name,
    scope: &mut Locals,
) -> Result<(), Memory>
    ensures said { OnOk result (scope_said scope.new
        ≡ names.with_reference mode (variable_of (scope_said scope.old) variable.now) slot name.now
        (scope_said scope.old)) }
    ensures keeps { OnOk result (Begins scope.old scope.new) }
{
    let of = borrowed_of(alloc, mode, scope, variable)?;
    declare(alloc, scope, name, slot, of)
}

/// Writes what begins a turn of `for`: the counter, whose slot this is, is the value of the variable.
pub fn put_counter(alloc: Global, out: &mut Vec<Draft>, slot: u32) -> Result<(), Memory>
    ensures { OnOk result (drafts_said out.new.items
        ≡ wrote (does (Store (slot + 2))) (wrote (does (Look slot [])) (drafts_said out.old.items))) }
{
    let path = Sequence::new(alloc);
    put(out, Instr::Look { slot, path })?;
    let variable = further(slot, 2)?;
    put(out, Instr::Store(variable))
}

/// Writes what ends a turn of `for`, unless its block returns on every path.
pub fn put_step(out: &mut Vec<Draft>, returns: bool, slot: u32, start: u32) -> Result<(), Memory>
    ensures { OnOk result (drafts_said out.new.items
        ≡ wrote (unless returns (ForStep slot (slot + 1) start)) (drafts_said out.old.items)) }
{
    if returns {
        return Ok(());
    }
    let last = further(slot, 1)?;
    put(
        out,
        Instr::ForStep {
            counter: slot,
            last,
            label: start,
        },
    )
}

/// Writes the test of `for`, which leads nowhere yet, and answers its place.
pub fn put_range(out: &mut Vec<Draft>, slot: u32) -> Result<usize, Memory>
    ensures at { IfOk result (λ at. at ≡ length (drafts_said out.old.items)) }
    ensures code { OnOk result (drafts_said out.new.items
        ≡ wrote (does (ForTest slot (slot + 1) 0)) (drafts_said out.old.items)) }
{
    let at = out.len();
    let last = further(slot, 1)?;
    put(
        out,
        Instr::ForTest {
            counter: slot,
            last,
            label: 0,
        },
    )?;
    Ok(at)
}

/// Lets the test of `for` at a place go to the next instruction.
pub fn end_range(out: &mut Vec<Draft>, at: usize, slot: u32) -> Result<(), Memory>
    ensures { OnOk result (drafts_said out.new.items
        ≡ set (drafts_said out.old.items) at
        (plain (ForTest slot (slot + 1) (length (drafts_said out.old.items))))) }
{
    let label = here(out)?;
    let last = further(slot, 1)?;
    patch(
        out,
        at,
        Instr::ForTest {
            counter: slot,
            last,
            label,
        },
    );
    Ok(())
}

/// Declares the variable of `for`, whose counter has this slot.
pub fn declare_counter(
    alloc: Global,
    scope: &mut Locals,
    name: &Name,
    slot: u32,
    note: &ClosedNote,
) -> Result<(), Memory>
    ensures said { OnOk result (scope_said scope.new
        ≡ with_name name.now (slot + 2) (Some (closed_note note.now).of) (scope_said scope.old)) }
    ensures keeps { OnOk result (Begins scope.old scope.new) }
{
    let variable = further(slot, 2)?;
    declare_noted(alloc, scope, name, variable, note)
}

/// Writes an expression, and what pops it into the next slot.
pub fn write_stored<R: Lookup>(
    by: &Writer<R>,
    scope: &Locals,
    of: &Expr<ClosedTrees>,
    out: &mut Vec<Draft>,
) -> Result<(), Memory>
    ensures { OnOk result (drafts_said out.new.items
        ≡ wrote (does (Store by.now.slot))
        (wrote (whole (view_in (R.round by.now.lookup.now)) by.now.around (scope_said scope.now)
        (expression closed of.now)) (drafts_said out.old.items))) }
{
    write_whole(by.alloc, by.lookup, scope, by.around, of, out)?;
    put(out, Instr::Store(by.slot))
}

/// Writes the bounds of `for`.
pub fn write_bounds<R: Lookup>(
    by: &Writer<R>,
    scope: &Locals,
    from: &Expr<ClosedTrees>,
    to: &Expr<ClosedTrees>,
    out: &mut Vec<Draft>,
) -> Result<(), Memory>
    ensures { OnOk result (drafts_said out.new.items
        ≡ wrote (does (Store (by.now.slot + 1)))
        (wrote (whole (view_in (R.round by.now.lookup.now)) by.now.around (scope_said scope.now)
        (expression closed to.now))
        (wrote (does (Store by.now.slot))
        (wrote (whole (view_in (R.round by.now.lookup.now)) by.now.around (scope_said scope.now)
        (expression closed from.now))
        (drafts_said out.old.items))))) }
{
    write_stored(by, scope, from, out)?;
    let slot = further(by.slot, 1)?;
    write_stored(&Writer { slot, ..*by }, scope, to, out)
}

/// Writes the test of a loop, and answers its place.
pub fn begin_loop<R: Lookup>(
    by: &Writer<R>,
    scope: &Locals,
    test: &Expr<ClosedTrees>,
    out: &mut Vec<Draft>,
) -> Result<u32, Memory>
    ensures at { IfOk result (λ start. start ≡ length (drafts_said out.old.items)) }
    ensures code { OnOk result (drafts_said out.new.items
        ≡ wrote (whole (view_in (R.round by.now.lookup.now)) by.now.around (scope_said scope.now)
        (expression closed test.now)) (drafts_said out.old.items)) }
{
    let start = here(out)?;
    write_whole(by.alloc, by.lookup, scope, by.around, test, out)?;
    Ok(start)
}
