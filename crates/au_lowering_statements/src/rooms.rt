//! How many slots are in use at one place at most.

ghost use Rattle.std.specs.Prelude.{◌≡◌, ◌+◌, IfOk, length, max};
ghost use Rattle.au_closed_trees.specs.contracts.phase.ClosedTreesPhase.TheImpl.{ghosts as closed};
ghost use Rattle.au_closed_trees.specs.TreeViews.{closed_note};
ghost use Rattle.au_closed_meanings.specs.Surroundings.{view_in};
ghost use Rattle.au_lowered.specs.Slots as spec;
ghost use Rattle.au_syntax.specs.Views.{arm_all, block, branch_all, placed, statement};

use crate::arms::fields_of_arm;
use crate::entering::{fields_of, further, kept};
use au_base::Memory;
use au_closed_meanings::Lookup;
use au_closed_trees::{ClosedNote, ClosedTrees};
use au_lowering_expressions::note_of;
use au_syntax::{Arm, Block, Branch, Stmt};

/// The greater of two numbers.
fn greater(one: u32, other: u32) -> u32
    ensures { result ≡ max one other }
{
    if one < other { other } else { one }
}

/// The greatest number of slots in use at one place of a statement, where so many are in use before it.
#[cycle(room)]
fn room<R: Lookup>(lookup: &R, slot: u32, of: &Stmt<ClosedTrees>) -> Result<u32, Memory>
    ensures { IfOk result (λ most. most
        ≡ spec.room (view_in (R.round lookup.now)) slot (statement closed of.now)) }
{
    match of {
        Stmt::Skip(_) => Ok(slot),
        Stmt::Let(_, _, _, _, _) => further(slot, 1),
        Stmt::Destructure(_, _, value) => further(slot, fields_of(lookup, note_of(value))),
        Stmt::Assign(_, _, _, _) => Ok(slot),
        Stmt::AssignThrough(_, _, _, _) => Ok(slot),
        Stmt::If(_, branches) => room_of_tests(lookup, slot, branches),
        Stmt::IfElse(_, branches, last) => {
            let most = room_of_tests(lookup, slot, branches)?;
            let other = room_of_block(lookup, slot, last)?;
            Ok(greater(most, other))
        }
        Stmt::Case(_, value, arms) => room_of_arms(lookup, slot, note_of(value), arms),
        Stmt::While(_, _, body) => room_of_block(lookup, slot, body),
        Stmt::For(_, _, _, _, body) => {
            let inner = further(slot, 3)?;
            room_of_block(lookup, inner, body)
        }
        Stmt::Borrow(_, _, _, body, _) => {
            let inner = further(slot, 1)?;
            room_of_block(lookup, inner, body)
        }
        Stmt::BorrowTyped(_, _, _, _, _, body, _) => {
            let inner = further(slot, 1)?;
            room_of_block(lookup, inner, body)
        }
        Stmt::Call(_, _) => Ok(slot),
        Stmt::Return(_, _) => Ok(slot),
    }
}

/// The same of a block.
///
/// # Errors
///
/// `Memory` where the number has more than 32 bits.
#[cycle(room)]
pub fn room_of_block<R: Lookup>(
    lookup: &R,
    slot: u32,
    of: &Block<ClosedTrees>,
) -> Result<u32, Memory>
    ensures { IfOk result (λ most. most
        ≡ spec.room_of_block (view_in (R.round lookup.now)) slot (block closed of.now)) }
{
    let mut slot = slot;
    let mut most = 0;
    for one in &of.statements {
        let here = room(lookup, slot, one)?;
        most = greater(most, here);
        slot = further(slot, kept(lookup, one))?;
    }
    Ok(greater(most, slot))
}

/// The same of a branch.
#[cycle(room)]
fn room_of_branch<R: Lookup>(lookup: &R, slot: u32, of: &Branch<ClosedTrees>) -> Result<u32, Memory>
    ensures { IfOk result (λ most. most
        ≡ spec.room_of_block (view_in (R.round lookup.now)) slot (block closed of.now.block)) }
{
    room_of_block(lookup, slot, &of.block)
}

/// The same of the branches of a conditional.
#[cycle(room)]
fn room_of_tests<R: Lookup>(
    lookup: &R,
    slot: u32,
    all: &Vec<Branch<ClosedTrees>>,
) -> Result<u32, Memory>
    ensures { IfOk result (λ most. most
        ≡ spec.room_of_tests (view_in (R.round lookup.now)) slot (branch_all closed all.now.items)) }
{
    let mut most = 0;
    for one in all {
        let here = room_of_branch(lookup, slot, one)?;
        most = greater(most, here);
    }
    Ok(greater(most, slot))
}

/// The same of an arm of a case, of a value that has this note.
#[cycle(room)]
fn room_of_arm<R: Lookup>(
    lookup: &R,
    slot: u32,
    note: &ClosedNote,
    of: &Arm<ClosedTrees>,
) -> Result<u32, Memory>
    ensures { IfOk result (λ most. most
        ≡ spec.room_of_block (view_in (R.round lookup.now))
        (slot + length (spec.fields_of_case (view_in (R.round lookup.now)) (closed_note note.now)
        (placed closed of.now.case).name)) (block closed of.now.block)) }
{
    let inner = further(slot, fields_of_arm(lookup, note, &of.case.name))?;
    room_of_block(lookup, inner, &of.block)
}

/// The same of the arms of a case.
#[cycle(room)]
fn room_of_arms<R: Lookup>(
    lookup: &R,
    slot: u32,
    note: &ClosedNote,
    all: &Vec<Arm<ClosedTrees>>,
) -> Result<u32, Memory>
    ensures { IfOk result (λ most. most
        ≡ spec.room_of_arms (view_in (R.round lookup.now)) slot (closed_note note.now)
        (arm_all closed all.now.items)) }
{
    let mut most = 0;
    for one in all {
        let here = room_of_arm(lookup, slot, note, one)?;
        most = greater(most, here);
    }
    Ok(greater(most, slot))
}
