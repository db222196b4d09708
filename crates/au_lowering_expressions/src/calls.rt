//! The code of calls, behind that of their arguments.

ghost use Rattle.std.specs.Prelude.{◌≡◌, OnOk};
ghost use Rattle.std.specs.Option.{option_map};
ghost use Rattle.au_closed_trees.specs.contracts.phase.ClosedTreesPhase.TheImpl.{ghosts as closed};
ghost use Rattle.au_closed_trees.specs.TreeViews.{callee as callee_said, closed_note};
ghost use Rattle.au_type_texts.specs.Views.{closed_meaning};
ghost use Rattle.au_closed_meanings.specs.Surroundings.{call_noted};
ghost use Rattle.au_closed_meanings.specs.Views.{act_said};
ghost use Rattle.au_lowered.specs.Expressions.{acts, by_labels as labelled, by_position as placed, calls};
ghost use Rattle.au_lowered.specs.Expressions.{ships_call};
ghost use Rattle.au_lowering_expressions.specs.Views.{drafts_said};
ghost use Rattle.au_lowering_expressions.specs.Wrote.{wrote};
ghost use Rattle.au_meaning.specs.Expressions.{labels as labels_in};
ghost use Rattle.au_syntax.specs.Views.{argument_all};

use crate::drafts::{Draft, put, put_draft};
use crate::orders::{by_labels, by_position, unless_declared};
use au_base::{Memory, Sequence};
use au_closed_meanings::{Act, Lookup};
use au_closed_trees::{Callee, ClosedNote, ClosedTrees};
use au_low::Instr;
use au_shipped::ShippedCall;
use au_syntax::Argument;
use au_type_texts::Closed;
use std::alloc::Global;

/// Writes a shipped call.
fn put_shipped(
    out: &mut Vec<Draft>,
    call: ShippedCall,
    born: Option<Closed>,
    order: Vec<u32>,
) -> Result<(), Memory>
    ensures { OnOk result (drafts_said out.new.items
        ≡ wrote (ships_call call (option_map closed_meaning born) order.items) (drafts_said out.old.items)) }
{
    let order = Sequence::from_vec(order);
    match call {
        ShippedCall::Wrap(op, kind) => put(out, Instr::Wrap { op, kind, order }),
        ShippedCall::Convert(kind) => put(out, Instr::Convert(kind)),
        _ => match born {
            None => put(
                out,
                Instr::Shipped {
                    call,
                    of: None,
                    order,
                },
            ),
            Some(of) => put_draft(out, Draft::Birth { call, of, order }),
        },
    }
}

/// Writes what a call does, whose arguments have this order.
fn put_act(alloc: Global, out: &mut Vec<Draft>, act: Act, order: Vec<u32>) -> Result<(), Memory>
    ensures { OnOk result (drafts_said out.new.items
        ≡ wrote (acts (act_said act) order.items) (drafts_said out.old.items)) }
{
    match act {
        Act::Invokes(function) => {
            let order = Sequence::from_vec(order);
            put(out, Instr::Call { function, order })
        }
        Act::Makes { of, tag, home } => {
            let order = Sequence::from_vec(order);
            put_draft(
                out,
                Draft::Make {
                    of,
                    tag,
                    order,
                    home,
                },
            )
        }
        Act::Ships(call, born) => put_shipped(out, call, born, unless_declared(alloc, order)),
    }
}

/// Writes a call of whose expression this is the note, with arguments by position.
///
/// # Errors
///
/// Only for want of memory.
pub fn put_call<R: Lookup>(
    alloc: Global,
    lookup: &R,
    note: &ClosedNote,
    callee: &Callee,
    out: &mut Vec<Draft>,
) -> Result<(), Memory>
    ensures { OnOk result (drafts_said out.new.items
        ≡ wrote (calls (call_noted (R.round lookup.now) (closed_note note.now) (callee_said callee.now))
        placed)
        (drafts_said out.old.items)) }
{
    let found = lookup.called(alloc, note, callee)?;
    match found {
        None => Ok(()),
        Some(called) => {
            let order = by_position(alloc, &called.parameters)?;
            put_act(alloc, out, called.act, order)
        }
    }
}

/// The same with named arguments.
///
/// # Errors
///
/// Only for want of memory.
pub fn put_named_call<R: Lookup>(
    alloc: Global,
    lookup: &R,
    note: &ClosedNote,
    callee: &Callee,
    labels: &Vec<Argument<ClosedTrees>>,
    out: &mut Vec<Draft>,
) -> Result<(), Memory>
    ensures { OnOk result (drafts_said out.new.items
        ≡ wrote (calls (call_noted (R.round lookup.now) (closed_note note.now) (callee_said callee.now))
        (labelled (labels_in (argument_all closed labels.now.items)))) (drafts_said out.old.items)) }
{
    let found = lookup.called(alloc, note, callee)?;
    match found {
        None => Ok(()),
        Some(called) => {
            let order = by_labels(alloc, &called.parameters, labels)?;
            put_act(alloc, out, called.act, order)
        }
    }
}
