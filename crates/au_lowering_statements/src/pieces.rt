//! The code of what statements without blocks do behind their expressions.

ghost use Rattle.std.specs.Prelude.{◌≡◌, OnOk, map};
ghost use Rattle.std.specs.Option.{option_map};
ghost use Rattle.au_closed_trees.specs.contracts.phase.ClosedTreesPhase.TheImpl.{ghosts as closed};
ghost use Rattle.au_closed_meanings.specs.Surroundings.{view_in};
ghost use Rattle.au_lowered.specs.Expressions as spec;
ghost use Rattle.au_lowered.specs.Statements as statements;
ghost use Rattle.au_lowering_expressions.specs.Views.{drafts_said, scope_said};
ghost use Rattle.au_lowering_expressions.specs.Wrote.{wrote};
ghost use Rattle.au_lowering_statements.specs.Ends.{binds, puts, sets};
ghost use Rattle.au_meaning.specs.Expressions.{names_of};
ghost use Rattle.au_meaning.specs.Names.{variable_of};
ghost use Rattle.au_syntax.specs.Views.{placed};

use au_base::{Memory, Name};
use au_closed_meanings::Lookup;
use au_closed_trees::ClosedTrees;
use au_low::{Instr, Mode};
use au_lowering_expressions::{Draft, Locals, part_of, part_past, put};
use au_syntax::{BorrowMode, Ident};
use std::alloc::Global;

/// Writes what pops into a part of a variable.
pub fn put_set<R: Lookup>(
    alloc: Global,
    lookup: &R,
    scope: &Locals,
    name: &Name,
    fields: &Vec<Ident<ClosedTrees>>,
    out: &mut Vec<Draft>,
) -> Result<(), Memory>
    ensures { OnOk result (drafts_said out.new.items
        ≡ wrote (spec.part_of (view_in (R.round lookup.now)) (variable_of (scope_said scope.now) name.now)
        (names_of (map (placed closed) fields.now.items)) sets) (drafts_said out.old.items)) }
{
    match part_of(alloc, lookup, scope, name, fields)? {
        None => Ok(()),
        Some(part) => put(
            out,
            Instr::Set {
                slot: part.slot,
                path: part.path,
            },
        ),
    }
}

/// Writes what pops into a part of what a variable refers to.
pub fn put_put<R: Lookup>(
    alloc: Global,
    lookup: &R,
    scope: &Locals,
    name: &Name,
    fields: &Vec<Ident<ClosedTrees>>,
    out: &mut Vec<Draft>,
) -> Result<(), Memory>
    ensures { OnOk result (drafts_said out.new.items
        ≡ wrote (spec.part_behind (view_in (R.round lookup.now)) (variable_of (scope_said scope.now) name.now)
        (names_of (map (placed closed) fields.now.items)) puts) (drafts_said out.old.items)) }
{
    match part_past(alloc, lookup, scope, name, fields)? {
        None => Ok(()),
        Some(part) => put(
            out,
            Instr::Put {
                slot: part.slot,
                path: part.path,
            },
        ),
    }
}

/// How a borrow statement borrows.
fn mode_in(mode: BorrowMode) -> Mode
    ensures { result ≡ statements.mode_in mode }
{
    match mode {
        BorrowMode::Read => Mode::Read,
        BorrowMode::Write => Mode::Write,
        BorrowMode::Reborrow => Mode::Again,
    }
}

/// Writes a borrow of a variable into a slot.
pub fn put_bind(
    scope: &Locals,
    mode: BorrowMode,
    name: &Name,
    slot: u32,
    out: &mut Vec<Draft>,
) -> Result<(), Memory>
    ensures { OnOk result (drafts_said out.new.items
        ≡ wrote (binds mode slot (variable_of (scope_said scope.now) name.now)) (drafts_said out.old.items)) }
{
    match scope.find(name) {
        None => Ok(()),
        Some(one) => put(
            out,
            Instr::Bind {
                from: one.slot,
                into: slot,
                mode: mode_in(mode),
            },
        ),
    }
}
