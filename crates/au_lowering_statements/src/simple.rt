//! The code of statements that hold no block.

ghost use Rattle.std.specs.Prelude.{◌≡◌, OnOk, map};
ghost use Rattle.au_closed_trees.specs.contracts.phase.ClosedTreesPhase.TheImpl.{ghosts as closed};
ghost use Rattle.au_closed_meanings.specs.Surroundings.{view_in};
ghost use Rattle.au_low.specs.declared.instructions.Instr.TheVariants.{Discard, Return, Take};
ghost use Rattle.au_lowered.specs.Drafts.{does};
ghost use Rattle.au_lowered.specs.Expressions as spec;
ghost use Rattle.au_lowering_expressions.specs.Views.{drafts_said, scope_said};
ghost use Rattle.au_lowering_expressions.specs.Wrote.{wrote};
ghost use Rattle.au_lowering_statements.specs.Ends.{puts, sets};
ghost use Rattle.au_lowering_statements.specs.Pieces as pieces;
ghost use Rattle.au_meaning.specs.Expressions.{names_of};
ghost use Rattle.au_meaning.specs.Names.{variable_of};
ghost use Rattle.au_syntax.specs.Views.{expression, placed, statement};

use crate::block_pieces::write_stored;
use crate::pieces::{put_put, put_set};
use crate::writers::Writer;
use au_base::{Memory, Name};
use au_closed_meanings::Lookup;
use au_closed_trees::ClosedTrees;
use au_low::Instr;
use au_lowering_expressions::{Draft, Locals, put, write_expression, write_whole};
use au_syntax::{Expr, Ident, Stmt};

/// Writes an expression, and what puts the fields of the record that it gives into slots from one on.
fn write_taken<R: Lookup>(
    by: &Writer<R>,
    scope: &Locals,
    value: &Expr<ClosedTrees>,
    out: &mut Vec<Draft>,
) -> Result<(), Memory>
    ensures { OnOk result (drafts_said out.new.items
        ≡ wrote (does (Take by.now.slot))
        (wrote (spec.whole (view_in (R.round by.now.lookup.now)) by.now.around (scope_said scope.now)
        (expression closed value.now)) (drafts_said out.old.items))) }
{
    write_whole(by.alloc, by.lookup, scope, by.around, value, out)?;
    put(out, Instr::Take(by.slot))
}

/// Writes an expression, and what pops it into a part of a variable.
fn write_assign<R: Lookup>(
    by: &Writer<R>,
    scope: &Locals,
    name: &Name,
    fields: &Vec<Ident<ClosedTrees>>,
    value: &Expr<ClosedTrees>,
    out: &mut Vec<Draft>,
) -> Result<(), Memory>
    ensures { OnOk result (drafts_said out.new.items
        ≡ wrote (spec.part_of (view_in (R.round by.now.lookup.now))
        (variable_of (scope_said scope.now) name.now) (names_of (map (placed closed) fields.now.items)) sets)
        (wrote (spec.whole (view_in (R.round by.now.lookup.now)) by.now.around (scope_said scope.now)
        (expression closed value.now)) (drafts_said out.old.items))) }
{
    write_whole(by.alloc, by.lookup, scope, by.around, value, out)?;
    put_set(by.alloc, by.lookup, scope, name, fields, out)
}

/// Writes an expression, and what pops it into a part of what a variable refers to.
fn write_assign_through<R: Lookup>(
    by: &Writer<R>,
    scope: &Locals,
    name: &Name,
    fields: &Vec<Ident<ClosedTrees>>,
    value: &Expr<ClosedTrees>,
    out: &mut Vec<Draft>,
) -> Result<(), Memory>
    ensures { OnOk result (drafts_said out.new.items
        ≡ wrote (spec.part_behind (view_in (R.round by.now.lookup.now))
        (variable_of (scope_said scope.now) name.now) (names_of (map (placed closed) fields.now.items)) puts)
        (wrote (spec.whole (view_in (R.round by.now.lookup.now)) by.now.around (scope_said scope.now)
        (expression closed value.now)) (drafts_said out.old.items))) }
{
    write_whole(by.alloc, by.lookup, scope, by.around, value, out)?;
    put_put(by.alloc, by.lookup, scope, name, fields, out)
}

/// Writes a call, and what discards its result.
fn write_call<R: Lookup>(
    by: &Writer<R>,
    scope: &Locals,
    call: &Expr<ClosedTrees>,
    out: &mut Vec<Draft>,
) -> Result<(), Memory>
    ensures { OnOk result (drafts_said out.new.items
        ≡ wrote (does Discard)
        (wrote (spec.whole (view_in (R.round by.now.lookup.now)) by.now.around (scope_said scope.now)
        (expression closed call.now)) (drafts_said out.old.items))) }
{
    write_whole(by.alloc, by.lookup, scope, by.around, call, out)?;
    put(out, Instr::Discard)
}

/// Writes an expression whose value is returned.
fn write_return<R: Lookup>(
    by: &Writer<R>,
    scope: &Locals,
    value: &Expr<ClosedTrees>,
    out: &mut Vec<Draft>,
) -> Result<(), Memory>
    ensures { OnOk result (drafts_said out.new.items
        ≡ wrote (does Return)
        (wrote (spec.code (view_in (R.round by.now.lookup.now)) (scope_said scope.now)
        (expression closed value.now)) (drafts_said out.old.items))) }
{
    write_expression(by.alloc, by.lookup, scope, value, out)?;
    put(out, Instr::Return)
}

/// Writes a statement that holds no block, and nothing for one that holds a block.
pub fn write_simple<R: Lookup>(
    by: &Writer<R>,
    scope: &Locals,
    of: &Stmt<ClosedTrees>,
    out: &mut Vec<Draft>,
) -> Result<(), Memory>
    ensures { OnOk result (drafts_said out.new.items
        ≡ wrote (pieces.simple (view_in (R.round by.now.lookup.now)) by.now.around by.now.slot
        (scope_said scope.now)
        (statement closed of.now)) (drafts_said out.old.items)) }
{
    match of {
        Stmt::Let(_, _, _, _, value) => write_stored(by, scope, value, out),
        Stmt::Destructure(_, _, value) => write_taken(by, scope, value, out),
        Stmt::Assign(_, name, fields, value) => {
            write_assign(by, scope, &name.name, fields, value, out)
        }
        Stmt::AssignThrough(_, name, fields, value) => {
            write_assign_through(by, scope, &name.name, fields, value, out)
        }
        Stmt::Call(_, call) => write_call(by, scope, call, out),
        Stmt::Return(_, value) => write_return(by, scope, value, out),
        _ => Ok(()),
    }
}
