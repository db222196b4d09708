//! The code of statements.

ghost use Rattle.std.specs.Prelude.{◌≡◌, ◌+◌, ◌++◌, ◌||◌, [], true, IfOk, None, OnOk, Some, length, map};
ghost use Rattle.std.specs.Prelude.{unwrap_or};
ghost use Rattle.au_closed_trees.specs.contracts.phase.ClosedTreesPhase.TheImpl.{ghosts as closed};
ghost use Rattle.au_closed_trees.specs.TreeViews.{closed_note};
ghost use Rattle.au_closed_meanings.specs.Surroundings.{view_in};
ghost use Rattle.au_typing.specs.Returns as returning;
ghost use Rattle.au_lowered.specs.Drafts.{looped, nothing};
ghost use Rattle.au_lowered.specs.Expressions.{whole};
ghost use Rattle.au_lowered.specs.Statements as spec;
ghost use Rattle.au_lowering_expressions.specs.Views.{drafts_said, scope_said};
ghost use Rattle.au_lowering_expressions.specs.Wrote.{wrote};
ghost use Rattle.au_lowering_statements.specs.Pieces as pieces;
ghost use Rattle.au_lowering_statements.specs.Ends as ends;
ghost use Rattle.au_lowering_statements.specs.Views.{starts_said};
ghost use Rattle.au_meaning.specs.Expressions as meant;
ghost use Rattle.au_meaning.specs.Names as named;
ghost use Rattle.au_meaning.specs.Names.{variable_of, with_name};
ghost use Rattle.au_syntax.specs.Views.{arm_all, block, bound, branch_all, expression, placed, statement};

use crate::arms::{Start, end_case, enter_arm, put_case, put_start};
use crate::block_pieces::{
    begin_loop, declare_counter, declare_reference, end_range, mode_of, put_counter, put_range,
    put_step, write_bounds,
};
use crate::entering::{enter, further, kept};
use crate::jumps::{either, end_jumps, is_last, put_end, put_unless};
use crate::pieces::put_bind;
use crate::simple::write_simple;
use crate::writers::Writer;
use au_base::{Memory, Name};
use au_closed_meanings::Lookup;
use au_closed_trees::{ClosedNote, ClosedTrees};
use au_judgements::returning::block_returns;
use au_low::Instr;
use au_lowering_expressions::{Draft, Locals, end_test, here, note_of, put, write_whole};
use au_syntax::{Access, Arm, Block, BorrowMode, BorrowNames, Branch, Expr, Stmt};

/// Writes a `while`.
#[cycle(write)]
fn write_while<R: Lookup>(
    by: &Writer<R>,
    scope: &mut Locals,
    body: &Block<ClosedTrees>,
    test: &Expr<ClosedTrees>,
    out: &mut Vec<Draft>,
) -> Result<(), Memory>
    ensures code { OnOk result (drafts_said out.new.items
        ≡ wrote (looped (returning.block_returns (block closed body.now))
        (whole (view_in (R.round by.now.lookup.now)) by.now.around (scope_said scope.old)
        (expression closed test.now))
        (spec.block (view_in (R.round by.now.lookup.now)) by.now.around by.now.slot
        (scope_said scope.old) (block closed body.now))) (drafts_said out.old.items)) }
    ensures same { OnOk result (scope.new ≡ scope.old) }
{
    let start = begin_loop(by, scope, test, out)?;
    let at = out.len();
    put(out, Instr::JumpNot(0))?;
    write_block(by, scope, body, out)?;
    put_unless(out, block_returns(body), Instr::Jump(start))?;
    end_test(out, at)?;
    Ok(())
}

/// Writes the block of `for`, and what ends a turn.
#[cycle(write)]
fn write_counted<R: Lookup>(
    by: &Writer<R>,
    start: u32,
    scope: &mut Locals,
    body: &Block<ClosedTrees>,
    out: &mut Vec<Draft>,
) -> Result<(), Memory>
    ensures code { OnOk result (drafts_said out.new.items
        ≡ wrote (pieces.counted (returning.block_returns (block closed body.now)) by.now.slot start
        (spec.block (view_in (R.round by.now.lookup.now)) by.now.around (by.now.slot + 3)
        (scope_said scope.old) (block closed body.now))) (drafts_said out.old.items)) }
    ensures same { OnOk result (scope.new ≡ scope.old) }
{
    let slot = further(by.slot, 3)?;
    write_block(&Writer { slot, ..*by }, scope, body, out)?;
    put_step(out, block_returns(body), by.slot, start)?;
    Ok(())
}

/// Writes one turn of `for`, where the variable is in scope.
#[cycle(write)]
fn write_turn<R: Lookup>(
    by: &Writer<R>,
    scope: &mut Locals,
    body: &Block<ClosedTrees>,
    out: &mut Vec<Draft>,
) -> Result<(), Memory>
    ensures code { OnOk result (drafts_said out.new.items
        ≡ wrote (ends.turn_from (returning.block_returns (block closed body.now)) by.now.slot
        (spec.block (view_in (R.round by.now.lookup.now)) by.now.around (by.now.slot + 3)
        (scope_said scope.old) (block closed body.now))) (drafts_said out.old.items)) }
    ensures same { OnOk result (scope.new ≡ scope.old) }
{
    let start = here(out)?;
    put_counter(by.alloc, out, by.slot)?;
    write_counted(by, start, scope, body, out)?;
    Ok(())
}

/// Writes the turns of `for`, where the variable is in scope.
#[cycle(write)]
fn write_range<R: Lookup>(
    by: &Writer<R>,
    scope: &mut Locals,
    body: &Block<ClosedTrees>,
    out: &mut Vec<Draft>,
) -> Result<(), Memory>
    ensures code { OnOk result (drafts_said out.new.items
        ≡ wrote (spec.turns (returning.block_returns (block closed body.now)) by.now.slot
        (spec.block (view_in (R.round by.now.lookup.now)) by.now.around (by.now.slot + 3)
        (scope_said scope.old) (block closed body.now))) (drafts_said out.old.items)) }
    ensures same { OnOk result (scope.new ≡ scope.old) }
{
    let at = put_range(out, by.slot)?;
    write_turn(by, scope, body, out)?;
    end_range(out, at, by.slot)?;
    Ok(())
}

/// Writes a `for`, by the name of its variable.
#[cycle(write)]
fn write_for<R: Lookup>(
    by: &Writer<R>,
    scope: &mut Locals,
    body: &Block<ClosedTrees>,
    name: &Name,
    from: &Expr<ClosedTrees>,
    to: &Expr<ClosedTrees>,
    out: &mut Vec<Draft>,
) -> Result<(), Memory>
    ensures code { OnOk result (drafts_said out.new.items
        ≡ wrote (spec.turns (returning.block_returns (block closed body.now)) by.now.slot
        (spec.block (view_in (R.round by.now.lookup.now)) by.now.around (by.now.slot + 3)
        (with_name name.now (by.now.slot + 2) (Some (meant.note_of (expression closed from.now)).of)
        (scope_said scope.old))
        (block closed body.now)))
        (pieces.with_bounds (view_in (R.round by.now.lookup.now)) by.now.around by.now.slot
        (scope_said scope.old)
        (expression closed from.now) (expression closed to.now) (drafts_said out.old.items))) }
    ensures same { OnOk result (scope.new ≡ scope.old) }
{
    write_bounds(by, scope, from, to, out)?;
    let depth = scope.len();
    declare_counter(by.alloc, scope, name, by.slot, note_of(from))?;
    write_range(by, scope, body, out)?;
    scope.leave_to(depth);
    Ok(())
}

/// Writes the block of a borrow statement, and what ends the borrow.
#[cycle(write)]
fn write_lent<R: Lookup>(
    by: &Writer<R>,
    scope: &mut Locals,
    body: &Block<ClosedTrees>,
    out: &mut Vec<Draft>,
) -> Result<(), Memory>
    ensures code { OnOk result (drafts_said out.new.items
        ≡ wrote (ends.lent (returning.block_returns (block closed body.now)) by.now.around
        (spec.block (view_in (R.round by.now.lookup.now)) (by.now.around + 1) (by.now.slot + 1)
        (scope_said scope.old) (block closed body.now))) (drafts_said out.old.items)) }
    ensures same { OnOk result (scope.new ≡ scope.old) }
{
    let around = further(by.around, 1)?;
    let slot = further(by.slot, 1)?;
    let inner = Writer {
        around,
        slot,
        ..*by
    };
    write_block(&inner, scope, body, out)?;
    put_unless(out, block_returns(body), Instr::Close(by.around))?;
    Ok(())
}

/// Writes a borrow statement.
#[cycle(write)]
fn write_borrow<R: Lookup>(
    by: &Writer<R>,
    scope: &mut Locals,
    mode: BorrowMode,
    variable: &Name,
    name: &Name,
    body: &Block<ClosedTrees>,
    out: &mut Vec<Draft>,
) -> Result<(), Memory>
    ensures code { OnOk result (drafts_said out.new.items
        ≡ wrote (spec.lends (returning.block_returns (block closed body.now)) by.now.around by.now.slot mode
        (variable_of (scope_said scope.old) variable.now)
        (spec.block (view_in (R.round by.now.lookup.now)) (by.now.around + 1) (by.now.slot + 1)
        (named.with_reference mode (variable_of (scope_said scope.old) variable.now) by.now.slot
        name.now (scope_said scope.old)) (block closed body.now))) (drafts_said out.old.items)) }
    ensures same { OnOk result (scope.new ≡ scope.old) }
{
    let depth = scope.len();
    put_bind(scope, mode, variable, by.slot, out)?;
    declare_reference(by.alloc, mode, variable, by.slot, name, scope)?;
    write_lent(by, scope, body, out)?;
    scope.leave_to(depth);
    Ok(())
}

/// Writes a borrow statement that names no type.
#[cycle(write)]
fn write_borrow_as<R: Lookup>(
    by: &Writer<R>,
    scope: &mut Locals,
    access: Access,
    names: &BorrowNames<ClosedTrees>,
    body: &Block<ClosedTrees>,
    out: &mut Vec<Draft>,
) -> Result<(), Memory>
    ensures code { OnOk result (drafts_said out.new.items
        ≡ wrote (spec.lends (returning.block_returns (block closed body.now)) by.now.around by.now.slot
        (named.mode_of access)
        (variable_of (scope_said scope.old) (placed closed names.now.variable).name)
        (spec.block (view_in (R.round by.now.lookup.now)) (by.now.around + 1) (by.now.slot + 1)
        (named.with_reference (named.mode_of access)
        (variable_of (scope_said scope.old) (placed closed names.now.variable).name) by.now.slot
        (placed closed names.now.reference).name
        (scope_said scope.old)) (block closed body.now))) (drafts_said out.old.items)) }
    ensures same { OnOk result (scope.new ≡ scope.old) }
{
    let mode = mode_of(access);
    let variable = &names.variable.name;
    let name = &names.reference.name;
    write_borrow(by, scope, mode, variable, name, body, out)?;
    Ok(())
}

/// Writes a branch behind its test, and its jump to the end where something follows it.
#[cycle(write)]
fn write_branch<R: Lookup>(
    by: &Writer<R>,
    scope: &mut Locals,
    followed: bool,
    body: &Block<ClosedTrees>,
    jumps: &mut Vec<usize>,
    out: &mut Vec<Draft>,
) -> Result<(), Memory>
    ensures code { OnOk result (ends.Holed
        (λ m. ends.branch_upto followed (returning.block_returns (block closed body.now)) m
        (spec.block (view_in (R.round by.now.lookup.now)) by.now.around by.now.slot
        (scope_said scope.old) (block closed body.now)))
        jumps.old.items (drafts_said out.old.items) jumps.new.items (drafts_said out.new.items)) }
    ensures same { OnOk result (scope.new ≡ scope.old) }
{
    let test = out.len();
    put(out, Instr::JumpNot(0))?;
    write_block(by, scope, body, out)?;
    put_end(out, jumps, is_last(block_returns(body), followed))?;
    end_test(out, test)?;
    Ok(())
}

/// Writes a test and its branch.
#[cycle(write)]
fn write_test<R: Lookup>(
    by: &Writer<R>,
    scope: &mut Locals,
    followed: bool,
    of: &Branch<ClosedTrees>,
    jumps: &mut Vec<usize>,
    out: &mut Vec<Draft>,
) -> Result<(), Memory>
    ensures code { OnOk result (ends.Holed
        (pieces.test_upto followed (returning.block_returns (block closed of.now.block))
        (whole (view_in (R.round by.now.lookup.now)) by.now.around (scope_said scope.old)
        (expression closed of.now.test.value))
        (spec.block (view_in (R.round by.now.lookup.now)) by.now.around by.now.slot
        (scope_said scope.old) (block closed of.now.block)))
        jumps.old.items (drafts_said out.old.items) jumps.new.items (drafts_said out.new.items)) }
    ensures same { OnOk result (scope.new ≡ scope.old) }
{
    write_whole(by.alloc, by.lookup, scope, by.around, &of.test, out)?;
    write_branch(by, scope, followed, &of.block, jumps, out)?;
    Ok(())
}

/// Writes tests with their branches, by whether something follows where none is true.
#[cycle(write)]
fn write_tests<R: Lookup>(
    by: &Writer<R>,
    scope: &mut Locals,
    more: bool,
    branches: &Vec<Branch<ClosedTrees>>,
    jumps: &mut Vec<usize>,
    out: &mut Vec<Draft>,
) -> Result<(), Memory>
    ensures code { OnOk result (ends.Holed
        (λ m. ends.tests_upto (view_in (R.round by.now.lookup.now)) by.now.around by.now.slot
        (scope_said scope.old) m more
        (branch_all closed branches.now.items))
        jumps.old.items (drafts_said out.old.items) jumps.new.items (drafts_said out.new.items)) }
    ensures same { OnOk result (scope.new ≡ scope.old) }
{
    let mut left = branches.len();
    for one in branches {
        left -= 1;
        let followed = either(more, left > 0);
        write_test(by, scope, followed, one, jumps, out)?;
    }
    Ok(())
}

/// Writes a conditional without `else`.
#[cycle(write)]
fn write_conditional<R: Lookup>(
    by: &Writer<R>,
    scope: &mut Locals,
    branches: &Vec<Branch<ClosedTrees>>,
    out: &mut Vec<Draft>,
) -> Result<(), Memory>
    ensures code { OnOk result (drafts_said out.new.items
        ≡ wrote (unwrap_or (spec.tests_of (view_in (R.round by.now.lookup.now)) by.now.around by.now.slot
        (scope_said scope.old)
        (branch_all closed branches.now.items) None) nothing) (drafts_said out.old.items)) }
    ensures same { OnOk result (scope.new ≡ scope.old) }
{
    let mut jumps = Vec::new(by.alloc);
    write_tests(by, scope, false, branches, &mut jumps, out)?;
    end_jumps(out, &jumps)?;
    Ok(())
}

/// Writes the tests of a conditional with `else`, and answers where its jumps to the end stand.
#[cycle(write)]
fn write_jumps<R: Lookup>(
    by: &Writer<R>,
    scope: &mut Locals,
    branches: &Vec<Branch<ClosedTrees>>,
    out: &mut Vec<Draft>,
) -> Result<Vec<usize>, Memory>
    ensures code { IfOk result (λ jumps. ends.Holed
        (λ m. ends.tests_upto (view_in (R.round by.now.lookup.now)) by.now.around by.now.slot
        (scope_said scope.old) m true
        (branch_all closed branches.now.items))
        [] (drafts_said out.old.items) jumps.items (drafts_said out.new.items)) }
    ensures same { OnOk result (scope.new ≡ scope.old) }
{
    let mut jumps = Vec::new(by.alloc);
    write_tests(by, scope, true, branches, &mut jumps, out)?;
    Ok(jumps)
}

/// Writes the block behind `else`, and lets the jumps at these places go to the end.
#[cycle(write)]
fn write_last<R: Lookup>(
    by: &Writer<R>,
    scope: &mut Locals,
    last: &Block<ClosedTrees>,
    jumps: &Vec<usize>,
    out: &mut Vec<Draft>,
) -> Result<(), Memory>
    ensures code { OnOk result (drafts_said out.new.items
        ≡ pieces.ended jumps.now.items
        (wrote (spec.block (view_in (R.round by.now.lookup.now)) by.now.around by.now.slot
        (scope_said scope.old) (block closed last.now)) (drafts_said out.old.items))) }
    ensures same { OnOk result (scope.new ≡ scope.old) }
{
    write_block(by, scope, last, out)?;
    end_jumps(out, jumps)?;
    Ok(())
}

/// Writes the block of an arm behind its fields, and its jump to the end of the case, unless that isn't
/// needed.
#[cycle(write)]
fn write_arm_block<R: Lookup>(
    by: &Writer<R>,
    scope: &mut Locals,
    last: bool,
    body: &Block<ClosedTrees>,
    jumps: &mut Vec<usize>,
    out: &mut Vec<Draft>,
) -> Result<(), Memory>
    ensures code { OnOk result (ends.Holed
        (pieces.arm_to (returning.block_returns (block closed body.now) || last)
        (spec.block (view_in (R.round by.now.lookup.now)) by.now.around by.now.slot
        (scope_said scope.old) (block closed body.now)))
        jumps.old.items (drafts_said out.old.items) jumps.new.items (drafts_said out.new.items)) }
    ensures same { OnOk result (scope.new ≡ scope.old) }
{
    write_block(by, scope, body, out)?;
    put_end(out, jumps, either(block_returns(body), last))?;
    Ok(())
}

/// Writes an arm of a case, of a value that has this note.
#[cycle(write)]
fn write_arm<R: Lookup>(
    by: &Writer<R>,
    scope: &mut Locals,
    note: &ClosedNote,
    last: bool,
    of: &Arm<ClosedTrees>,
    jumps: &mut Vec<usize>,
    out: &mut Vec<Draft>,
) -> Result<(), Memory>
    ensures code { OnOk result (ends.Holed
        (pieces.arm_to (returning.block_returns (block closed of.now.block) || last)
        (ends.arm_block (view_in (R.round by.now.lookup.now)) by.now.around by.now.slot
        (scope_said scope.old)
        (closed_note note.now) (placed closed of.now.case).name (map (bound closed) of.now.binds.items)
        (block closed of.now.block)))
        jumps.old.items (drafts_said out.old.items) jumps.new.items (drafts_said out.new.items)) }
    ensures same { OnOk result (scope.new ≡ scope.old) }
{
    let depth = scope.len();
    let name = &of.case.name;
    let slot = enter_arm(by.alloc, by.lookup, by.slot, note, name, &of.binds, scope)?;
    let inner = Writer { slot, ..*by };
    write_arm_block(&inner, scope, last, &of.block, jumps, out)?;
    scope.leave_to(depth);
    Ok(())
}

/// Writes the arms of a case, of a value that has this note, and puts where each begins behind others.
#[cycle(write)]
fn write_arms<R: Lookup>(
    by: &Writer<R>,
    scope: &mut Locals,
    note: &ClosedNote,
    arms: &Vec<Arm<ClosedTrees>>,
    starts: &mut Vec<Start>,
    jumps: &mut Vec<usize>,
    out: &mut Vec<Draft>,
) -> Result<(), Memory>
    ensures code { OnOk result (ends.Holed
        (λ m p. (ends.arms_upto (view_in (R.round by.now.lookup.now)) by.now.around by.now.slot
        (scope_said scope.old) m
        (closed_note note.now) (arm_all closed arms.now.items) p).code)
        jumps.old.items (drafts_said out.old.items) jumps.new.items (drafts_said out.new.items)) }
    ensures starts { OnOk result (pieces.Begun jumps.old.items (drafts_said out.old.items)
        (starts_said starts.new.items)
        (starts_said starts.old.items
        ++ (ends.arms_upto (view_in (R.round by.now.lookup.now)) by.now.around by.now.slot
        (scope_said scope.old) 0
        (closed_note note.now) (arm_all closed arms.now.items)
        (length (drafts_said out.old.items))).starts)) }
    ensures same { OnOk result (scope.new ≡ scope.old) }
{
    let mut left = arms.len();
    for one in arms {
        left -= 1;
        let last = is_last(false, left > 0);
        put_start(by.lookup, note, &one.case.name, starts, out)?;
        write_arm(by, scope, note, last, one, jumps, out)?;
    }
    Ok(())
}

/// Writes a `case`.
#[cycle(write)]
fn write_case<R: Lookup>(
    by: &Writer<R>,
    scope: &mut Locals,
    arms: &Vec<Arm<ClosedTrees>>,
    value: &Expr<ClosedTrees>,
    out: &mut Vec<Draft>,
) -> Result<(), Memory>
    ensures code { OnOk result (drafts_said out.new.items
        ≡ wrote (spec.cases by.now.slot (spec.arms_of (view_in
        (R.round by.now.lookup.now)) by.now.around by.now.slot
        (scope_said scope.old) (meant.note_of (expression closed value.now))
        (arm_all closed arms.now.items)))
        (wrote (whole (view_in (R.round by.now.lookup.now)) by.now.around (scope_said scope.old)
        (expression closed value.now)) (drafts_said out.old.items))) }
    ensures same { OnOk result (scope.new ≡ scope.old) }
{
    write_whole(by.alloc, by.lookup, scope, by.around, value, out)?;
    let mut starts = Vec::new(by.alloc);
    let mut jumps = Vec::new(by.alloc);
    let at = put_case(by.alloc, out, by.slot)?;
    write_arms(
        by,
        scope,
        note_of(value),
        arms,
        &mut starts,
        &mut jumps,
        out,
    )?;
    end_case(by.alloc, out, at, by.slot, &starts, &jumps)?;
    Ok(())
}

/// Writes a statement.
#[cycle(write)]
fn write_statement<R: Lookup>(
    by: &Writer<R>,
    scope: &mut Locals,
    of: &Stmt<ClosedTrees>,
    out: &mut Vec<Draft>,
) -> Result<(), Memory>
    ensures code { OnOk result (drafts_said out.new.items
        ≡ wrote (spec.statement (view_in (R.round by.now.lookup.now)) by.now.around by.now.slot
        (scope_said scope.old) (statement closed of.now)) (drafts_said out.old.items)) }
    ensures same { OnOk result (scope.new ≡ scope.old) }
{
    match of {
        Stmt::If(_, tests) => write_conditional(by, scope, tests, out),
        Stmt::IfElse(_, branches, last) => {
            let jumps = write_jumps(by, scope, branches, out)?;
            write_last(by, scope, last, &jumps, out)?;
            Ok(())
        }
        Stmt::Case(_, value, arms) => write_case(by, scope, arms, value, out),
        Stmt::While(_, test, body) => write_while(by, scope, body, test, out),
        Stmt::For(_, name, from, to, body) => write_for(by, scope, body, &name.name, from, to, out),
        Stmt::Borrow(_, access, names, body, _) => {
            write_borrow_as(by, scope, *access, names, body, out)
        }
        Stmt::BorrowTyped(_, name, _, mode, lent, body, _) => {
            write_borrow(by, scope, *mode, &lent.name, &name.name, body, out)
        }
        _ => write_simple(by, scope, of, out),
    }
}

/// Writes statements one after another, behind other code. The variables that they declare are in scope no
/// longer.
///
/// # Errors
///
/// Only for want of memory. It is also what is answered where a place or a slot has more than 32 bits.
#[cycle(write)]
pub fn write_block<R: Lookup>(
    by: &Writer<R>,
    scope: &mut Locals,
    of: &Block<ClosedTrees>,
    out: &mut Vec<Draft>,
) -> Result<(), Memory>
    ensures code { OnOk result (drafts_said out.new.items
        ≡ wrote (spec.block (view_in (R.round by.now.lookup.now)) by.now.around by.now.slot
        (scope_said scope.old) (block closed of.now)) (drafts_said out.old.items)) }
    ensures same { OnOk result (scope.new ≡ scope.old) }
{
    let depth = scope.len();
    let mut slot = by.slot;
    for one in &of.statements {
        write_statement(&Writer { slot, ..*by }, scope, one, out)?;
        enter(by.alloc, by.lookup, slot, one, scope)?;
        slot = further(slot, kept(by.lookup, one))?;
    }
    scope.leave_to(depth);
    Ok(())
}
