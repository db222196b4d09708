//! The closed declared types that are noted in a tree.

ghost use Rattle.std.specs.Prelude.{◌≡◌, ◌++◌, [], OnOk};
ghost use Rattle.au_syntax.specs.Views.{argument_all, arm_all, block, branch_all, expression};
ghost use Rattle.au_syntax.specs.Views.{expression_all, statement};
ghost use Rattle.au_closed_trees.specs.contracts.phase.ClosedTreesPhase.TheImpl.{ghosts as closed};
ghost use Rattle.au_graphs.specs.Reached.{adds};
ghost use Rattle.au_type_texts.specs.Same.{same};
ghost use Rattle.au_closed_trees.specs.TreeViews.{closed_note};
ghost use Rattle.au_closed_trees.specs.Notes as spec;
ghost use Rattle.au_closed_trees.specs.Types.{types_in_block, types_noted};

use crate::gathering::{Gathered, gather};
use crate::{ClosedNote, ClosedTrees};
use au_base::Memory;
use au_syntax::{Argument, Arm, Block, Branch, Expr, Stmt};
use std::alloc::Global;

/// Gathers the declared types that occur in the type of a note.
fn add_note(alloc: Global, note: &ClosedNote, found: &mut Gathered) -> Result<(), Memory>
    ensures { OnOk result (found.new
        ≡ adds same found.old (types_noted [] (closed_note note.now))) }
{
    gather(alloc, &note.of, found)
}

/// Gathers the declared types that are noted in an expression.
#[cycle(add_expression)]
fn add_expression(alloc: Global, of: &Expr<ClosedTrees>, found: &mut Gathered) -> Result<(), Memory>
    ensures { OnOk result (found.new
        ≡ adds same found.old (spec.said_in (types_noted []) (expression closed of.now))) }
{
    match of {
        Expr::Number(site, _) => add_note(alloc, &site.note, found),
        Expr::Negative(site, _) => add_note(alloc, &site.note, found),
        Expr::Text(site, _) => add_note(alloc, &site.note, found),
        Expr::Bool(site, _) => add_note(alloc, &site.note, found),
        Expr::Nil(site) => add_note(alloc, &site.note, found),
        Expr::Path(site, _, _) => add_note(alloc, &site.note, found),
        Expr::Arrow(site, _, _) => add_note(alloc, &site.note, found),
        Expr::Call(site, _, arguments, _) => {
            add_note(alloc, &site.note, found)?;
            add_expressions(alloc, arguments, found)
        }
        Expr::NamedCall(site, _, arguments, _) => {
            add_note(alloc, &site.note, found)?;
            add_arguments(alloc, arguments, found)
        }
        Expr::Parenthesized(site, inner) => {
            add_note(alloc, &site.note, found)?;
            add_expression(alloc, inner, found)
        }
        Expr::Dereference(site, inner) => {
            add_note(alloc, &site.note, found)?;
            add_expression(alloc, inner, found)
        }
        Expr::Borrow(site, _, _) => add_note(alloc, &site.note, found),
        Expr::BorrowPart(site, _, _) => add_note(alloc, &site.note, found),
        Expr::Binary(site, _, left, right) => {
            add_note(alloc, &site.note, found)?;
            add_expression(alloc, left, found)?;
            add_expression(alloc, right, found)
        }
        Expr::Not(site, inner) => {
            add_note(alloc, &site.note, found)?;
            add_expression(alloc, inner, found)
        }
        Expr::Typed(site, inner, _) => {
            add_note(alloc, &site.note, found)?;
            add_expression(alloc, inner, found)
        }
        Expr::If(site, test, then, otherwise) => {
            add_note(alloc, &site.note, found)?;
            add_expression(alloc, test, found)?;
            add_expression(alloc, then, found)?;
            add_expression(alloc, otherwise, found)
        }
    }
}

/// The same of expressions in order.
#[cycle(add_expression)]
fn add_expressions(
    alloc: Global,
    all: &Vec<Expr<ClosedTrees>>,
    found: &mut Gathered,
) -> Result<(), Memory>
    ensures { OnOk result (found.new
        ≡ adds same found.old (spec.said_in_all (types_noted []) (expression_all closed all.now.items))) }
{
    for one in all {
        add_expression(alloc, one, found)?;
    }
    Ok(())
}

/// The same of a named argument.
#[cycle(add_expression)]
fn add_argument(
    alloc: Global,
    of: &Argument<ClosedTrees>,
    found: &mut Gathered,
) -> Result<(), Memory>
    ensures { OnOk result (found.new
        ≡ adds same found.old (spec.said_in (types_noted []) (expression closed of.now.value))) }
{
    add_expression(alloc, &of.value, found)
}

/// The same of named arguments in order.
#[cycle(add_expression)]
fn add_arguments(
    alloc: Global,
    all: &Vec<Argument<ClosedTrees>>,
    found: &mut Gathered,
) -> Result<(), Memory>
    ensures { OnOk result (found.new
        ≡ adds same found.old (spec.said_in_arguments (types_noted []) (argument_all closed all.now.items))) }
{
    for one in all {
        add_argument(alloc, one, found)?;
    }
    Ok(())
}

/// The same of a statement.
#[cycle(add_statement)]
fn add_statement(alloc: Global, of: &Stmt<ClosedTrees>, found: &mut Gathered) -> Result<(), Memory>
    ensures { OnOk result (found.new
        ≡ adds same found.old (spec.said_in_statement (types_noted []) (statement closed of.now))) }
{
    match of {
        Stmt::Skip(_) => Ok(()),
        Stmt::Let(_, _, _, _, value) => add_expression(alloc, value, found),
        Stmt::Destructure(_, _, value) => add_expression(alloc, value, found),
        Stmt::Assign(_, _, _, value) => add_expression(alloc, value, found),
        Stmt::AssignThrough(_, _, _, value) => add_expression(alloc, value, found),
        Stmt::If(_, branches) => add_branches(alloc, branches, found),
        Stmt::IfElse(_, branches, last) => {
            add_branches(alloc, branches, found)?;
            add_block(alloc, last, found)
        }
        Stmt::Case(_, value, arms) => {
            add_expression(alloc, value, found)?;
            add_arms(alloc, arms, found)
        }
        Stmt::While(_, test, body) => {
            add_expression(alloc, test, found)?;
            add_block(alloc, body, found)
        }
        Stmt::For(_, _, from, to, body) => {
            add_expression(alloc, from, found)?;
            add_expression(alloc, to, found)?;
            add_block(alloc, body, found)
        }
        Stmt::Borrow(_, _, _, body, _) => add_block(alloc, body, found),
        Stmt::BorrowTyped(_, _, _, _, _, body, _) => add_block(alloc, body, found),
        Stmt::Call(_, call) => add_expression(alloc, call, found),
        Stmt::Return(_, value) => add_expression(alloc, value, found),
    }
}

/// The same of a block.
#[cycle(add_statement)]
fn add_block(alloc: Global, of: &Block<ClosedTrees>, found: &mut Gathered) -> Result<(), Memory>
    ensures { OnOk result (found.new
        ≡ adds same found.old (spec.said_in_block (types_noted []) (block closed of.now))) }
{
    for one in &of.statements {
        add_statement(alloc, one, found)?;
    }
    Ok(())
}

/// The same of a branch of a conditional.
#[cycle(add_statement)]
fn add_branch(alloc: Global, of: &Branch<ClosedTrees>, found: &mut Gathered) -> Result<(), Memory>
    ensures { OnOk result (found.new
        ≡ adds same found.old (spec.said_in (types_noted []) (expression closed of.now.test.value)
        ++ spec.said_in_block (types_noted []) (block closed of.now.block))) }
{
    add_expression(alloc, &of.test, found)?;
    add_block(alloc, &of.block, found)
}

/// The same of the branches of a conditional.
#[cycle(add_statement)]
fn add_branches(
    alloc: Global,
    all: &Vec<Branch<ClosedTrees>>,
    found: &mut Gathered,
) -> Result<(), Memory>
    ensures { OnOk result (found.new
        ≡ adds same found.old (spec.said_in_branches (types_noted []) (branch_all closed all.now.items))) }
{
    for one in all {
        add_branch(alloc, one, found)?;
    }
    Ok(())
}

/// The same of an arm of a case.
#[cycle(add_statement)]
fn add_arm(alloc: Global, of: &Arm<ClosedTrees>, found: &mut Gathered) -> Result<(), Memory>
    ensures { OnOk result (found.new
        ≡ adds same found.old (spec.said_in_block (types_noted []) (block closed of.now.block))) }
{
    add_block(alloc, &of.block, found)
}

/// The same of the arms of a case.
#[cycle(add_statement)]
fn add_arms(alloc: Global, all: &Vec<Arm<ClosedTrees>>, found: &mut Gathered) -> Result<(), Memory>
    ensures { OnOk result (found.new
        ≡ adds same found.old (spec.said_in_arms (types_noted []) (arm_all closed all.now.items))) }
{
    for one in all {
        add_arm(alloc, one, found)?;
    }
    Ok(())
}

/// Gathers the declared types that occur in the types that are noted in a block.
///
/// # Errors
///
/// Only for want of memory.
pub fn add_types_in_block(
    alloc: Global,
    of: &Block<ClosedTrees>,
    found: &mut Gathered,
) -> Result<(), Memory>
    ensures { OnOk result (found.new
        ≡ adds same found.old (types_in_block [] (block closed of.now))) }
{
    add_block(alloc, of, found)
}
