//! What the calls in a tree lead to.

ghost use Rattle.std.specs.Prelude.{◌≡◌, ◌++◌, IfOk, OnOk, map};
ghost use Rattle.au_sights.specs.contracts.noted.NotedPhase.TheImpl.{ghosts as noted};
ghost use Rattle.au_syntax.specs.Views.{argument_all, arm_all, block, branch_all, expression};
ghost use Rattle.au_syntax.specs.Views.{expression_all, statement};
ghost use Rattle.au_closed_trees.specs.Calls as spec;

use crate::changes::Finder;
use au_base::Memory;
use au_sights::Noted;
use au_syntax::{Argument, Arm, Block, Branch, Expr, Stmt};
use std::alloc::Global;

/// Puts what the calls in an expression lead to behind others.
#[cycle(add_expression)]
fn add_expression<R: Finder>(
    alloc: Global,
    finder: &R,
    of: &Expr<Noted>,
    found: &mut Vec<R::Found>,
) -> Result<(), Memory>
    ensures { OnOk result (map R.see found.new.items
        ≡ map R.see found.old.items ++ spec.calls_in (R.leads finder.now) (expression noted of.now)) }
{
    match of {
        Expr::Number(_, _) => Ok(()),
        Expr::Negative(_, _) => Ok(()),
        Expr::Text(_, _) => Ok(()),
        Expr::Bool(_, _) => Ok(()),
        Expr::Nil(_) => Ok(()),
        Expr::Path(_, _, _) => Ok(()),
        Expr::Arrow(_, _, _) => Ok(()),
        Expr::Call(site, name, arguments, _) => {
            finder.add(alloc, &site.note, &name.name, found)?;
            add_expressions(alloc, finder, arguments, found)
        }
        Expr::NamedCall(site, name, arguments, _) => {
            finder.add(alloc, &site.note, &name.name, found)?;
            add_arguments(alloc, finder, arguments, found)
        }
        Expr::Parenthesized(_, inner) => add_expression(alloc, finder, inner, found),
        Expr::Dereference(_, inner) => add_expression(alloc, finder, inner, found),
        Expr::Borrow(_, _, _) => Ok(()),
        Expr::BorrowPart(_, _, _) => Ok(()),
        Expr::Binary(_, _, left, right) => {
            add_expression(alloc, finder, left, found)?;
            add_expression(alloc, finder, right, found)
        }
        Expr::Not(_, inner) => add_expression(alloc, finder, inner, found),
        Expr::Typed(_, inner, _) => add_expression(alloc, finder, inner, found),
        Expr::If(_, test, then, otherwise) => {
            add_expression(alloc, finder, test, found)?;
            add_expression(alloc, finder, then, found)?;
            add_expression(alloc, finder, otherwise, found)
        }
    }
}

/// The same of expressions in order.
#[cycle(add_expression)]
fn add_expressions<R: Finder>(
    alloc: Global,
    finder: &R,
    all: &Vec<Expr<Noted>>,
    found: &mut Vec<R::Found>,
) -> Result<(), Memory>
    ensures { OnOk result (map R.see found.new.items
        ≡ map R.see found.old.items
        ++ spec.calls_in_all (R.leads finder.now) (expression_all noted all.now.items)) }
{
    for one in all {
        add_expression(alloc, finder, one, found)?;
    }
    Ok(())
}

/// The same of a named argument.
#[cycle(add_expression)]
fn add_argument<R: Finder>(
    alloc: Global,
    finder: &R,
    of: &Argument<Noted>,
    found: &mut Vec<R::Found>,
) -> Result<(), Memory>
    ensures { OnOk result (map R.see found.new.items
        ≡ map R.see found.old.items
        ++ spec.calls_in (R.leads finder.now) (expression noted of.now.value)) }
{
    add_expression(alloc, finder, &of.value, found)
}

/// The same of named arguments in order.
#[cycle(add_expression)]
fn add_arguments<R: Finder>(
    alloc: Global,
    finder: &R,
    all: &Vec<Argument<Noted>>,
    found: &mut Vec<R::Found>,
) -> Result<(), Memory>
    ensures { OnOk result (map R.see found.new.items
        ≡ map R.see found.old.items
        ++ spec.calls_in_arguments (R.leads finder.now) (argument_all noted all.now.items)) }
{
    for one in all {
        add_argument(alloc, finder, one, found)?;
    }
    Ok(())
}

/// The same of a statement.
#[cycle(add_statement)]
fn add_statement<R: Finder>(
    alloc: Global,
    finder: &R,
    of: &Stmt<Noted>,
    found: &mut Vec<R::Found>,
) -> Result<(), Memory>
    ensures { OnOk result (map R.see found.new.items
        ≡ map R.see found.old.items
        ++ spec.calls_in_statement (R.leads finder.now) (statement noted of.now)) }
{
    match of {
        Stmt::Skip(_) => Ok(()),
        Stmt::Let(_, _, _, _, value) => add_expression(alloc, finder, value, found),
        Stmt::Destructure(_, _, value) => add_expression(alloc, finder, value, found),
        Stmt::Assign(_, _, _, value) => add_expression(alloc, finder, value, found),
        Stmt::AssignThrough(_, _, _, value) => add_expression(alloc, finder, value, found),
        Stmt::If(_, branches) => add_branches(alloc, finder, branches, found),
        Stmt::IfElse(_, branches, last) => {
            add_branches(alloc, finder, branches, found)?;
            add_block(alloc, finder, last, found)
        }
        Stmt::Case(_, value, arms) => {
            add_expression(alloc, finder, value, found)?;
            add_arms(alloc, finder, arms, found)
        }
        Stmt::While(_, test, body) => {
            add_expression(alloc, finder, test, found)?;
            add_block(alloc, finder, body, found)
        }
        Stmt::For(_, _, from, to, body) => {
            add_expression(alloc, finder, from, found)?;
            add_expression(alloc, finder, to, found)?;
            add_block(alloc, finder, body, found)
        }
        Stmt::Borrow(_, _, _, body, _) => add_block(alloc, finder, body, found),
        Stmt::BorrowTyped(_, _, _, _, _, body, _) => add_block(alloc, finder, body, found),
        Stmt::Call(_, call) => add_expression(alloc, finder, call, found),
        Stmt::Return(_, value) => add_expression(alloc, finder, value, found),
    }
}

/// The same of a block.
#[cycle(add_statement)]
fn add_block<R: Finder>(
    alloc: Global,
    finder: &R,
    of: &Block<Noted>,
    found: &mut Vec<R::Found>,
) -> Result<(), Memory>
    ensures { OnOk result (map R.see found.new.items
        ≡ map R.see found.old.items
        ++ spec.calls_in_block (R.leads finder.now) (block noted of.now)) }
{
    for one in &of.statements {
        add_statement(alloc, finder, one, found)?;
    }
    Ok(())
}

/// The same of a branch of a conditional.
#[cycle(add_statement)]
fn add_branch<R: Finder>(
    alloc: Global,
    finder: &R,
    of: &Branch<Noted>,
    found: &mut Vec<R::Found>,
) -> Result<(), Memory>
    ensures { OnOk result (map R.see found.new.items
        ≡ map R.see found.old.items
        ++ (spec.calls_in (R.leads finder.now) (expression noted of.now.test.value)
        ++ spec.calls_in_block (R.leads finder.now) (block noted of.now.block))) }
{
    add_expression(alloc, finder, &of.test, found)?;
    add_block(alloc, finder, &of.block, found)
}

/// The same of the branches of a conditional.
#[cycle(add_statement)]
fn add_branches<R: Finder>(
    alloc: Global,
    finder: &R,
    all: &Vec<Branch<Noted>>,
    found: &mut Vec<R::Found>,
) -> Result<(), Memory>
    ensures { OnOk result (map R.see found.new.items
        ≡ map R.see found.old.items
        ++ spec.calls_in_branches (R.leads finder.now) (branch_all noted all.now.items)) }
{
    for one in all {
        add_branch(alloc, finder, one, found)?;
    }
    Ok(())
}

/// The same of an arm of a case.
#[cycle(add_statement)]
fn add_arm<R: Finder>(
    alloc: Global,
    finder: &R,
    of: &Arm<Noted>,
    found: &mut Vec<R::Found>,
) -> Result<(), Memory>
    ensures { OnOk result (map R.see found.new.items
        ≡ map R.see found.old.items
        ++ spec.calls_in_block (R.leads finder.now) (block noted of.now.block)) }
{
    add_block(alloc, finder, &of.block, found)
}

/// The same of the arms of a case.
#[cycle(add_statement)]
fn add_arms<R: Finder>(
    alloc: Global,
    finder: &R,
    all: &Vec<Arm<Noted>>,
    found: &mut Vec<R::Found>,
) -> Result<(), Memory>
    ensures { OnOk result (map R.see found.new.items
        ≡ map R.see found.old.items
        ++ spec.calls_in_arms (R.leads finder.now) (arm_all noted all.now.items)) }
{
    for one in all {
        add_arm(alloc, finder, one, found)?;
    }
    Ok(())
}

/// What the calls in a block lead to, in the order of the text. A call stands where the name that is called
/// stands, before its arguments.
///
/// # Errors
///
/// Only for want of memory.
pub fn calls_in_block<R: Finder>(
    alloc: Global,
    finder: &R,
    of: &Block<Noted>,
) -> Result<Vec<R::Found>, Memory>
    ensures { IfOk result (λ found.
        map R.see found.items ≡ spec.calls_in_block (R.leads finder.now) (block noted of.now)) }
{
    let mut found = Vec::new(alloc);
    add_block(alloc, finder, of, &mut found)?;
    Ok(found)
}
