//! What stands in the types that are written for the variables of a body.

ghost use Rattle.std.specs.Prelude.{◌≡◌, ◌++◌, OnOk, map};
ghost use Rattle.au_caps_lists.specs.Holding as spec;
ghost use Rattle.au_caps_lists.specs.Mentions.{bind_mentions, field_mentions};
ghost use Rattle.au_caps_lists.specs.Views.{mentions_said};
ghost use Rattle.au_sights.specs.contracts.noted.NotedPhase.TheImpl.{ghosts as noted};
ghost use Rattle.au_syntax.specs.Views.{arm_all, block, bound, branch_all, labelled, statement};
ghost use Rattle.au_types.specs.WrittenViews.{sense_in};

use crate::mentions::{Mention, push_written};
use au_base::Memory;
use au_sights::Noted;
use au_syntax::{Arm, Bind, Block, Branch, Field, Stmt};
use au_types::Scope;

/// Puts what stands in the types of parameters.
pub(crate) fn push_parameters<'a>(
    made: &mut Vec<Mention<'a>>,
    scope: &Scope,
    parameters: &'a Vec<Field<Noted>>,
) -> Result<(), Memory>
    ensures { OnOk result (mentions_said made.new.items
        ≡ mentions_said made.old.items ++ field_mentions (sense_in scope.now)
        (map (labelled noted) parameters.now.items)) }
{
    for one in parameters {
        push_written(made, scope, &one.of)?;
    }
    Ok(())
}

/// Puts what stands in the types of bound names.
fn push_binds<'a>(
    made: &mut Vec<Mention<'a>>,
    scope: &Scope,
    binds: &'a Vec<Bind<Noted>>,
) -> Result<(), Memory>
    ensures { OnOk result (mentions_said made.new.items
        ≡ mentions_said made.old.items ++ bind_mentions (sense_in scope.now)
        (map (bound noted) binds.now.items)) }
{
    for one in binds {
        push_written(made, scope, &one.of)?;
    }
    Ok(())
}

/// Puts what stands in the types of the variables that a statement declares, outside and inside of it.
#[cycle(push_statement)]
fn push_statement<'a>(
    made: &mut Vec<Mention<'a>>,
    scope: &Scope,
    stmt: &'a Stmt<Noted>,
) -> Result<(), Memory>
    ensures { OnOk result (mentions_said made.new.items
        ≡ mentions_said made.old.items ++ spec.held_in (sense_in scope.now) (statement noted stmt.now)) }
{
    match stmt {
        Stmt::Let(_, _, _, of, _) => push_written(made, scope, of),
        Stmt::Destructure(_, binds, _) => push_binds(made, scope, binds),
        Stmt::If(_, branches) => push_branches(made, scope, branches),
        Stmt::IfElse(_, branches, last) => {
            push_branches(made, scope, branches)?;
            push_block(made, scope, last)
        }
        Stmt::Case(_, _, arms) => push_arms(made, scope, arms),
        Stmt::While(_, _, block) => push_block(made, scope, block),
        Stmt::For(_, _, _, _, block) => push_block(made, scope, block),
        Stmt::Borrow(_, _, _, block, _) => push_block(made, scope, block),
        Stmt::BorrowTyped(_, _, of, _, _, block, _) => {
            push_written(made, scope, of)?;
            push_block(made, scope, block)
        }
        Stmt::Skip(_) => Ok(()),
        Stmt::Assign(_, _, _, _) => Ok(()),
        Stmt::AssignThrough(_, _, _, _) => Ok(()),
        Stmt::Call(_, _) => Ok(()),
        Stmt::Return(_, _) => Ok(()),
    }
}

/// Puts what stands in the types of the variables of a block.
#[cycle(push_statement)]
pub(crate) fn push_block<'a>(
    made: &mut Vec<Mention<'a>>,
    scope: &Scope,
    of: &'a Block<Noted>,
) -> Result<(), Memory>
    ensures { OnOk result (mentions_said made.new.items
        ≡ mentions_said made.old.items ++ spec.held_in_block (sense_in scope.now) (block noted of.now)) }
{
    for one in &of.statements {
        push_statement(made, scope, one)?;
    }
    Ok(())
}

/// Puts what stands in the types of the variables of a branch.
#[cycle(push_statement)]
fn push_branch<'a>(
    made: &mut Vec<Mention<'a>>,
    scope: &Scope,
    branch: &'a Branch<Noted>,
) -> Result<(), Memory>
    ensures { OnOk result (mentions_said made.new.items
        ≡ mentions_said made.old.items ++ spec.held_in_block (sense_in scope.now)
        (block noted branch.now.block)) }
{
    push_block(made, scope, &branch.block)
}

/// Puts what stands in the types of the variables of branches.
#[cycle(push_statement)]
fn push_branches<'a>(
    made: &mut Vec<Mention<'a>>,
    scope: &Scope,
    branches: &'a Vec<Branch<Noted>>,
) -> Result<(), Memory>
    ensures { OnOk result (mentions_said made.new.items
        ≡ mentions_said made.old.items ++ spec.held_in_branches (sense_in scope.now)
        (branch_all noted branches.now.items)) }
{
    for one in branches {
        push_branch(made, scope, one)?;
    }
    Ok(())
}

/// Puts what stands in the types of the variables of an arm.
#[cycle(push_statement)]
fn push_arm<'a>(
    made: &mut Vec<Mention<'a>>,
    scope: &Scope,
    arm: &'a Arm<Noted>,
) -> Result<(), Memory>
    ensures { OnOk result (mentions_said made.new.items
        ≡ mentions_said made.old.items ++ (bind_mentions (sense_in scope.now)
        (map (bound noted) arm.now.binds.items)
        ++ spec.held_in_block (sense_in scope.now) (block noted arm.now.block))) }
{
    push_binds(made, scope, &arm.binds)?;
    push_block(made, scope, &arm.block)
}

/// Puts what stands in the types of the variables of arms.
#[cycle(push_statement)]
fn push_arms<'a>(
    made: &mut Vec<Mention<'a>>,
    scope: &Scope,
    arms: &'a Vec<Arm<Noted>>,
) -> Result<(), Memory>
    ensures { OnOk result (mentions_said made.new.items
        ≡ mentions_said made.old.items ++ spec.held_in_arms (sense_in scope.now)
        (arm_all noted arms.now.items)) }
{
    for one in arms {
        push_arm(made, scope, one)?;
    }
    Ok(())
}
