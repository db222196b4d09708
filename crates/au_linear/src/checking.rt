//! Whether the life of each variable of a body is good.

ghost use Rattle.std.specs.Prelude.{◌≡◌, ◌≤◌, ◌++◌, drop, length, map, ◌∷◌, [], IfOk};
ghost use Rattle.au_lives.specs.Scopes.{scope, scopes, scopes_after, scopes_inside, scopes_of_branches};
ghost use Rattle.au_lives.specs.Scopes.{scopes_of_arms, bound_over, scopes_of};
ghost use Rattle.au_lives.specs.Paths.{bound_name};
ghost use Rattle.au_paths.specs.Seen.{seen_name, seen_bind, seen_binds, seen_parameters, seen_statement};
ghost use Rattle.au_paths.specs.Seen.{seen_statements, seen_block, seen_branches, seen_arms};
ghost use Rattle.au_linear.specs.Telling.{sorted, Judges};
ghost use Rattle.au_linear.specs.declared.tasks.Task.TheVariants as task;
ghost use Rattle.au_linear.specs.Allotting.{Sees, Decides};

use crate::faults::{LinearFault, Refused, Why};
use crate::judging::told;
use crate::tasks::{Task, next_task, task_at, tasks_of};
use au_base::{Memory, Name};
use au_clearing::lives;
use au_lives::lives::Sort;
use au_syntax::{Arm, Bind, Block, Branch, Field, Ident, Phase, Stmt};
use std::alloc::Global;

/// The name of a variable.
fn name_of<P: Phase>(alloc: Global, name: &Ident<P>) -> Result<Name, Memory>
    ensures { IfOk result (λ copy. copy ≡ (seen_name P.Phase name.now).name) }
{
    let bytes = P::bytes_of(&name.name);
    Name::copy_of(alloc, bytes)
}

/// What is told of a variable over the statements from this number on, whose type asks for this.
fn judge_variable<P: Phase>(
    alloc: Global,
    name: &Ident<P>,
    sort: Sort,
    block: &Block<P>,
    from: usize,
) -> Result<(), LinearFault>
    requires { from ≤ length block.now.statements.items }
    ensures { Decides result
        (scope (seen_name P.Phase name.now)
        (seen_statements P.Phase (drop from block.now.statements.items)))
        (task.Judge sort) }
{
    let variable = name_of(alloc, name)?;
    let found = told(alloc, &variable, sort, block, from)?;
    match found {
        None => Ok(()),
        Some(why) => Err(LinearFault::Refused(Refused {
            variable,
            at: name.at,
            why,
        })),
    }
}

/// What is told of a variable over the statements from this number on, by its task.
fn check_task<P: Phase>(
    alloc: Global,
    name: &Ident<P>,
    one: Task,
    block: &Block<P>,
    from: usize,
) -> Result<(), LinearFault>
    requires { from ≤ length block.now.statements.items }
    ensures { Decides result
        (scope (seen_name P.Phase name.now)
        (seen_statements P.Phase (drop from block.now.statements.items)))
        one }
{
    match one {
        Task::Cleared => Ok(()),
        Task::Judge(sort) => judge_variable(alloc, name, sort, block, from),
    }
}

/// Whether the life of a variable over the statements from this number on is good.
fn check_variable<P: Phase>(
    alloc: Global,
    name: &Ident<P>,
    block: &Block<P>,
    from: usize,
    tasks: &[Task],
    next: usize,
) -> Result<usize, LinearFault>
    requires { from ≤ length block.now.statements.items }
    ensures { Sees result
        (scope (seen_name P.Phase name.now)
        (seen_statements P.Phase (drop from block.now.statements.items)) ∷ [])
        tasks.now next }
{
    check_task(alloc, name, task_at(tasks, next), block, from)?;
    Ok(next_task(tasks, next))
}

/// Whether the life of a variable that a field is bound to is good.
fn check_bind<P: Phase>(
    alloc: Global,
    bind: &Bind<P>,
    block: &Block<P>,
    from: usize,
    tasks: &[Task],
    next: usize,
) -> Result<usize, LinearFault>
    requires { from ≤ length block.now.statements.items }
    ensures { Sees result
        (scope (bound_name (seen_bind P.Phase bind.now))
        (seen_statements P.Phase (drop from block.now.statements.items)) ∷ [])
        tasks.now next }
{
    match &bind.name.alias {
        Some(alias) => check_variable(alloc, alias, block, from, tasks, next),
        None => check_variable(alloc, &bind.name.name, block, from, tasks, next),
    }
}

/// Whether the lives of variables that fields are bound to are good.
fn check_binds<P: Phase>(
    alloc: Global,
    binds: &Vec<Bind<P>>,
    block: &Block<P>,
    from: usize,
    tasks: &[Task],
    next: usize,
) -> Result<usize, LinearFault>
    requires { from ≤ length block.now.statements.items }
    ensures { Sees result
        (bound_over (seen_binds P.Phase binds.now.items)
        (seen_statements P.Phase (drop from block.now.statements.items)))
        tasks.now next }
{
    let mut at = next;
    for one in binds {
        at = check_bind(alloc, one, block, from, tasks, at)?;
    }
    Ok(at)
}

/// Whether the lives of the parameters are good.
fn check_parameters<P: Phase>(
    alloc: Global,
    parameters: &Vec<Field<P>>,
    block: &Block<P>,
    tasks: &[Task],
) -> Result<usize, LinearFault>
    ensures { Sees result
        (map (λ parameter. scope parameter.name (seen_block P.Phase block.now))
        (seen_parameters P.Phase parameters.now.items))
        tasks.now 0 }
{
    let mut at = 0;
    for one in parameters {
        at = check_variable(alloc, &one.name, block, 0, tasks, at)?;
    }
    Ok(at)
}

/// Whether the lives of the variables are good that a statement declares for the statements from this
/// number on.
#[tactic(auto, using(au_syntax::proofs::StatementLemmas::statement_steps))]
fn check_after<P: Phase>(
    alloc: Global,
    stmt: &Stmt<P>,
    block: &Block<P>,
    from: usize,
    tasks: &[Task],
    next: usize,
) -> Result<usize, LinearFault>
    requires { from ≤ length block.now.statements.items }
    ensures { Sees result
        (scopes_after (seen_statement P.Phase stmt.now)
        (seen_statements P.Phase (drop from block.now.statements.items)))
        tasks.now next }
{
    match stmt {
        Stmt::Let(_, _, name, _, _) => check_variable(alloc, name, block, from, tasks, next),
        Stmt::Destructure(_, binds, _) => check_binds(alloc, binds, block, from, tasks, next),
        Stmt::Skip(_) => Ok(next),
        Stmt::Assign(_, _, _, _) => Ok(next),
        Stmt::AssignThrough(_, _, _, _) => Ok(next),
        Stmt::If(_, _) => Ok(next),
        Stmt::IfElse(_, _, _) => Ok(next),
        Stmt::Case(_, _, _) => Ok(next),
        Stmt::While(_, _, _) => Ok(next),
        Stmt::For(_, _, _, _, _) => Ok(next),
        Stmt::Borrow(_, _, _, _, _) => Ok(next),
        Stmt::BorrowTyped(_, _, _, _, _, _, _) => Ok(next),
        Stmt::Call(_, _) => Ok(next),
        Stmt::Return(_, _) => Ok(next),
    }
}

/// Whether the lives of the variables of a block are good.
#[cycle(checking)]
fn check_block<P: Phase>(
    alloc: Global,
    block: &Block<P>,
    tasks: &[Task],
    next: usize,
) -> Result<usize, LinearFault>
    ensures { Sees result (scopes (seen_block P.Phase block.now)) tasks.now next }
{
    let mut at = next;
    for (index, one) in block.statements.iter().enumerate() {
        let behind = check_after(alloc, one, block, index + 1, tasks, at)?;
        at = check_inside(alloc, one, tasks, behind)?;
    }
    Ok(at)
}

/// Whether the lives of the variables inside a statement are good.
#[tactic(auto, using(au_syntax::proofs::StatementLemmas::statement_steps))]
#[cycle(checking)]
fn check_inside<P: Phase>(
    alloc: Global,
    stmt: &Stmt<P>,
    tasks: &[Task],
    next: usize,
) -> Result<usize, LinearFault>
    ensures { Sees result (scopes_inside (seen_statement P.Phase stmt.now)) tasks.now next }
{
    match stmt {
        Stmt::If(_, branches) => check_branches(alloc, branches, tasks, next),
        Stmt::IfElse(_, branches, block) => {
            let behind = check_branches(alloc, branches, tasks, next)?;
            check_block(alloc, block, tasks, behind)
        }
        Stmt::Case(_, _, arms) => check_arms(alloc, arms, tasks, next),
        Stmt::While(_, _, block) => check_block(alloc, block, tasks, next),
        Stmt::For(_, name, _, _, block) => check_named(alloc, name, block, tasks, next),
        Stmt::Borrow(_, _, names, block, _) => {
            check_named(alloc, &names.reference, block, tasks, next)
        }
        Stmt::BorrowTyped(_, reference, _, _, _, block, _) => {
            check_named(alloc, reference, block, tasks, next)
        }
        Stmt::Skip(_) => Ok(next),
        Stmt::Let(_, _, _, _, _) => Ok(next),
        Stmt::Destructure(_, _, _) => Ok(next),
        Stmt::Assign(_, _, _, _) => Ok(next),
        Stmt::AssignThrough(_, _, _, _) => Ok(next),
        Stmt::Call(_, _) => Ok(next),
        Stmt::Return(_, _) => Ok(next),
    }
}

/// Whether the lives of this variable over a block and of the variables of the block are good.
#[cycle(checking)]
fn check_named<P: Phase>(
    alloc: Global,
    name: &Ident<P>,
    block: &Block<P>,
    tasks: &[Task],
    next: usize,
) -> Result<usize, LinearFault>
    ensures { Sees result
        (scope (seen_name P.Phase name.now) (seen_block P.Phase block.now)
        ∷ scopes (seen_block P.Phase block.now))
        tasks.now next }
{
    let behind = check_variable(alloc, name, block, 0, tasks, next)?;
    check_block(alloc, block, tasks, behind)
}

/// Whether the lives of the variables of some branches are good.
#[cycle(checking)]
fn check_branches<P: Phase>(
    alloc: Global,
    branches: &Vec<Branch<P>>,
    tasks: &[Task],
    next: usize,
) -> Result<usize, LinearFault>
    ensures { Sees result (scopes_of_branches (seen_branches P.Phase branches.now.items)) tasks.now next }
{
    let mut at = next;
    for one in branches {
        at = check_branch(alloc, one, tasks, at)?;
    }
    Ok(at)
}

/// Whether the lives of the variables of a branch are good.
#[cycle(checking)]
fn check_branch<P: Phase>(
    alloc: Global,
    branch: &Branch<P>,
    tasks: &[Task],
    next: usize,
) -> Result<usize, LinearFault>
    ensures { Sees result (scopes (seen_block P.Phase branch.now.block)) tasks.now next }
{
    check_block(alloc, &branch.block, tasks, next)
}

/// Whether the lives of the variables of some arms are good.
#[cycle(checking)]
fn check_arms<P: Phase>(
    alloc: Global,
    arms: &Vec<Arm<P>>,
    tasks: &[Task],
    next: usize,
) -> Result<usize, LinearFault>
    ensures { Sees result (scopes_of_arms (seen_arms P.Phase arms.now.items)) tasks.now next }
{
    let mut at = next;
    for one in arms {
        at = check_arm(alloc, one, tasks, at)?;
    }
    Ok(at)
}

/// Whether the lives of the variables of an arm are good.
#[cycle(checking)]
fn check_arm<P: Phase>(
    alloc: Global,
    arm: &Arm<P>,
    tasks: &[Task],
    next: usize,
) -> Result<usize, LinearFault>
    ensures { Sees result
        (bound_over (seen_binds P.Phase arm.now.binds.items) (seen_block P.Phase arm.now.block)
        ++ scopes (seen_block P.Phase arm.now.block))
        tasks.now next }
{
    let behind = check_binds(alloc, &arm.binds, &arm.block, 0, tasks, next)?;
    check_block(alloc, &arm.block, tasks, behind)
}

/// Whether the lives of the parameters and of the variables of a body are good.
fn check_all<P: Phase>(
    alloc: Global,
    parameters: &Vec<Field<P>>,
    body: &Block<P>,
    tasks: &[Task],
) -> Result<usize, LinearFault>
    ensures { Sees result
        (scopes_of (seen_parameters P.Phase parameters.now.items) (seen_block P.Phase body.now)) tasks.now 0 }
{
    let behind = check_parameters(alloc, parameters, body, tasks)?;
    check_block(alloc, body, tasks, behind)
}

/// Whether the life of each variable of a function is good. The sorts say what the type of each variable
/// asks, in text order with the parameters first; one that has none is to be consumed once.
///
/// One walk over the body clears most variables whose life is good; the scope of each other is walked for it
/// alone.
///
/// Refused is the first variable in text order whose life isn't good: where it is consumed in a loop, else
/// where an expression that may leave out to look consumes it, else how a path breaks its life, and which
/// path.
pub fn check_body<P: Phase>(
    alloc: Global,
    parameters: &Vec<Field<P>>,
    body: &Block<P>,
    sorts: &[Sort],
) -> Result<(), LinearFault>
    ensures { Judges result
        (sorted (scopes_of (seen_parameters P.Phase parameters.now.items) (seen_block P.Phase body.now))
        sorts.now) }
{
    let found = lives(alloc, parameters, body)?;
    let tasks = tasks_of(alloc, found, sorts)?;
    check_all(alloc, parameters, body, tasks.as_slice())?;
    Ok(())
}
