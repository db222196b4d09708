//! Puts the sorts of variables behind others.

ghost use Rattle.std.specs.Prelude.{◌≡◌, ◌++◌, ◌∷◌, [], IfOk, OnOk, map};
ghost use Rattle.au_program_lives.specs.Scopes.{opened_by, opened_in, scope_said};
ghost use Rattle.au_program_lives.specs.Said.{arms_said, binds_said, block_said, branches_said};
ghost use Rattle.au_program_lives.specs.Said.{parameters_said};
ghost use Rattle.au_program_lives.specs.Said.{statement_said};
ghost use Rattle.au_program_lives.specs.Sorts as spec;
ghost use Rattle.au_syntax.specs.Views.{placed, written};

use crate::scopes::TypeScope;
use crate::types::{borrow_sort, reference_sort, region_written, written_sort};
use au_base::{Memory, Name};
use au_lives::lives::Sort;
use au_syntax::{
    Access, Arm, Bind, Block, BorrowNames, Branch, Field, Ident, Phase, Stmt, TypeText,
};
use std::alloc::Global;

/// A name.
fn name_of<P: Phase>(alloc: Global, name: &Ident<P>) -> Result<Name, Memory>
    ensures { IfOk result (λ copy. copy ≡ P.name_bytes (placed P.Phase name.now).name) }
{
    let bytes = P::bytes_of(&name.name);
    Name::copy_of(alloc, bytes)
}

/// Puts the sorts of parameters.
pub(crate) fn push_parameters<P: Phase>(
    alloc: Global,
    scope: &TypeScope,
    parameters: &Vec<Field<P>>,
    made: &mut Vec<Sort>,
) -> Result<(), Memory>
    ensures { OnOk result (made.new.items ≡ made.old.items
        ++ spec.parameter_sorts (parameters_said P.Phase parameters.now.items) (scope_said scope.now)) }
{
    for one in parameters {
        let sort = written_sort(alloc, scope, &one.of)?;
        made.push(sort)?;
    }
    Ok(())
}

/// Puts the sorts of variables that are bound to fields.
fn push_binds<P: Phase>(
    alloc: Global,
    scope: &TypeScope,
    binds: &Vec<Bind<P>>,
    made: &mut Vec<Sort>,
) -> Result<(), Memory>
    ensures { OnOk result (made.new.items ≡ made.old.items
        ++ spec.bound_sorts (binds_said P.Phase binds.now.items) (scope_said scope.now)) }
{
    for one in binds {
        let sort = written_sort(alloc, scope, &one.of)?;
        made.push(sort)?;
    }
    Ok(())
}

/// Puts the sort of a variable with this type.
fn push_written(
    alloc: Global,
    scope: &TypeScope,
    text: &TypeText,
    made: &mut Vec<Sort>,
) -> Result<(), Memory>
    ensures { OnOk result (made.new.items ≡ made.old.items
        ++ spec.written_sort (scope_said scope.now) (written text.now) ∷ []) }
{
    let sort = written_sort(alloc, scope, text)?;
    made.push(sort)?;
    Ok(())
}

/// Puts the sorts of the variables that a statement declares for the rest of its block.
fn push_after<P: Phase>(
    alloc: Global,
    scope: &TypeScope,
    stmt: &Stmt<P>,
    made: &mut Vec<Sort>,
) -> Result<(), Memory>
    ensures { OnOk result (made.new.items ≡ made.old.items
        ++ spec.sorts_after (statement_said P.Phase stmt.now) (scope_said scope.now)) }
{
    match stmt {
        Stmt::Let(_, _, _, text, _) => push_written(alloc, scope, text, made),
        Stmt::Destructure(_, binds, _) => push_binds(alloc, scope, binds, made),
        Stmt::Skip(_) => Ok(()),
        Stmt::Assign(_, _, _, _) => Ok(()),
        Stmt::AssignThrough(_, _, _, _) => Ok(()),
        Stmt::If(_, _) => Ok(()),
        Stmt::IfElse(_, _, _) => Ok(()),
        Stmt::Case(_, _, _) => Ok(()),
        Stmt::While(_, _, _) => Ok(()),
        Stmt::For(_, _, _, _, _) => Ok(()),
        Stmt::Borrow(_, _, _, _, _) => Ok(()),
        Stmt::BorrowTyped(_, _, _, _, _, _, _) => Ok(()),
        Stmt::Call(_, _) => Ok(()),
        Stmt::Return(_, _) => Ok(()),
    }
}

/// Puts the sorts of the variables of a block.
#[cycle(pushing)]
pub(crate) fn push_block<P: Phase>(
    alloc: Global,
    scope: &mut TypeScope,
    block: &Block<P>,
    made: &mut Vec<Sort>,
) -> Result<(), Memory>
    ensures put { OnOk result (made.new.items ≡ made.old.items
        ++ spec.sorts (block_said P.Phase block.now) (scope_said scope.old)) }
    ensures kept { OnOk result (scope_said scope.new ≡ scope_said scope.old) }
{
    for one in &block.statements {
        push_after(alloc, scope, one, made)?;
        push_inside(alloc, scope, one, made)?;
    }
    Ok(())
}

/// Puts the sorts of the variables inside of a statement.
#[cycle(pushing)]
fn push_inside<P: Phase>(
    alloc: Global,
    scope: &mut TypeScope,
    stmt: &Stmt<P>,
    made: &mut Vec<Sort>,
) -> Result<(), Memory>
    ensures put { OnOk result (made.new.items ≡ made.old.items
        ++ spec.sorts_inside (statement_said P.Phase stmt.now) (scope_said scope.old)) }
    ensures kept { OnOk result (scope_said scope.new ≡ scope_said scope.old) }
{
    match stmt {
        Stmt::If(_, branches) => push_branches(alloc, scope, branches, made),
        Stmt::IfElse(_, branches, last) => {
            push_branches(alloc, scope, branches, made)?;
            push_block(alloc, scope, last, made)
        }
        Stmt::Case(_, _, arms) => push_arms(alloc, scope, arms, made),
        Stmt::While(_, _, block) => push_block(alloc, scope, block, made),
        Stmt::For(_, _, _, _, block) => push_behind(alloc, scope, Sort::Free, block, made),
        Stmt::Borrow(_, access, names, block, _) => {
            push_lent(alloc, scope, block, *access, names, made)
        }
        Stmt::BorrowTyped(_, _, text, mode, _, block, _) => {
            push_typed(alloc, scope, block, text, borrow_sort(*mode), made)
        }
        Stmt::Skip(_) => Ok(()),
        Stmt::Let(_, _, _, _, _) => Ok(()),
        Stmt::Destructure(_, _, _) => Ok(()),
        Stmt::Assign(_, _, _, _) => Ok(()),
        Stmt::AssignThrough(_, _, _, _) => Ok(()),
        Stmt::Call(_, _) => Ok(()),
        Stmt::Return(_, _) => Ok(()),
    }
}

/// Puts this sort, and behind it those of a block.
#[cycle(pushing)]
fn push_behind<P: Phase>(
    alloc: Global,
    scope: &mut TypeScope,
    sort: Sort,
    block: &Block<P>,
    made: &mut Vec<Sort>,
) -> Result<(), Memory>
    ensures put { OnOk result (made.new.items ≡ made.old.items
        ++ sort ∷ spec.sorts (block_said P.Phase block.now) (scope_said scope.old)) }
    ensures kept { OnOk result (scope_said scope.new ≡ scope_said scope.old) }
{
    made.push(sort)?;
    push_block(alloc, scope, block, made)
}

/// Puts this sort, and behind it those of a block in which this region is open.
#[cycle(pushing)]
fn push_within<P: Phase>(
    alloc: Global,
    scope: &mut TypeScope,
    region: Name,
    sort: Sort,
    block: &Block<P>,
    made: &mut Vec<Sort>,
) -> Result<(), Memory>
    ensures put { OnOk result (made.new.items ≡ made.old.items
        ++ sort ∷ spec.sorts (block_said P.Phase block.now) (opened_in region (scope_said scope.old))) }
    ensures kept { OnOk result (scope_said scope.new ≡ scope_said scope.old) }
{
    scope.enter_region(region)?;
    push_behind(alloc, scope, sort, block, made)?;
    scope.leave_region();
    Ok(())
}

/// Puts the sort of the reference of a borrow statement, and behind it those of its block.
#[cycle(pushing)]
fn push_lent<P: Phase>(
    alloc: Global,
    scope: &mut TypeScope,
    block: &Block<P>,
    access: Access,
    names: &BorrowNames<P>,
    made: &mut Vec<Sort>,
) -> Result<(), Memory>
    ensures put { OnOk result (made.new.items ≡ made.old.items
        ++ spec.reference_sort access ∷ spec.sorts (block_said P.Phase block.now)
        (opened_in (P.name_bytes (placed P.Phase names.now.region).name) (scope_said scope.old))) }
    ensures kept { OnOk result (scope_said scope.new ≡ scope_said scope.old) }
{
    let region = name_of(alloc, &names.region)?;
    push_within(alloc, scope, region, reference_sort(access), block, made)
}

/// Puts this sort, and behind it those of a block in which the region of a written reference is open.
#[cycle(pushing)]
fn push_typed<P: Phase>(
    alloc: Global,
    scope: &mut TypeScope,
    block: &Block<P>,
    text: &TypeText,
    sort: Sort,
    made: &mut Vec<Sort>,
) -> Result<(), Memory>
    ensures put { OnOk result (made.new.items ≡ made.old.items ++ sort
        ∷ spec.sorts (block_said P.Phase block.now)
        (opened_by (spec.region_written (written text.now)) (scope_said scope.old))) }
    ensures kept { OnOk result (scope_said scope.new ≡ scope_said scope.old) }
{
    match region_written(text) {
        Some(name) => {
            let region = name.copy(alloc)?;
            push_within(alloc, scope, region, sort, block, made)
        }
        None => push_behind(alloc, scope, sort, block, made),
    }
}

/// Puts the sorts of the variables of branches.
#[cycle(pushing)]
fn push_branches<P: Phase>(
    alloc: Global,
    scope: &mut TypeScope,
    branches: &Vec<Branch<P>>,
    made: &mut Vec<Sort>,
) -> Result<(), Memory>
    ensures put { OnOk result (made.new.items ≡ made.old.items
        ++ spec.sorts_of_branches (branches_said P.Phase branches.now.items) (scope_said scope.old)) }
    ensures kept { OnOk result (scope_said scope.new ≡ scope_said scope.old) }
{
    for one in branches {
        push_branch(alloc, scope, one, made)?;
    }
    Ok(())
}

/// Puts the sorts of the variables of a branch.
#[cycle(pushing)]
fn push_branch<P: Phase>(
    alloc: Global,
    scope: &mut TypeScope,
    branch: &Branch<P>,
    made: &mut Vec<Sort>,
) -> Result<(), Memory>
    ensures put { OnOk result (made.new.items ≡ made.old.items
        ++ spec.sorts (block_said P.Phase branch.now.block) (scope_said scope.old)) }
    ensures kept { OnOk result (scope_said scope.new ≡ scope_said scope.old) }
{
    push_block(alloc, scope, &branch.block, made)
}

/// Puts the sorts of the variables of arms.
#[cycle(pushing)]
fn push_arms<P: Phase>(
    alloc: Global,
    scope: &mut TypeScope,
    arms: &Vec<Arm<P>>,
    made: &mut Vec<Sort>,
) -> Result<(), Memory>
    ensures put { OnOk result (made.new.items ≡ made.old.items
        ++ spec.sorts_of_arms (arms_said P.Phase arms.now.items) (scope_said scope.old)) }
    ensures kept { OnOk result (scope_said scope.new ≡ scope_said scope.old) }
{
    for one in arms {
        push_arm(alloc, scope, one, made)?;
    }
    Ok(())
}

/// Puts the sorts of the variables of an arm.
#[cycle(pushing)]
fn push_arm<P: Phase>(
    alloc: Global,
    scope: &mut TypeScope,
    arm: &Arm<P>,
    made: &mut Vec<Sort>,
) -> Result<(), Memory>
    ensures put { OnOk result (made.new.items ≡ made.old.items
        ++ (spec.bound_sorts (binds_said P.Phase arm.now.binds.items) (scope_said scope.old)
        ++ spec.sorts (block_said P.Phase arm.now.block) (scope_said scope.old))) }
    ensures kept { OnOk result (scope_said scope.new ≡ scope_said scope.old) }
{
    push_binds(alloc, scope, &arm.binds, made)?;
    push_block(alloc, scope, &arm.block, made)
}
