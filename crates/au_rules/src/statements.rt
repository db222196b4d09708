//! Puts the marks of statements behind others.

ghost use Rattle.std.specs.Prelude.{◌≡◌, ◌++◌, ◌∷◌, [], OnOk, map};
ghost use Rattle.au_rules.specs.Marks.{arm_marks, block_marks, bound_mark, branch_marks, enclosed, local};
ghost use Rattle.au_rules.specs.Marks.{region_marks, statement_marks};
ghost use Rattle.au_rules.specs.Said.{arms_said, binds_said, block_said, branches_said, statement_said};
ghost use Rattle.au_syntax.specs.Views.{written};

use crate::marks::{Kind, Mark, Role};
use crate::pushing::{push_binds, push_closes, push_declared, push_opens};
use au_base::Memory;
use au_syntax::{Arm, Bind, Block, Branch, Ident, Parsed, Stmt, TypeText};
use std::alloc::Global;

/// Puts the beginning of a block with a variable.
fn push_variable(alloc: Global, list: &mut Vec<Mark>, name: &Ident<Parsed>) -> Result<(), Memory>
    ensures { OnOk result (list.new.items ≡ list.old.items ++ Mark.Opens
        ∷ Mark.Declares Role.Local Kind.Values name.now.name name.now.at ∷ []) }
{
    push_opens(list)?;
    push_declared(alloc, list, Role::Local, Kind::Values, name)
}

/// Puts the beginning of a block with a reference and a region.
fn push_reference(
    alloc: Global,
    list: &mut Vec<Mark>,
    name: &Ident<Parsed>,
    region: &Ident<Parsed>,
) -> Result<(), Memory>
    ensures { OnOk result (list.new.items ≡ list.old.items ++ Mark.Opens
        ∷ Mark.Declares Role.Local Kind.Values name.now.name name.now.at
        ∷ Mark.Declares Role.Local Kind.Types region.now.name region.now.at ∷ []) }
{
    push_variable(alloc, list, name)?;
    push_declared(alloc, list, Role::Local, Kind::Types, region)
}

/// Puts the region that the written type of a reference declares.
fn push_region(alloc: Global, list: &mut Vec<Mark>, of: &TypeText) -> Result<(), Memory>
    ensures { OnOk result (list.new.items ≡ list.old.items ++ region_marks (written of.now)) }
{
    match of {
        TypeText::Named(_, _) => Ok(()),
        TypeText::Reference(_, _, _, region) => {
            let copy = region.name.copy(alloc)?;
            list.push(Mark::Declares(Role::Local, Kind::Types, copy, region.at))?;
            Ok(())
        }
    }
}

/// Puts the beginning of a block with a reference of a written type.
fn push_typed(
    alloc: Global,
    list: &mut Vec<Mark>,
    name: &Ident<Parsed>,
    of: &TypeText,
) -> Result<(), Memory>
    ensures { OnOk result (list.new.items ≡ list.old.items ++ Mark.Opens
        ∷ Mark.Declares Role.Local Kind.Values name.now.name name.now.at
        ∷ region_marks (written of.now)) }
{
    push_variable(alloc, list, name)?;
    push_region(alloc, list, of)
}

/// Puts the beginning of a block with bound fields.
fn push_bound(alloc: Global, list: &mut Vec<Mark>, binds: &Vec<Bind<Parsed>>) -> Result<(), Memory>
    ensures { OnOk result (list.new.items ≡ list.old.items ++ Mark.Opens
        ∷ map bound_mark (binds_said binds.now.items)) }
{
    push_opens(list)?;
    push_binds(alloc, list, binds)
}

/// Puts the marks of a statement.
#[cycle(push_statement)]
fn push_statement(alloc: Global, list: &mut Vec<Mark>, stmt: &Stmt<Parsed>) -> Result<(), Memory>
    ensures { OnOk result (list.new.items ≡ list.old.items ++ statement_marks (statement_said stmt.now)) }
{
    match stmt {
        Stmt::Skip(_) => Ok(()),
        Stmt::Let(_, _, name, _, _) => {
            push_declared(alloc, list, Role::Local, Kind::Values, name)
        }
        Stmt::Destructure(_, binds, _) => push_binds(alloc, list, binds),
        Stmt::Assign(_, _, _, _) => Ok(()),
        Stmt::AssignThrough(_, _, _, _) => Ok(()),
        Stmt::If(_, branches) => push_branches(alloc, list, branches),
        Stmt::IfElse(_, branches, block) => {
            push_branches(alloc, list, branches)?;
            push_block(alloc, list, block)
        }
        Stmt::Case(_, _, arms) => push_arms(alloc, list, arms),
        Stmt::While(_, _, block) => push_block(alloc, list, block),
        Stmt::For(_, name, _, _, block) => {
            push_variable(alloc, list, name)?;
            push_closed(alloc, list, block)
        }
        Stmt::Borrow(_, _, names, block, _) => {
            push_reference(alloc, list, &names.reference, &names.region)?;
            push_closed(alloc, list, block)
        }
        Stmt::BorrowTyped(_, name, of, _, _, block, _) => {
            push_typed(alloc, list, name, of)?;
            push_closed(alloc, list, block)
        }
        Stmt::Call(_, _) => Ok(()),
        Stmt::Return(_, _) => Ok(()),
    }
}

/// Puts a block.
#[cycle(push_statement)]
fn push_block(alloc: Global, list: &mut Vec<Mark>, body: &Block<Parsed>) -> Result<(), Memory>
    ensures { OnOk result (list.new.items ≡ list.old.items ++ enclosed (block_marks (block_said body.now))) }
{
    push_opens(list)?;
    push_closed(alloc, list, body)
}

/// Puts the statements of a block, and its end.
#[cycle(push_statement)]
pub fn push_closed(alloc: Global, list: &mut Vec<Mark>, body: &Block<Parsed>) -> Result<(), Memory>
    ensures { OnOk result (list.new.items ≡ list.old.items
        ++ (block_marks (block_said body.now) ++ Mark.Closes ∷ [])) }
{
    for one in &body.statements {
        push_statement(alloc, list, one)?;
    }
    push_closes(list)
}

/// Puts the branches of a conditional.
#[cycle(push_statement)]
fn push_branches(
    alloc: Global,
    list: &mut Vec<Mark>,
    branches: &Vec<Branch<Parsed>>,
) -> Result<(), Memory>
    ensures { OnOk result (list.new.items ≡ list.old.items
        ++ branch_marks (branches_said branches.now.items)) }
{
    for one in branches {
        push_branch(alloc, list, one)?;
    }
    Ok(())
}

/// Puts a branch of a conditional.
#[cycle(push_statement)]
fn push_branch(alloc: Global, list: &mut Vec<Mark>, branch: &Branch<Parsed>) -> Result<(), Memory>
    ensures { OnOk result (list.new.items ≡ list.old.items
        ++ enclosed (block_marks (block_said branch.now.block))) }
{
    push_block(alloc, list, &branch.block)
}

/// Puts the arms of a case.
#[cycle(push_statement)]
fn push_arms(alloc: Global, list: &mut Vec<Mark>, arms: &Vec<Arm<Parsed>>) -> Result<(), Memory>
    ensures { OnOk result (list.new.items ≡ list.old.items ++ arm_marks (arms_said arms.now.items)) }
{
    for one in arms {
        push_arm(alloc, list, one)?;
    }
    Ok(())
}

/// Puts an arm of a case.
#[cycle(push_statement)]
fn push_arm(alloc: Global, list: &mut Vec<Mark>, arm: &Arm<Parsed>) -> Result<(), Memory>
    ensures { OnOk result (list.new.items ≡ list.old.items
        ++ enclosed (map bound_mark (binds_said arm.now.binds.items)
        ++ block_marks (block_said arm.now.block))) }
{
    push_bound(alloc, list, &arm.binds)?;
    push_closed(alloc, list, &arm.block)
}
