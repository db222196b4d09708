//! The lives of the variables of a block.

ghost use Rattle.std.specs.Prelude.{◌≡◌, ◌++◌, OnOk};
ghost use Rattle.std.specs.Option.{option_map};
ghost use Rattle.au_judgements.specs.Said.{reference_said};
ghost use Rattle.au_typing.specs.InScope as inside;
ghost use Rattle.au_explain.specs.Said.{arms_said, binds_said, block_said, branches_said};
ghost use Rattle.au_explain.specs.Said.{expression_said, name_said, statement_said, statements_said};
ghost use Rattle.au_explain.specs.Variables as spec;
ghost use Rattle.au_noting.specs.Scopes.{scope_said};
ghost use Rattle.au_noting_programs.specs.Entering as entering;
ghost use Rattle.au_syntax.specs.Views.{written};
ghost use Rattle.au_types.specs.Views.{meaning};

use crate::VariableLives;
use crate::entering::{bounds_type, lent_reference, typed_reference};
use crate::variables::{push_after, push_binds, push_variable};
use au_base::{Memory, Name};
use au_judgements::declaring::{declare_after, declare_bound, declare_fixed};
use au_judgements::leaving::{enter_reference, leave_reference};
use au_noting::Scope;
use au_syntax::{Access, Arm, Block, BorrowNames, Branch, Expr, Ident, Parsed, Stmt};
use au_types::Ty;
use std::alloc::Global;

/// Goes on behind a statement: what it declares is in scope then, and its lives are put.
fn go_on(
    alloc: Global,
    scope: &mut Scope,
    stmt: &Stmt<Parsed>,
    rest: &[Stmt<Parsed>],
    made: &mut Vec<VariableLives>,
) -> Result<(), Memory>
    ensures put { OnOk result (made.new.items ≡ made.old.items
        ++ spec.listed_after (statement_said stmt.now) (statements_said rest.now)
        (inside.after (statement_said stmt.now) (scope_said scope.old))) }
    ensures after { OnOk result (scope_said scope.new
        ≡ inside.after (statement_said stmt.now) (scope_said scope.old)) }
{
    declare_after(alloc, scope, stmt)?;
    push_after(alloc, scope, stmt, rest, made)
}

/// Puts the life of a variable that was declared for a block.
fn push_one(
    alloc: Global,
    scope: &Scope,
    name: &Ident<Parsed>,
    block: &Block<Parsed>,
    made: &mut Vec<VariableLives>,
) -> Result<(), Memory>
    ensures { OnOk result (made.new.items ≡ made.old.items
        ++ spec.listed (scope_said scope.now) (name_said name.now) (block_said block.now)) }
{
    push_variable(alloc, scope, name, block.statements.as_slice(), made)
}

/// Puts the lives of variables that are bound to fields for a block.
fn push_bound(
    alloc: Global,
    scope: &Scope,
    arm: &Arm<Parsed>,
    made: &mut Vec<VariableLives>,
) -> Result<(), Memory>
    ensures { OnOk result (made.new.items ≡ made.old.items ++ spec.listed_binds (scope_said scope.now)
        (binds_said arm.now.binds.items) (block_said arm.now.block)) }
{
    push_binds(
        alloc,
        scope,
        &arm.binds,
        arm.block.statements.as_slice(),
        made,
    )
}

/// Declares what an arm binds.
fn enter_arm(alloc: Global, scope: &mut Scope, arm: &Arm<Parsed>) -> Result<(), Memory>
    ensures { OnOk result (scope_said scope.new
        ≡ inside.with_bound (binds_said arm.now.binds.items) (scope_said scope.old)) }
{
    declare_bound(alloc, scope, arm.binds.as_slice())
}

/// Puts the lives of the variables of a block. The scope is the same then.
#[cycle(listing)]
pub(crate) fn push_block(
    alloc: Global,
    scope: &mut Scope,
    block: &Block<Parsed>,
    made: &mut Vec<VariableLives>,
) -> Result<(), Memory>
    ensures put { OnOk result (made.new.items
        ≡ made.old.items ++ spec.listed_in (block_said block.now) (scope_said scope.old)) }
    ensures kept { OnOk result (scope_said scope.new ≡ scope_said scope.old) }
{
    let depth = scope.depth();
    for (index, stmt) in block.statements.iter().enumerate() {
        push_inside(alloc, scope, stmt, made)?;
        go_on(alloc, scope, stmt, &block.statements[index + 1..], made)?;
    }
    scope.leave_to(depth);
    Ok(())
}

/// Puts the lives of the variables inside of a statement.
#[cycle(listing)]
fn push_inside(
    alloc: Global,
    scope: &mut Scope,
    stmt: &Stmt<Parsed>,
    made: &mut Vec<VariableLives>,
) -> Result<(), Memory>
    ensures put { OnOk result (made.new.items
        ≡ made.old.items ++ spec.listed_inside (statement_said stmt.now) (scope_said scope.old)) }
    ensures kept { OnOk result (scope_said scope.new ≡ scope_said scope.old) }
{
    match stmt {
        Stmt::If(_, branches) => push_branches(alloc, scope, branches, made),
        Stmt::IfElse(_, branches, last) => {
            push_branches(alloc, scope, branches, made)?;
            push_block(alloc, scope, last, made)
        }
        Stmt::Case(_, _, arms) => push_arms(alloc, scope, arms, made),
        Stmt::While(_, _, block) => push_block(alloc, scope, block, made),
        Stmt::For(_, name, first, last, block) => {
            push_for(alloc, scope, block, name, first, last, made)
        }
        Stmt::Borrow(_, access, names, block, _) => {
            push_borrow(alloc, scope, block, *access, names, made)
        }
        Stmt::BorrowTyped(_, name, text, mode, of, block, _) => {
            let found = typed_reference(alloc, scope, text, *mode, of)?;
            push_typed(alloc, scope, block, name, found, made)
        }
        Stmt::Skip(_) => Ok(()),
        Stmt::Let(_, _, _, _, _) => Ok(()),
        Stmt::Destructure(_, _, _) => Ok(()),
        Stmt::Assign(_, _, _, _) => Ok(()),
        Stmt::AssignThrough(_, _, _, _) => Ok(()),
        Stmt::Call(_, _) => Ok(()),
        Stmt::Return(_, _) => Ok(()),
    }
}

/// Puts the life of a variable that was declared for a block, and those of the block.
#[cycle(listing)]
fn push_with(
    alloc: Global,
    scope: &mut Scope,
    block: &Block<Parsed>,
    name: &Ident<Parsed>,
    made: &mut Vec<VariableLives>,
) -> Result<(), Memory>
    ensures put { OnOk result (made.new.items ≡ made.old.items
        ++ spec.listed_with (name_said name.now) (block_said block.now) (scope_said scope.old)) }
    ensures kept { OnOk result (scope_said scope.new ≡ scope_said scope.old) }
{
    push_one(alloc, scope, name, block, made)?;
    push_block(alloc, scope, block, made)
}

/// Puts the lives of the variables of a `for`.
#[cycle(listing)]
fn push_for(
    alloc: Global,
    scope: &mut Scope,
    block: &Block<Parsed>,
    name: &Ident<Parsed>,
    first: &Expr<Parsed>,
    last: &Expr<Parsed>,
    made: &mut Vec<VariableLives>,
) -> Result<(), Memory>
    ensures put { OnOk result (made.new.items ≡ made.old.items ++ spec.listed_for (scope_said scope.old)
        (name_said name.now) (block_said block.now)
        (spec.told (spec.bounds_type (scope_said scope.old) (expression_said first.now)
        (expression_said last.now)))) }
    ensures kept { OnOk result (scope_said scope.new ≡ scope_said scope.old) }
{
    let found = bounds_type(alloc, scope, first, last)?;
    match found {
        None => Ok(()),
        Some(of) => push_counted(alloc, scope, block, name, of, made),
    }
}

/// Puts the lives of the variables of a `for` over this type.
#[cycle(listing)]
fn push_counted(
    alloc: Global,
    scope: &mut Scope,
    block: &Block<Parsed>,
    name: &Ident<Parsed>,
    of: Ty,
    made: &mut Vec<VariableLives>,
) -> Result<(), Memory>
    ensures put { OnOk result (made.new.items ≡ made.old.items
        ++ spec.listed_with (name_said name.now) (block_said block.now)
        (inside.with_variable (inside.fixed_variable (name_said name.now).name (meaning of))
        (scope_said scope.old))) }
    ensures kept { OnOk result (scope_said scope.new ≡ scope_said scope.old) }
{
    let depth = scope.depth();
    declare_fixed(alloc, scope, &name.name, of)?;
    push_with(alloc, scope, block, name, made)?;
    scope.leave_to(depth);
    Ok(())
}

/// Puts the lives of the variables of a borrow statement without a written type.
#[cycle(listing)]
fn push_borrow(
    alloc: Global,
    scope: &mut Scope,
    block: &Block<Parsed>,
    access: Access,
    names: &BorrowNames<Parsed>,
    made: &mut Vec<VariableLives>,
) -> Result<(), Memory>
    ensures put { OnOk result (made.new.items ≡ made.old.items ++ spec.listed_lent (scope_said scope.old)
        (name_said names.now.reference) (name_said names.now.region).name (block_said block.now)
        (spec.told (entering.lent_reference (scope_said scope.old) access
        (name_said names.now.variable).name (name_said names.now.region).name))) }
    ensures kept { OnOk result (scope_said scope.new ≡ scope_said scope.old) }
{
    let found = lent_reference(alloc, scope, access, names)?;
    match found {
        None => Ok(()),
        Some(of) => {
            push_lent(
                alloc,
                scope,
                block,
                &names.reference,
                &names.region.name,
                of,
                made,
            )
        }
    }
}

/// Puts the lives of the variables of a borrow statement with a written type, by the region and the type that
/// were found of its reference.
#[cycle(listing)]
fn push_typed(
    alloc: Global,
    scope: &mut Scope,
    block: &Block<Parsed>,
    name: &Ident<Parsed>,
    found: Option<(Name, Ty)>,
    made: &mut Vec<VariableLives>,
) -> Result<(), Memory>
    ensures put { OnOk result (made.new.items ≡ made.old.items ++ spec.listed_typed (scope_said scope.old)
        (name_said name.now) (block_said block.now) (option_map reference_said found)) }
    ensures kept { OnOk result (scope_said scope.new ≡ scope_said scope.old) }
{
    match found {
        None => Ok(()),
        Some((region, of)) => push_lent(alloc, scope, block, name, &region, of, made),
    }
}

/// Puts the lives of the variables of a borrow statement whose reference has this type.
#[cycle(listing)]
fn push_lent(
    alloc: Global,
    scope: &mut Scope,
    block: &Block<Parsed>,
    name: &Ident<Parsed>,
    region: &Name,
    of: Ty,
    made: &mut Vec<VariableLives>,
) -> Result<(), Memory>
    ensures put { OnOk result (made.new.items ≡ made.old.items
        ++ spec.listed_with (name_said name.now) (block_said block.now)
        (inside.with_reference (name_said name.now).name region.now (meaning of) (scope_said scope.old))) }
    ensures kept { OnOk result (scope_said scope.new ≡ scope_said scope.old) }
{
    enter_reference(alloc, scope, &name.name, region, of)?;
    push_with(alloc, scope, block, name, made)?;
    leave_reference(scope);
    Ok(())
}

/// Puts the lives of the variables of branches.
#[cycle(listing)]
fn push_branches(
    alloc: Global,
    scope: &mut Scope,
    branches: &Vec<Branch<Parsed>>,
    made: &mut Vec<VariableLives>,
) -> Result<(), Memory>
    ensures put { OnOk result (made.new.items ≡ made.old.items
        ++ spec.listed_in_branches (branches_said branches.now.items) (scope_said scope.old)) }
    ensures kept { OnOk result (scope_said scope.new ≡ scope_said scope.old) }
{
    for one in branches {
        push_branch(alloc, scope, one, made)?;
    }
    Ok(())
}

/// Puts the lives of the variables of a branch.
#[cycle(listing)]
fn push_branch(
    alloc: Global,
    scope: &mut Scope,
    branch: &Branch<Parsed>,
    made: &mut Vec<VariableLives>,
) -> Result<(), Memory>
    ensures put { OnOk result (made.new.items
        ≡ made.old.items ++ spec.listed_in (block_said branch.now.block) (scope_said scope.old)) }
    ensures kept { OnOk result (scope_said scope.new ≡ scope_said scope.old) }
{
    push_block(alloc, scope, &branch.block, made)
}

/// Puts the lives of the variables of arms.
#[cycle(listing)]
fn push_arms(
    alloc: Global,
    scope: &mut Scope,
    arms: &Vec<Arm<Parsed>>,
    made: &mut Vec<VariableLives>,
) -> Result<(), Memory>
    ensures put { OnOk result (made.new.items ≡ made.old.items
        ++ spec.listed_in_arms (arms_said arms.now.items) (scope_said scope.old)) }
    ensures kept { OnOk result (scope_said scope.new ≡ scope_said scope.old) }
{
    for one in arms {
        push_arm(alloc, scope, one, made)?;
    }
    Ok(())
}

/// Puts the lives of the variables of an arm.
#[cycle(listing)]
fn push_arm(
    alloc: Global,
    scope: &mut Scope,
    arm: &Arm<Parsed>,
    made: &mut Vec<VariableLives>,
) -> Result<(), Memory>
    ensures put { OnOk result (made.new.items ≡ made.old.items ++ spec.listed_arm (scope_said scope.old)
        (binds_said arm.now.binds.items) (block_said arm.now.block)) }
    ensures kept { OnOk result (scope_said scope.new ≡ scope_said scope.old) }
{
    let depth = scope.depth();
    enter_arm(alloc, scope, arm)?;
    push_bound(alloc, scope, arm, made)?;
    push_block(alloc, scope, &arm.block, made)?;
    scope.leave_to(depth);
    Ok(())
}
