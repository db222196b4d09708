//! The mentions of a variable in statements.

ghost use Rattle.std.specs.Prelude.{◌≡◌, ◌++◌, IfOk, OnOk, map};
ghost use Rattle.std.specs.Str.{bytes_eq};
ghost use Rattle.au_explain.specs.Mentions as spec;
ghost use Rattle.au_explain.specs.Said.{arms_said, bind_said, binds_said, block_said, branches_said};
ghost use Rattle.au_explain.specs.Said.{expression_said, name_said, statement_said, statements_said};
ghost use Rattle.au_lives.specs.Paths as paths;

use crate::marks::{access_kind, add_mention, is_named, mode_kind};
use crate::mentions::add_expression;
use crate::{Mention, MentionKind};
use au_base::{Memory, Name, Sequence};
use au_syntax::{Arm, Bind, Block, Branch, Expr, Ident, Parsed, Stmt};
use std::alloc::Global;

/// The variable that a field is bound to: that after its `as`, or one of the field's own name.
pub fn bound_name(bind: &Bind<Parsed>) -> &Ident<Parsed>
    ensures { name_said result.now ≡ paths.bound_name (bind_said bind.now) }
{
    match &bind.name.alias {
        None => &bind.name.name,
        Some(alias) => alias,
    }
}

/// Whether the name is among those that are bound.
fn is_bound_by(x: &Name, binds: &Vec<Bind<Parsed>>) -> bool
    ensures { result ≡ spec.is_bound_by x.now (binds_said binds.now.items) }
{
    for one in binds {
        if is_named(x, bound_name(one)) {
            return true;
        }
    }
    false
}

/// Whether a statement declares the name for the rest of its block.
#[tactic(auto, using(au_syntax::proofs::StatementLemmas::statement_steps))]
fn is_declared_by(x: &Name, stmt: &Stmt<Parsed>) -> bool
    ensures { result ≡ spec.is_declared_by x.now (statement_said stmt.now) }
{
    match stmt {
        Stmt::Let(_, _, name, _, _) => is_named(x, name),
        Stmt::Destructure(_, binds, _) => is_bound_by(x, binds),
        Stmt::Skip(_) => false,
        Stmt::Assign(_, _, _, _) => false,
        Stmt::AssignThrough(_, _, _, _) => false,
        Stmt::If(_, _) => false,
        Stmt::IfElse(_, _, _) => false,
        Stmt::Case(_, _, _) => false,
        Stmt::While(_, _, _) => false,
        Stmt::For(_, _, _, _, _) => false,
        Stmt::Borrow(_, _, _, _, _) => false,
        Stmt::BorrowTyped(_, _, _, _, _, _, _) => false,
        Stmt::Call(_, _) => false,
        Stmt::Return(_, _) => false,
    }
}

/// Adds the mentions in a whole expression.
fn add_whole(x: &Name, e: &Expr<Parsed>, made: &mut Vec<Mention>) -> Result<(), Memory>
    ensures { OnOk result (made.new.items
        ≡ made.old.items ++ spec.mentioned x.now (expression_said e.now)) }
{
    add_expression(x, false, e, made)
}

/// Adds what an assignment mentions.
fn add_assigned(
    x: &Name,
    name: &Ident<Parsed>,
    kind: MentionKind,
    e: &Expr<Parsed>,
    made: &mut Vec<Mention>,
) -> Result<(), Memory>
    ensures { OnOk result (made.new.items ≡ made.old.items
        ++ (spec.met x.now (name_said name.now) kind ++ spec.mentioned x.now (expression_said e.now))) }
{
    add_mention(x, name, kind, None, made)?;
    add_whole(x, e, made)
}

/// Adds the mentions in a statement.
#[tactic(auto, using(au_syntax::proofs::StatementLemmas::statement_steps, std::proofs::lemmas::Grind::common_steps))]
#[cycle(statements)]
fn add_statement(x: &Name, stmt: &Stmt<Parsed>, made: &mut Vec<Mention>) -> Result<(), Memory>
    ensures { OnOk result (made.new.items
        ≡ made.old.items ++ spec.mentions_of x.now (statement_said stmt.now)) }
{
    match stmt {
        Stmt::Skip(_) => Ok(()),
        Stmt::Let(_, _, _, _, e) => add_whole(x, e, made),
        Stmt::Destructure(_, _, e) => add_whole(x, e, made),
        Stmt::Assign(_, name, _, e) => add_assigned(x, name, MentionKind::Written, e, made),
        Stmt::AssignThrough(_, name, _, e) => {
            add_assigned(x, name, MentionKind::Looked, e, made)
        }
        Stmt::If(_, branches) => add_branches(x, branches, made),
        Stmt::IfElse(_, branches, last) => {
            add_branches(x, branches, made)?;
            add_block(x, last, made)
        }
        Stmt::Case(_, e, arms) => {
            add_whole(x, e, made)?;
            add_arms(x, arms, made)
        }
        Stmt::While(_, e, block) => {
            add_whole(x, e, made)?;
            add_block(x, block, made)
        }
        Stmt::For(_, name, first, last, block) => add_for(x, block, name, first, last, made),
        Stmt::Borrow(_, access, names, block, end) => {
            add_mention(x, &names.variable, access_kind(*access), Some(*end), made)?;
            add_behind(x, block, &names.reference, made)
        }
        Stmt::BorrowTyped(_, name, _, mode, of, block, end) => {
            add_mention(x, of, mode_kind(*mode), Some(*end), made)?;
            add_behind(x, block, name, made)
        }
        Stmt::Call(_, e) => add_whole(x, e, made),
        Stmt::Return(_, e) => add_whole(x, e, made),
    }
}

/// Adds the mentions in a `for`.
#[cycle(statements)]
fn add_for(
    x: &Name,
    block: &Block<Parsed>,
    name: &Ident<Parsed>,
    first: &Expr<Parsed>,
    last: &Expr<Parsed>,
    made: &mut Vec<Mention>,
) -> Result<(), Memory>
    ensures { OnOk result (made.new.items ≡ made.old.items
        ++ (spec.mentioned x.now (expression_said first.now)
        ++ (spec.mentioned x.now (expression_said last.now)
        ++ spec.unless x.now (bytes_eq (name_said name.now).name x.now)
        (spec.mentions_of_block x.now (block_said block.now))))) }
{
    add_whole(x, first, made)?;
    add_whole(x, last, made)?;
    add_behind(x, block, name, made)
}

/// Adds the mentions in a block in front of which this name is declared.
#[cycle(statements)]
fn add_behind(
    x: &Name,
    block: &Block<Parsed>,
    name: &Ident<Parsed>,
    made: &mut Vec<Mention>,
) -> Result<(), Memory>
    ensures { OnOk result (made.new.items ≡ made.old.items
        ++ spec.unless x.now (bytes_eq (name_said name.now).name x.now)
        (spec.mentions_of_block x.now (block_said block.now))) }
{
    if is_named(x, name) {
        Ok(())
    } else {
        add_block(x, block, made)
    }
}

/// Adds the mentions in a block.
#[cycle(statements)]
fn add_block(x: &Name, block: &Block<Parsed>, made: &mut Vec<Mention>) -> Result<(), Memory>
    ensures { OnOk result (made.new.items
        ≡ made.old.items ++ spec.mentions_of_block x.now (block_said block.now)) }
{
    for one in &block.statements {
        add_statement(x, one, made)?;
        if is_declared_by(x, one) {
            return Ok(());
        }
    }
    Ok(())
}

/// Adds the mentions in branches.
#[cycle(statements)]
fn add_branches(
    x: &Name,
    branches: &Vec<Branch<Parsed>>,
    made: &mut Vec<Mention>,
) -> Result<(), Memory>
    ensures { OnOk result (made.new.items
        ≡ made.old.items ++ spec.mentions_of_branches x.now (branches_said branches.now.items)) }
{
    for one in branches {
        add_branch(x, one, made)?;
    }
    Ok(())
}

/// Adds the mentions in a branch.
#[cycle(statements)]
fn add_branch(x: &Name, branch: &Branch<Parsed>, made: &mut Vec<Mention>) -> Result<(), Memory>
    ensures { OnOk result (made.new.items ≡ made.old.items
        ++ (spec.mentioned x.now (expression_said branch.now.test.value)
        ++ spec.mentions_of_block x.now (block_said branch.now.block))) }
{
    add_whole(x, &branch.test, made)?;
    add_block(x, &branch.block, made)
}

/// Adds the mentions in arms.
#[cycle(statements)]
fn add_arms(x: &Name, arms: &Vec<Arm<Parsed>>, made: &mut Vec<Mention>) -> Result<(), Memory>
    ensures { OnOk result (made.new.items
        ≡ made.old.items ++ spec.mentions_of_arms x.now (arms_said arms.now.items)) }
{
    for one in arms {
        add_arm(x, one, made)?;
    }
    Ok(())
}

/// Adds the mentions in an arm.
#[cycle(statements)]
fn add_arm(x: &Name, arm: &Arm<Parsed>, made: &mut Vec<Mention>) -> Result<(), Memory>
    ensures { OnOk result (made.new.items ≡ made.old.items
        ++ spec.unless x.now (spec.is_bound_by x.now (binds_said arm.now.binds.items))
        (spec.mentions_of_block x.now (block_said arm.now.block))) }
{
    if is_bound_by(x, &arm.binds) {
        Ok(())
    } else {
        add_block(x, &arm.block, made)
    }
}

/// The mentions in statements that stand one after another.
///
/// # Errors
///
/// Only for want of memory.
pub fn mentions_of_all(
    alloc: Global,
    x: &Name,
    stmts: &[Stmt<Parsed>],
) -> Result<Sequence<Mention>, Memory>
    ensures { IfOk result (λ made. made ≡ spec.mentions_of_block x.now (statements_said stmts.now)) }
{
    let mut made = Vec::new(alloc);
    add_all(x, stmts, &mut made)?;
    Ok(Sequence::from_vec(made))
}

/// Adds the mentions in statements that stand one after another.
fn add_all(x: &Name, stmts: &[Stmt<Parsed>], made: &mut Vec<Mention>) -> Result<(), Memory>
    ensures { OnOk result (made.new.items
        ≡ made.old.items ++ spec.mentions_of_block x.now (statements_said stmts.now)) }
{
    for one in stmts {
        add_statement(x, one, made)?;
        if is_declared_by(x, one) {
            return Ok(());
        }
    }
    Ok(())
}
