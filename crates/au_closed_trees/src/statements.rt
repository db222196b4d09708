//! Statements and blocks whose types are closed.

ghost use Rattle.std.specs.Prelude.{◌≡◌, IfOk, map};
ghost use Rattle.au_sights.specs.contracts.noted.NotedPhase.TheImpl.{ghosts as noted};
ghost use Rattle.au_syntax.specs.Views.{arm_all, block, bound, branch_all, expression, placed, statement};
ghost use Rattle.au_syntax.specs.Views.{written};
ghost use Rattle.au_closed_trees.specs.contracts.phase.ClosedTreesPhase.TheImpl.{ghosts as closed};
ghost use Rattle.au_closed_trees.specs.Renoted.{arm_named, arms_renoted, block_renoted, branches_renoted};
ghost use Rattle.au_closed_trees.specs.Renoted.{expression_renoted, statement_renoted};

use crate::changes::Closer;
use crate::expressions::close_boxed;
use crate::names::{copy_binds, copy_borrow_names, copy_name, copy_names};
use crate::phase::ClosedTrees;
use au_base::Memory;
use au_sights::{Noted, copy_text_of_type};
use au_syntax::{Arm, Bind, Block, Branch, Expr, Ident, Stmt, TypeText};
use std::alloc::Global;

/// The name, the type and the value of a declared variable.
fn close_let<R: Closer>(
    alloc: Global,
    closer: &R,
    name: &Ident<Noted>,
    of: &TypeText,
    value: &Expr<Noted>,
) -> Result<(Ident<ClosedTrees>, TypeText, Box<Expr<ClosedTrees>>), Memory>
    ensures name { IfOk result (λ made. placed closed made.0 ≡ placed noted name.now) }
    ensures of { IfOk result (λ made. written made.1 ≡ written of.now) }
    ensures value { IfOk result (λ made.
        expression closed made.2.value
        ≡ expression_renoted (R.change closer.now) (expression noted value.now)) }
{
    let name = copy_name(alloc, name)?;
    let of = copy_text_of_type(alloc, of)?;
    let value = close_boxed(alloc, closer, value)?;
    Ok((name, of, value))
}

/// What is assigned, and the value.
fn close_assigned<R: Closer>(
    alloc: Global,
    closer: &R,
    name: &Ident<Noted>,
    fields: &Vec<Ident<Noted>>,
    value: &Expr<Noted>,
) -> Result<
    (
        Ident<ClosedTrees>,
        Vec<Ident<ClosedTrees>>,
        Box<Expr<ClosedTrees>>,
    ),
    Memory,
>
    ensures name { IfOk result (λ made. placed closed made.0 ≡ placed noted name.now) }
    ensures fields { IfOk result (λ made.
        map (placed closed) made.1.items ≡ map (placed noted) fields.now.items) }
    ensures value { IfOk result (λ made.
        expression closed made.2.value
        ≡ expression_renoted (R.change closer.now) (expression noted value.now)) }
{
    let name = copy_name(alloc, name)?;
    let fields = copy_names(alloc, fields)?;
    let value = close_boxed(alloc, closer, value)?;
    Ok((name, fields, value))
}

/// A variable and the two ends of its range.
fn close_range<R: Closer>(
    alloc: Global,
    closer: &R,
    name: &Ident<Noted>,
    from: &Expr<Noted>,
    to: &Expr<Noted>,
) -> Result<
    (
        Ident<ClosedTrees>,
        Box<Expr<ClosedTrees>>,
        Box<Expr<ClosedTrees>>,
    ),
    Memory,
>
    ensures name { IfOk result (λ made. placed closed made.0 ≡ placed noted name.now) }
    ensures from { IfOk result (λ made.
        expression closed made.1.value
        ≡ expression_renoted (R.change closer.now) (expression noted from.now)) }
    ensures to { IfOk result (λ made.
        expression closed made.2.value
        ≡ expression_renoted (R.change closer.now) (expression noted to.now)) }
{
    let name = copy_name(alloc, name)?;
    let from = close_boxed(alloc, closer, from)?;
    let to = close_boxed(alloc, closer, to)?;
    Ok((name, from, to))
}

/// The names and the type of a borrow statement with a type.
fn copy_typed(
    alloc: Global,
    name: &Ident<Noted>,
    text: &TypeText,
    of: &Ident<Noted>,
) -> Result<(Ident<ClosedTrees>, TypeText, Ident<ClosedTrees>), Memory>
    ensures name { IfOk result (λ copy. placed closed copy.0 ≡ placed noted name.now) }
    ensures text { IfOk result (λ copy. written copy.1 ≡ written text.now) }
    ensures of { IfOk result (λ copy. placed closed copy.2 ≡ placed noted of.now) }
{
    let name = copy_name(alloc, name)?;
    let text = copy_text_of_type(alloc, text)?;
    let of = copy_name(alloc, of)?;
    Ok((name, text, of))
}

/// A statement.
#[cycle(close_statement)]
fn close_statement<R: Closer>(
    alloc: Global,
    closer: &R,
    of: &Stmt<Noted>,
) -> Result<Stmt<ClosedTrees>, Memory>
    ensures { IfOk result (λ made.
        statement closed made ≡ statement_renoted (R.change closer.now) (statement noted of.now)) }
{
    match of {
        Stmt::Skip(at) => Ok(Stmt::Skip(*at)),
        Stmt::Let(at, binding, name, text, value) => {
            let (name, text, value) = close_let(alloc, closer, name, text, value)?;
            Ok(Stmt::Let(*at, *binding, name, text, value))
        }
        Stmt::Destructure(at, binds, value) => {
            let binds = copy_binds(alloc, binds)?;
            Ok(Stmt::Destructure(*at, binds, close_boxed(alloc, closer, value)?))
        }
        Stmt::Assign(at, name, fields, value) => {
            let (name, fields, value) = close_assigned(alloc, closer, name, fields, value)?;
            Ok(Stmt::Assign(*at, name, fields, value))
        }
        Stmt::AssignThrough(at, name, fields, value) => {
            let (name, fields, value) = close_assigned(alloc, closer, name, fields, value)?;
            Ok(Stmt::AssignThrough(*at, name, fields, value))
        }
        Stmt::If(at, branches) => Ok(Stmt::If(*at, close_branches(alloc, closer, branches)?)),
        Stmt::IfElse(at, branches, last) => {
            let branches = close_branches(alloc, closer, branches)?;
            Ok(Stmt::IfElse(*at, branches, close_block(alloc, closer, last)?))
        }
        Stmt::Case(at, value, arms) => {
            let value = close_boxed(alloc, closer, value)?;
            Ok(Stmt::Case(*at, value, close_arms(alloc, closer, arms)?))
        }
        Stmt::While(at, test, body) => {
            let test = close_boxed(alloc, closer, test)?;
            Ok(Stmt::While(*at, test, close_block(alloc, closer, body)?))
        }
        Stmt::For(at, name, from, to, body) => {
            let (name, from, to) = close_range(alloc, closer, name, from, to)?;
            Ok(Stmt::For(*at, name, from, to, close_block(alloc, closer, body)?))
        }
        Stmt::Borrow(at, access, names, body, end) => {
            let names = copy_borrow_names(alloc, names)?;
            let body = close_block(alloc, closer, body)?;
            Ok(Stmt::Borrow(*at, *access, names, body, *end))
        }
        Stmt::BorrowTyped(at, name, text, mode, variable, body, end) => {
            let (name, text, variable) = copy_typed(alloc, name, text, variable)?;
            let body = close_block(alloc, closer, body)?;
            Ok(Stmt::BorrowTyped(*at, name, text, *mode, variable, body, *end))
        }
        Stmt::Call(at, call) => Ok(Stmt::Call(*at, close_boxed(alloc, closer, call)?)),
        Stmt::Return(at, value) => Ok(Stmt::Return(*at, close_boxed(alloc, closer, value)?)),
    }
}

/// The closed tree of a block: each note is closed, the names of arms become others, and the same is
/// written at the same places.
///
/// # Errors
///
/// Only for want of memory.
#[cycle(close_statement)]
pub fn close_block<R: Closer>(
    alloc: Global,
    closer: &R,
    of: &Block<Noted>,
) -> Result<Block<ClosedTrees>, Memory>
    ensures { IfOk result (λ made.
        block closed made ≡ block_renoted (R.change closer.now) (block noted of.now)) }
{
    let mut statements = Vec::new(alloc);
    for one in &of.statements {
        let made = close_statement(alloc, closer, one)?;
        statements.push(made)?;
    }
    Ok(Block { statements })
}

/// A branch of a conditional.
#[cycle(close_statement)]
fn close_branch<R: Closer>(
    alloc: Global,
    closer: &R,
    of: &Branch<Noted>,
) -> Result<Branch<ClosedTrees>, Memory>
    ensures test { IfOk result (λ made.
        expression closed made.test.value
        ≡ expression_renoted (R.change closer.now) (expression noted of.now.test.value)) }
    ensures block { IfOk result (λ made.
        block closed made.block ≡ block_renoted (R.change closer.now) (block noted of.now.block)) }
{
    let test = close_boxed(alloc, closer, &of.test)?;
    let block = close_block(alloc, closer, &of.block)?;
    Ok(Branch { test, block })
}

/// The name of an arm.
fn close_case<R: Closer>(
    alloc: Global,
    closer: &R,
    of: &Ident<Noted>,
) -> Result<Ident<ClosedTrees>, Memory>
    ensures { IfOk result (λ made.
        placed closed made ≡ arm_named (R.change closer.now) (placed noted of.now)) }
{
    let name = closer.arm(alloc, &of.name)?;
    Ok(Ident { name, at: of.at })
}

/// The name and the bound fields of an arm.
fn close_heading<R: Closer>(
    alloc: Global,
    closer: &R,
    of: &Arm<Noted>,
) -> Result<(Ident<ClosedTrees>, Vec<Bind<ClosedTrees>>), Memory>
    ensures case { IfOk result (λ made.
        placed closed made.0 ≡ arm_named (R.change closer.now) (placed noted of.now.case)) }
    ensures binds { IfOk result (λ made.
        map (bound closed) made.1.items ≡ map (bound noted) of.now.binds.items) }
{
    let case = close_case(alloc, closer, &of.case)?;
    let binds = copy_binds(alloc, &of.binds)?;
    Ok((case, binds))
}

/// An arm of a case.
#[cycle(close_statement)]
fn close_arm<R: Closer>(
    alloc: Global,
    closer: &R,
    of: &Arm<Noted>,
) -> Result<Arm<ClosedTrees>, Memory>
    ensures at { IfOk result (λ made. made.at ≡ of.now.at) }
    ensures case { IfOk result (λ made.
        placed closed made.case ≡ arm_named (R.change closer.now) (placed noted of.now.case)) }
    ensures binds { IfOk result (λ made.
        map (bound closed) made.binds.items ≡ map (bound noted) of.now.binds.items) }
    ensures block { IfOk result (λ made.
        block closed made.block ≡ block_renoted (R.change closer.now) (block noted of.now.block)) }
{
    let (case, binds) = close_heading(alloc, closer, of)?;
    let block = close_block(alloc, closer, &of.block)?;
    let at = of.at;
    Ok(Arm {
        at,
        case,
        binds,
        block,
    })
}

/// The branches of a conditional in order.
#[cycle(close_statement)]
fn close_branches<R: Closer>(
    alloc: Global,
    closer: &R,
    branches: &Vec<Branch<Noted>>,
) -> Result<Vec<Branch<ClosedTrees>>, Memory>
    ensures { IfOk result (λ made.
        branch_all closed made.items
        ≡ branches_renoted (R.change closer.now) (branch_all noted branches.now.items)) }
{
    let mut made = Vec::new(alloc);
    for one in branches {
        let new = close_branch(alloc, closer, one)?;
        made.push(new)?;
    }
    Ok(made)
}

/// The arms of a case in order.
#[cycle(close_statement)]
fn close_arms<R: Closer>(
    alloc: Global,
    closer: &R,
    arms: &Vec<Arm<Noted>>,
) -> Result<Vec<Arm<ClosedTrees>>, Memory>
    ensures { IfOk result (λ made.
        arm_all closed made.items
        ≡ arms_renoted (R.change closer.now) (arm_all noted arms.now.items)) }
{
    let mut made = Vec::new(alloc);
    for one in arms {
        let new = close_arm(alloc, closer, one)?;
        made.push(new)?;
    }
    Ok(made)
}
