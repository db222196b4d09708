//! Statements of the old phase as those of the new one.

ghost use Rattle.std.specs.Prelude.{◌≡◌, IfOk, map};
ghost use Rattle.au_syntax.specs.Statements.{Statements};
ghost use Rattle.au_syntax.specs.Views.{placed, bound, expression, statement, block, branch_all, arm_all};
ghost use Rattle.au_mapping.specs.Seen.{before, after};

use crate::parts::{Part, walked_three, walked_two};
use crate::walks::Walk;
use au_base::{Memory, Pos};
use au_syntax::{
    Access, Arm, Block, BorrowMode, BorrowNames, Branch, Expr, Ident, Phase, Stmt, TypeText,
};
use std::alloc::Global;

impl<P: Phase, Q: Phase, W: Walk<P, Q>> Part<Q, W> for Block<P> {
    type New = Block<Q>;

    ghost Kept = { Statements W.KeptName W.KeptType W.KeptCall };

    ghost old = { block (before W.Walk) };

    ghost new = { block (after W.Walk) };

    fn walked(&self, alloc: Global, walk: &mut W) -> Result<Block<Q>, Memory> {
        walked_block(alloc, self, walk)
    }
}

/// The three names of a borrowing block.
fn walked_borrow_names<P: Phase, Q: Phase, W: Walk<P, Q>>(
    alloc: Global,
    of: &BorrowNames<P>,
    walk: &mut W,
) -> Result<BorrowNames<Q>, Memory>
    ensures variable { IfOk result (λ new.
        placed (after W.Walk) new.variable ≡ placed (before W.Walk) of.now.variable) }
    ensures reference { IfOk result (λ new.
        placed (after W.Walk) new.reference ≡ placed (before W.Walk) of.now.reference) }
    ensures region { IfOk result (λ new.
        placed (after W.Walk) new.region ≡ placed (before W.Walk) of.now.region) }
{
    let (variable, reference, region) = walked_three(
        alloc,
        &of.variable,
        &of.reference,
        &of.region,
        walk,
    )?;
    Ok(BorrowNames {
        variable,
        reference,
        region,
    })
}

/// What a borrow statement with a written type says of its reference: its name and type, and how what is
/// lent.
#[derive_where(Clone, Copy)]
struct TypedBorrow<'a, P: Phase> {
    name: &'a Ident<P>,
    text: &'a TypeText,
    mode: BorrowMode,
    variable: &'a Ident<P>,
}

/// The statement in the new phase.
///
/// # Errors
///
/// Only for want of memory.
#[cycle(walked_statement)]
pub fn walked_statement<P: Phase, Q: Phase, W: Walk<P, Q>>(
    alloc: Global,
    of: &Stmt<P>,
    walk: &mut W,
) -> Result<Stmt<Q>, Memory>
    ensures { IfOk result (λ new. statement (after W.Walk) new ≡ statement (before W.Walk) of.now) }
{
    match of {
        Stmt::Skip(at) => Ok(Stmt::Skip(*at)),
        Stmt::Let(at, binding, name, text, value) => {
            let (name, text, value) = walked_three(alloc, name, text, value, walk)?;
            Ok(Stmt::Let(*at, *binding, name, text, value))
        }
        Stmt::Destructure(at, binds, value) => {
            let (binds, value) = walked_two(alloc, binds, value, walk)?;
            Ok(Stmt::Destructure(*at, binds, value))
        }
        Stmt::Assign(at, name, fields, value) => {
            let (name, fields, value) = walked_three(alloc, name, fields, value, walk)?;
            Ok(Stmt::Assign(*at, name, fields, value))
        }
        Stmt::AssignThrough(at, name, fields, value) => {
            let (name, fields, value) = walked_three(alloc, name, fields, value, walk)?;
            Ok(Stmt::AssignThrough(*at, name, fields, value))
        }
        Stmt::If(at, branches) => Ok(Stmt::If(*at, walked_branches(alloc, branches, walk)?)),
        Stmt::IfElse(at, branches, last) => {
            let branches = walked_branches(alloc, branches, walk)?;
            Ok(Stmt::IfElse(*at, branches, walked_block(alloc, last, walk)?))
        }
        Stmt::Case(at, value, arms) => {
            let value = value.walked(alloc, walk)?;
            Ok(Stmt::Case(*at, value, walked_arms(alloc, arms, walk)?))
        }
        Stmt::While(at, test, body) => walked_while(alloc, body, *at, test, walk),
        Stmt::For(at, name, from, to, body) => walked_for(alloc, body, *at, name, from, to, walk),
        Stmt::Borrow(at, access, names, body, end) => {
            walked_borrow(alloc, body, *at, *access, names, *end, walk)
        }
        Stmt::BorrowTyped(at, name, text, mode, variable, body, end) => {
            let mode = *mode;
            let borrow = TypedBorrow {
                name,
                text,
                mode,
                variable,
            };
            walked_borrow_typed(alloc, body, *at, &borrow, *end, walk)
        }
        Stmt::Call(at, call) => Ok(Stmt::Call(*at, call.walked(alloc, walk)?)),
        Stmt::Return(at, value) => Ok(Stmt::Return(*at, value.walked(alloc, walk)?)),
    }
}

/// A loop with a test in the new phase.
#[cycle(walked_statement)]
fn walked_while<P: Phase, Q: Phase, W: Walk<P, Q>>(
    alloc: Global,
    body: &Block<P>,
    at: Pos,
    test: &Box<Expr<P>>,
    walk: &mut W,
) -> Result<Stmt<Q>, Memory>
    ensures { IfOk result (λ new.
        statement (after W.Walk) new
        ≡ statement (before W.Walk) (Stmt.While at test.now body.now)) }
{
    let test = test.walked(alloc, walk)?;
    let body = walked_block(alloc, body, walk)?;
    Ok(Stmt::While(at, test, body))
}

/// A loop over numbers in the new phase.
#[cycle(walked_statement)]
fn walked_for<P: Phase, Q: Phase, W: Walk<P, Q>>(
    alloc: Global,
    body: &Block<P>,
    at: Pos,
    name: &Ident<P>,
    from: &Box<Expr<P>>,
    to: &Box<Expr<P>>,
    walk: &mut W,
) -> Result<Stmt<Q>, Memory>
    ensures { IfOk result (λ new.
        statement (after W.Walk) new
        ≡ statement (before W.Walk) (Stmt.For at name.now «from».now to.now body.now)) }
{
    let (name, from, to) = walked_three(alloc, name, from, to, walk)?;
    let body = walked_block(alloc, body, walk)?;
    Ok(Stmt::For(at, name, from, to, body))
}

/// A borrowing block in the new phase.
#[cycle(walked_statement)]
fn walked_borrow<P: Phase, Q: Phase, W: Walk<P, Q>>(
    alloc: Global,
    body: &Block<P>,
    at: Pos,
    access: Access,
    names: &BorrowNames<P>,
    end: Pos,
    walk: &mut W,
) -> Result<Stmt<Q>, Memory>
    ensures { IfOk result (λ new.
        statement (after W.Walk) new
        ≡ statement (before W.Walk) (Stmt.Borrow at access names.now body.now end)) }
{
    let names = walked_borrow_names(alloc, names, walk)?;
    let body = walked_block(alloc, body, walk)?;
    Ok(Stmt::Borrow(at, access, names, body, end))
}

/// A borrowing block with a type in the new phase.
#[cycle(walked_statement)]
fn walked_borrow_typed<P: Phase, Q: Phase, W: Walk<P, Q>>(
    alloc: Global,
    body: &Block<P>,
    at: Pos,
    borrow: &TypedBorrow<P>,
    end: Pos,
    walk: &mut W,
) -> Result<Stmt<Q>, Memory>
    ensures { IfOk result (λ new.
        statement (after W.Walk) new
        ≡ statement (before W.Walk) (Stmt.BorrowTyped at borrow.now.name.now borrow.now.text.now
        borrow.now.mode borrow.now.variable.now body.now end)) }
{
    let mode = borrow.mode;
    let (name, text, variable) = walked_three(
        alloc,
        borrow.name,
        borrow.text,
        borrow.variable,
        walk,
    )?;
    let body = walked_block(alloc, body, walk)?;
    Ok(Stmt::BorrowTyped(at, name, text, mode, variable, body, end))
}

/// The block in the new phase.
///
/// # Errors
///
/// Only for want of memory.
#[cycle(walked_statement)]
pub fn walked_block<P: Phase, Q: Phase, W: Walk<P, Q>>(
    alloc: Global,
    of: &Block<P>,
    walk: &mut W,
) -> Result<Block<Q>, Memory>
    ensures { IfOk result (λ new. block (after W.Walk) new ≡ block (before W.Walk) of.now) }
{
    let mut statements = Vec::new(alloc);
    for one in &of.statements {
        let new = walked_statement(alloc, one, walk)?;
        statements.push(new)?;
    }
    Ok(Block { statements })
}

/// A branch in the new phase.
#[cycle(walked_statement)]
fn walked_branch<P: Phase, Q: Phase, W: Walk<P, Q>>(
    alloc: Global,
    of: &Branch<P>,
    walk: &mut W,
) -> Result<Branch<Q>, Memory>
    ensures test { IfOk result (λ new.
        expression (after W.Walk) new.test.value ≡ expression (before W.Walk) of.now.test.value) }
    ensures block { IfOk result (λ new.
        block (after W.Walk) new.block ≡ block (before W.Walk) of.now.block) }
{
    let test = of.test.walked(alloc, walk)?;
    let block = walked_block(alloc, &of.block, walk)?;
    Ok(Branch { test, block })
}

/// An arm in the new phase.
#[cycle(walked_statement)]
fn walked_arm<P: Phase, Q: Phase, W: Walk<P, Q>>(
    alloc: Global,
    of: &Arm<P>,
    walk: &mut W,
) -> Result<Arm<Q>, Memory>
    ensures at { IfOk result (λ new. new.at ≡ of.now.at) }
    ensures case { IfOk result (λ new.
        placed (after W.Walk) new.case ≡ placed (before W.Walk) of.now.case) }
    ensures binds { IfOk result (λ new.
        map (bound (after W.Walk)) new.binds.items
        ≡ map (bound (before W.Walk)) of.now.binds.items) }
    ensures block { IfOk result (λ new.
        block (after W.Walk) new.block ≡ block (before W.Walk) of.now.block) }
{
    let (case, binds) = walked_two(alloc, &of.case, &of.binds, walk)?;
    let block = walked_block(alloc, &of.block, walk)?;
    let at = of.at;
    Ok(Arm {
        at,
        case,
        binds,
        block,
    })
}

#[cycle(walked_statement)]
fn walked_branches<P: Phase, Q: Phase, W: Walk<P, Q>>(
    alloc: Global,
    branches: &Vec<Branch<P>>,
    walk: &mut W,
) -> Result<Vec<Branch<Q>>, Memory>
    ensures { IfOk result (λ made.
        branch_all (after W.Walk) made.items ≡ branch_all (before W.Walk) branches.now.items) }
{
    let mut made = Vec::new(alloc);
    for one in branches {
        let new = walked_branch(alloc, one, walk)?;
        made.push(new)?;
    }
    Ok(made)
}

#[cycle(walked_statement)]
fn walked_arms<P: Phase, Q: Phase, W: Walk<P, Q>>(
    alloc: Global,
    arms: &Vec<Arm<P>>,
    walk: &mut W,
) -> Result<Vec<Arm<Q>>, Memory>
    ensures { IfOk result (λ made.
        arm_all (after W.Walk) made.items ≡ arm_all (before W.Walk) arms.now.items) }
{
    let mut made = Vec::new(alloc);
    for one in arms {
        let new = walked_arm(alloc, one, walk)?;
        made.push(new)?;
    }
    Ok(made)
}
