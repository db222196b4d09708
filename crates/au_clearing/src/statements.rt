//! How statements deal with variables.

ghost use Rattle.std.specs.Prelude.{◌≡◌, ◌++◌, ◌∷◌, [], Bool, IfOk, OnOk};
ghost use Rattle.au_syntax.specs.Plain.{Bytes, PlainStatements};
ghost use Rattle.au_lives.specs.Lives.{Hold, held_from};
ghost use Rattle.au_lives.specs.Paths.{access_of, declared, declared_by, lent, bound_names};
ghost use Rattle.au_lives.specs.Scopes.{scope, scopes, scopes_after, scopes_inside, scopes_of_branches};
ghost use Rattle.au_lives.specs.Scopes.{scopes_of_arms, bound_over};
ghost use Rattle.au_syntax.specs.Statements.{statements};
ghost use Rattle.au_clearing.specs.Touches.{touched_at};
ghost use Rattle.au_clearing.specs.Touches as touches;
ghost use Rattle.au_clearing.specs.Dealings as spec;
ghost use Rattle.au_clearing.specs.Dealings.{sum, cased, deal_block, deal_branches, deal_arms, lend_named};
ghost use Rattle.au_clearing.specs.Dealings.{returns_in_block, returns_in_branches, returns_in_arms};
ghost use Rattle.au_clearing.specs.Seen.{seen_name, seen_expression, seen_binds, seen_statement, seen_block};
ghost use Rattle.au_clearing.specs.Seen.{seen_branches, seen_arms};
ghost use Rattle.au_clearing.specs.Deals.{kept_if, seen_at, Sums, SumsBlock, SumsStatement, Piles};

use crate::combining::{chained, forked, met, turned};
use crate::dealings::Life;
use crate::deals::{Deals, lend, no_path, no_step};
use crate::declaring::{
    forget_binds, forget_declared, forget_name, pile, pile_binds, pile_declared,
};
use crate::mentions::{touch_of_name, touches_of};
use crate::touches::Touch;
use au_base::Memory;
use au_syntax::{Access, Arm, Block, BorrowMode, Branch, Expr, Ident, Phase, Stmt};
use std::alloc::Global;

/// How `&`, `&!` and `&~` lend.
fn access_of(mode: BorrowMode) -> Access
    ensures { result ≡ access_of mode }
{
    match mode {
        BorrowMode::Read => Access::Read,
        BorrowMode::Write => Access::Write,
        BorrowMode::Reborrow => Access::Write,
    }
}

/// An expression, and then a part. In a loop the expression may consume nothing.
fn meets<P: Phase>(alloc: Global, in_loop: bool, e: &Expr<P>, other: Deals) -> Result<Deals, Memory>
    ensures { IfOk result (λ d. Sums d
        (λ x free h. spec.chain other.returns
        (spec.once (kept_if in_loop (touched_at x free h (seen_expression P.Phase e.now))))
        (seen_at other x free h))
        other.returns) }
{
    let touches = touches_of(alloc, e)?;
    met(in_loop, touches, other)
}

/// An expression alone.
fn expression<P: Phase>(alloc: Global, e: &Expr<P>) -> Result<Deals, Memory>
    ensures { IfOk result (λ d. Sums d
        (λ x free h. spec.once (touched_at x free h (seen_expression P.Phase e.now))) 0) }
{
    let other = no_step(alloc);
    meets(alloc, false, e, other)
}

/// An expression that is assigned to a variable, its part, or what lies behind it.
fn assignment<P: Phase>(
    alloc: Global,
    e: &Expr<P>,
    name: &Ident<P>,
    touch: Touch,
) -> Result<Deals, Memory>
    ensures { IfOk result (λ d. Sums d
        (λ x free h. spec.chain 0 (spec.once (touched_at x free h (seen_expression P.Phase e.now)))
        (spec.mention x free (seen_name P.Phase name.now).name touch h)) 0) }
{
    let touches = touch_of_name(alloc, name, touch)?;
    let other = no_step(alloc);
    let write = met(false, touches, other)?;
    meets(alloc, false, e, write)
}

/// An expression that is returned.
fn giving<P: Phase>(alloc: Global, e: &Expr<P>) -> Result<Deals, Memory>
    ensures { IfOk result (λ d. Sums d
        (λ x free h. spec.chain 1 (spec.once (touched_at x free h (seen_expression P.Phase e.now)))
        spec.never) 1) }
{
    let other = no_path(alloc, 1);
    meets(alloc, false, e, other)
}

/// A statement, and then the rest of its block.
#[cycle(deals)]
fn deals_before<P: Phase>(
    alloc: Global,
    pile_of: &mut Vec<Life>,
    stmt: &Stmt<P>,
    other: Deals,
) -> Result<Deals, Memory>
    ensures seen { (more : PlainStatements) → SumsBlock other more
        → IfOk result (λ d. SumsBlock d (statements (seen_statement P.Phase stmt.now) more)) }
    ensures piles { (more : PlainStatements) → SumsBlock other more
        → OnOk result (Piles
        (scopes_after (seen_statement P.Phase stmt.now) more
        ++ scopes_inside (seen_statement P.Phase stmt.now)) pile_of.old.items pile_of.new.items) }
{
    let own = deals_of(alloc, pile_of, stmt)?;
    pile_declared(pile_of, stmt, &other)?;
    let mut behind = other;
    forget_declared(&mut behind, stmt);
    chained(alloc, own, behind)
}

/// How a block deals with all variables. What is known of those that it declares goes on the pile.
///
/// # Errors
///
/// `Memory` when memory runs out.
#[cycle(deals)]
pub(crate) fn deals_of_block<P: Phase>(
    alloc: Global,
    pile_of: &mut Vec<Life>,
    block: &Block<P>,
) -> Result<Deals, Memory>
    ensures seen { IfOk result (λ d. SumsBlock d (seen_block P.Phase block.now)) }
    ensures piles { OnOk result
        (Piles (scopes (seen_block P.Phase block.now)) pile_of.old.items pile_of.new.items) }
{
    let mut behind = no_step(alloc);
    let mut left = block.statements.len();
    while left > 0 {
        left -= 1;
        behind = deals_before(alloc, pile_of, &block.statements[left], behind)?;
    }
    Ok(behind)
}

/// How a statement deals with all variables. What is known of those that it declares inside goes on the pile.
#[cycle(deals)]
fn deals_of<P: Phase>(
    alloc: Global,
    pile_of: &mut Vec<Life>,
    stmt: &Stmt<P>,
) -> Result<Deals, Memory>
    ensures seen { IfOk result (λ d. SumsStatement d (seen_statement P.Phase stmt.now)) }
    ensures piles { OnOk result
        (Piles (scopes_inside (seen_statement P.Phase stmt.now)) pile_of.old.items pile_of.new.items) }
{
    match stmt {
        Stmt::Skip(_) => Ok(no_step(alloc)),
        Stmt::Let(_, _, _, _, e) => expression(alloc, e),
        Stmt::Destructure(_, _, e) => expression(alloc, e),
        Stmt::Assign(_, name, _, e) => assignment(alloc, e, name, Touch::Written),
        Stmt::AssignThrough(_, name, _, e) => assignment(alloc, e, name, Touch::Quiet),
        Stmt::If(_, branches) => {
            let other = no_step(alloc);
            deals_of_branches(alloc, pile_of, branches, other)
        }
        Stmt::IfElse(_, branches, block) => {
            let other = deals_of_block(alloc, pile_of, block)?;
            deals_of_branches(alloc, pile_of, branches, other)
        }
        Stmt::Case(_, e, arms) => deals_of_case(alloc, pile_of, arms, e),
        Stmt::While(_, e, block) => deals_of_while(alloc, pile_of, block, e),
        Stmt::For(_, name, start, end, block) => {
            deals_of_for(alloc, pile_of, name, block, start, end)
        }
        Stmt::Borrow(_, access, names, block, _) => {
            deals_of_loan(
                alloc,
                pile_of,
                *access,
                &names.variable,
                &names.reference,
                block,
            )
        }
        Stmt::BorrowTyped(_, reference, _, mode, variable, block, _) => {
            deals_of_loan(alloc, pile_of, access_of(*mode), variable, reference, block)
        }
        Stmt::Call(_, e) => expression(alloc, e),
        Stmt::Return(_, e) => giving(alloc, e),
    }
}

/// The same for a `while`.
#[cycle(deals)]
fn deals_of_while<P: Phase>(
    alloc: Global,
    pile_of: &mut Vec<Life>,
    block: &Block<P>,
    e: &Expr<P>,
) -> Result<Deals, Memory>
    ensures seen { IfOk result (λ d. Sums d
        (λ x free h. spec.chain (returns_in_block (seen_block P.Phase block.now))
        (spec.once (touches.kept (touched_at x free h (seen_expression P.Phase e.now))))
        (spec.turns (deal_block x free (seen_block P.Phase block.now) h)))
        (returns_in_block (seen_block P.Phase block.now))) }
    ensures piles { OnOk result
        (Piles (scopes (seen_block P.Phase block.now)) pile_of.old.items pile_of.new.items) }
{
    let body = deals_of_block(alloc, pile_of, block)?;
    let turns = turned(alloc, body)?;
    meets(alloc, true, e, turns)
}

/// The same for a `for`.
#[cycle(deals)]
fn deals_of_for<P: Phase>(
    alloc: Global,
    pile_of: &mut Vec<Life>,
    name: &Ident<P>,
    block: &Block<P>,
    start: &Expr<P>,
    end: &Expr<P>,
) -> Result<Deals, Memory>
    ensures seen { IfOk result (λ d. Sums d
        (λ x free h. spec.chain (returns_in_block (seen_block P.Phase block.now))
        (spec.once (touched_at x free h (seen_expression P.Phase start.now)))
        (spec.chain (returns_in_block (seen_block P.Phase block.now))
        (spec.once (touched_at x free h (seen_expression P.Phase end.now)))
        (spec.turns (deal_block x free (seen_block P.Phase block.now)
        (held_from x (declared (seen_name P.Phase name.now).name ∷ []) h)))))
        (returns_in_block (seen_block P.Phase block.now))) }
    ensures piles { OnOk result
        (Piles
        (scope (seen_name P.Phase name.now) (seen_block P.Phase block.now)
        ∷ scopes (seen_block P.Phase block.now)) pile_of.old.items pile_of.new.items) }
{
    let turns = deals_of_turns(alloc, pile_of, name, block)?;
    let behind = meets(alloc, false, end, turns)?;
    meets(alloc, false, start, behind)
}

/// The same for the turns of a `for`, and its variable.
#[cycle(deals)]
fn deals_of_turns<P: Phase>(
    alloc: Global,
    pile_of: &mut Vec<Life>,
    name: &Ident<P>,
    block: &Block<P>,
) -> Result<Deals, Memory>
    ensures seen { IfOk result (λ d. Sums d
        (λ x free h. spec.turns (deal_block x free (seen_block P.Phase block.now)
        (held_from x (declared (seen_name P.Phase name.now).name ∷ []) h)))
        (returns_in_block (seen_block P.Phase block.now))) }
    ensures piles { OnOk result
        (Piles
        (scope (seen_name P.Phase name.now) (seen_block P.Phase block.now)
        ∷ scopes (seen_block P.Phase block.now)) pile_of.old.items pile_of.new.items) }
{
    let mut body = deals_of_block(alloc, pile_of, block)?;
    pile(pile_of, name, &body)?;
    forget_name(&mut body, name);
    turned(alloc, body)
}

/// The same for a borrow statement.
#[cycle(deals)]
fn deals_of_loan<P: Phase>(
    alloc: Global,
    pile_of: &mut Vec<Life>,
    access: Access,
    variable: &Ident<P>,
    reference: &Ident<P>,
    block: &Block<P>,
) -> Result<Deals, Memory>
    ensures seen { IfOk result (λ d. Sums d
        (λ x free h. lend_named x (seen_name P.Phase variable.now).name access h
        (deal_block x free (seen_block P.Phase block.now)
        (held_from x (declared (seen_name P.Phase reference.now).name
        ∷ lent access (seen_name P.Phase variable.now).name ∷ []) h)))
        (returns_in_block (seen_block P.Phase block.now))) }
    ensures piles { OnOk result
        (Piles
        (scope (seen_name P.Phase reference.now) (seen_block P.Phase block.now)
        ∷ scopes (seen_block P.Phase block.now)) pile_of.old.items pile_of.new.items) }
{
    let mut body = deals_of_block(alloc, pile_of, block)?;
    pile(pile_of, reference, &body)?;
    forget_name(&mut body, reference);
    let bytes = P::bytes_of(&variable.name);
    lend(alloc, &mut body, bytes, access)?;
    Ok(body)
}

/// The same for the branches of a conditional, and what is done where no test holds.
#[cycle(deals)]
fn deals_of_branches<P: Phase>(
    alloc: Global,
    pile_of: &mut Vec<Life>,
    branches: &Vec<Branch<P>>,
    other: Deals,
) -> Result<Deals, Memory>
    ensures seen { IfOk result (λ d. Sums d
        (λ x free h. deal_branches x free (seen_branches P.Phase branches.now.items)
        (seen_at other x free h) other.returns h)
        (returns_in_branches (seen_branches P.Phase branches.now.items) other.returns)) }
    ensures piles { OnOk result
        (Piles (scopes_of_branches (seen_branches P.Phase branches.now.items)) pile_of.old.items
        pile_of.new.items) }
{
    let mut behind = other;
    let mut left = branches.len();
    while left > 0 {
        left -= 1;
        behind = deals_of_branch(alloc, pile_of, &branches[left], behind)?;
    }
    Ok(behind)
}

/// The same for a branch, and what is done where its test doesn't hold.
#[cycle(deals)]
fn deals_of_branch<P: Phase>(
    alloc: Global,
    pile_of: &mut Vec<Life>,
    branch: &Branch<P>,
    other: Deals,
) -> Result<Deals, Memory>
    ensures seen { IfOk result (λ d. Sums d
        (λ x free h. spec.chain (sum (returns_in_block (seen_block P.Phase branch.now.block)) other.returns)
        (spec.once (touched_at x free h (seen_expression P.Phase branch.now.test.value)))
        (spec.fork (deal_block x free (seen_block P.Phase branch.now.block) h) (seen_at other x free h)))
        (sum (returns_in_block (seen_block P.Phase branch.now.block)) other.returns)) }
    ensures piles { OnOk result
        (Piles (scopes (seen_block P.Phase branch.now.block)) pile_of.old.items pile_of.new.items) }
{
    let block = deals_of_block(alloc, pile_of, &branch.block)?;
    let both = forked(alloc, block, other)?;
    meets(alloc, false, &branch.test, both)
}

/// The same for a case.
#[cycle(deals)]
fn deals_of_case<P: Phase>(
    alloc: Global,
    pile_of: &mut Vec<Life>,
    arms: &Vec<Arm<P>>,
    e: &Expr<P>,
) -> Result<Deals, Memory>
    ensures seen { IfOk result (λ d. Sums d
        (λ x free h. spec.chain (returns_in_arms (seen_arms P.Phase arms.now.items))
        (spec.once (touched_at x free h (seen_expression P.Phase e.now)))
        (cased x free (seen_arms P.Phase arms.now.items)
        (deal_arms x free (seen_arms P.Phase arms.now.items) h)))
        (returns_in_arms (seen_arms P.Phase arms.now.items))) }
    ensures piles { OnOk result
        (Piles (scopes_of_arms (seen_arms P.Phase arms.now.items)) pile_of.old.items pile_of.new.items) }
{
    if arms.is_empty() {
        let other = no_step(alloc);
        return meets(alloc, false, e, other);
    }
    let behind = deals_of_arms(alloc, pile_of, arms)?;
    meets(alloc, false, e, behind)
}

/// The same for the arms of a case.
#[cycle(deals)]
fn deals_of_arms<P: Phase>(
    alloc: Global,
    pile_of: &mut Vec<Life>,
    arms: &Vec<Arm<P>>,
) -> Result<Deals, Memory>
    ensures seen { IfOk result (λ d. Sums d
        (λ x free h. deal_arms x free (seen_arms P.Phase arms.now.items) h)
        (returns_in_arms (seen_arms P.Phase arms.now.items))) }
    ensures piles { OnOk result
        (Piles (scopes_of_arms (seen_arms P.Phase arms.now.items)) pile_of.old.items pile_of.new.items) }
{
    let mut behind = no_path(alloc, 0);
    let mut left = arms.len();
    while left > 0 {
        left -= 1;
        let one = deals_of_arm(alloc, pile_of, &arms[left])?;
        behind = forked(alloc, one, behind)?;
    }
    Ok(behind)
}

/// The same for an arm.
#[cycle(deals)]
fn deals_of_arm<P: Phase>(
    alloc: Global,
    pile_of: &mut Vec<Life>,
    arm: &Arm<P>,
) -> Result<Deals, Memory>
    ensures seen { IfOk result (λ d. Sums d
        (λ x free h. deal_block x free (seen_block P.Phase arm.now.block)
        (held_from x (bound_names (seen_binds P.Phase arm.now.binds.items)) h))
        (returns_in_block (seen_block P.Phase arm.now.block))) }
    ensures piles { OnOk result
        (Piles
        (bound_over (seen_binds P.Phase arm.now.binds.items) (seen_block P.Phase arm.now.block)
        ++ scopes (seen_block P.Phase arm.now.block)) pile_of.old.items pile_of.new.items) }
{
    let mut body = deals_of_block(alloc, pile_of, &arm.block)?;
    pile_binds(pile_of, &arm.binds, &body)?;
    forget_binds(&mut body, &arm.binds);
    Ok(body)
}
