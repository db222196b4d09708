//! The walk over the block where a variable lives.

ghost use Rattle.std.specs.Prelude.{◌≡◌, ◌≢◌, ◌≤◌, ◌∷◌, drop, length, Ok, OnOk, Some, None, []};
ghost use Rattle.au_lives.specs.Walks as walks;
ghost use Rattle.au_lives.specs.Walks.{walk, walk_block, walk_branches, walk_step, does, turned, joined};
ghost use Rattle.au_lives.specs.Walks.{checked};
ghost use Rattle.au_lives.specs.Lives.{held_from, unlent};
ghost use Rattle.au_lives.specs.Paths as paths;
ghost use Rattle.au_lives.specs.Paths.{bound_names, declared, opening};
ghost use Rattle.au_paths.specs.Walked.{held_in};
ghost use Rattle.au_paths.specs.Seen.{seen_name, seen_expression, seen_statement, seen_statements};
ghost use Rattle.au_paths.specs.Seen.{seen_block, seen_branches, seen_arms, seen_binds};
ghost use Rattle.au_paths.specs.Standing.{reach_of, Gives, Forks, Branches, walk_case, then_on};

use crate::borrows::OpenBorrows;
use crate::hiding::{hidden_after, hidden_beside, hidden_beside_binds};
use crate::holds::access_of;
use crate::meeting::{
    meet, meet_assignment, meet_assignment_through, meet_both, meet_boxed, meet_opening,
    meet_return, meet_test,
};
use crate::reaches::{Fork, Reached, Stop, choose, finish, merge, nowhere};
use au_base::Name;
use au_lives::lives::Sort;
use au_syntax::{Access, Arm, Block, Branch, Ident, Phase, Stmt};
use std::alloc::Global;

/// The variable that is walked for, as a step sees it.
#[derive(Clone, Copy)]
pub(crate) struct Walked<'a> {
    /// Its name.
    pub name: &'a Name,
    /// Its sort.
    pub sort: Sort,
    /// Whether its name is that of another variable there.
    pub hidden: bool,
}

/// What a borrow statement lends, how, and the reference to it.
#[derive_where(Clone, Copy)]
struct Lent<'a, P: Phase> {
    access: Access,
    variable: &'a Ident<P>,
    reference: &'a Ident<P>,
}

/// The walk over a statement.
#[tactic(auto, using(au_syntax::proofs::StatementLemmas::statement_steps))]
#[cycle(walk)]
fn walk<'a, P: Phase>(
    alloc: Global,
    of: &Walked,
    borrows: &mut OpenBorrows<'a>,
    stmt: &'a Stmt<P>,
    reach: Reached,
) -> Result<Reached, Stop>
    ensures gives { Gives result
        (walk of.now.name.now of.now.sort (seen_statement P.Phase stmt.now) (held_in of.now borrows.old)
        (reach_of reach)) }
    ensures closed { OnOk result (borrows.new ≡ borrows.old) }
{
    let hold = borrows.hold(of.name, of.hidden);
    match stmt {
        Stmt::Skip(_) => Ok(reach),
        Stmt::Let(_, _, _, _, e) => meet(of.name, of.sort, hold, e, reach),
        Stmt::Destructure(_, _, e) => meet(of.name, of.sort, hold, e, reach),
        Stmt::Assign(_, name, _, e) => meet_assignment(of.name, of.sort, hold, e, name, reach),
        Stmt::AssignThrough(_, name, _, e) => {
            meet_assignment_through(of.name, of.sort, hold, e, name, reach)
        }
        Stmt::If(_, branches) => {
            let fork = walk_branches(alloc, of, borrows, branches, reach)?;
            walk_past(alloc, branches, fork)
        }
        Stmt::IfElse(_, branches, block) => {
            let fork = walk_branches(alloc, of, borrows, branches, reach)?;
            walk_else(alloc, of, borrows, block, branches, fork)
        }
        Stmt::Case(_, e, arms) => {
            let behind = meet_boxed(of.name, of.sort, hold, e, reach)?;
            walk_case(alloc, of, borrows, arms, behind)
        }
        Stmt::While(_, e, block) => {
            let behind = meet(of.name, of.sort, hold, e, reach)?;
            walk_turn(alloc, of, borrows, block, behind)
        }
        Stmt::For(_, name, start, end, block) => {
            let behind = meet_both(of.name, of.sort, hold, start, end, reach)?;
            let hidden = hidden_beside(of.name, name, of.hidden);
            let inside = Walked { hidden, ..*of };
            walk_turn(alloc, &inside, borrows, block, behind)
        }
        Stmt::Borrow(_, access, names, block, _) => {
            let behind = meet_opening(of.name, of.sort, hold, *access, &names.variable, reach)?;
            let lent = Lent {
                access: *access,
                variable: &names.variable,
                reference: &names.reference,
            };
            walk_lent(alloc, of, borrows, &lent, block, behind)
        }
        Stmt::BorrowTyped(_, reference, _, mode, variable, block, _) => {
            let access = access_of(*mode);
            let behind = meet_opening(of.name, of.sort, hold, access, variable, reach)?;
            let lent = Lent {
                access,
                variable,
                reference,
            };
            walk_lent(alloc, of, borrows, &lent, block, behind)
        }
        Stmt::Call(_, e) => meet(of.name, of.sort, hold, e, reach),
        Stmt::Return(_, e) => meet_return(of.name, of.sort, hold, e, reach),
    }
}

/// The walk over the block of a borrow statement, which is open there.
#[cycle(walk)]
fn walk_lent<'a, P: Phase>(
    alloc: Global,
    of: &Walked,
    borrows: &mut OpenBorrows<'a>,
    lent: &Lent<'a, P>,
    block: &'a Block<P>,
    reach: Reached,
) -> Result<Reached, Stop>
    ensures gives { Gives result
        (walk_block of.now.name.now of.now.sort (seen_block P.Phase block.now)
        (held_from of.now.name.now (declared (seen_name P.Phase lent.now.reference.now).name
        ∷ paths.lent lent.now.access (seen_name P.Phase lent.now.variable.now).name ∷ [])
        (held_in of.now borrows.old)) (reach_of reach)) }
    ensures closed { OnOk result (borrows.new ≡ borrows.old) }
{
    borrows.push(
        P::bytes_of(&lent.variable.name),
        lent.access,
        P::bytes_of(&lent.reference.name),
    )?;
    let behind = walk_block(alloc, of, borrows, block, reach)?;
    borrows.pop();
    Ok(behind)
}

/// The walk over the statements of a block.
#[cycle(walk)]
fn walk_block<'a, P: Phase>(
    alloc: Global,
    of: &Walked,
    borrows: &mut OpenBorrows<'a>,
    block: &'a Block<P>,
    reach: Reached,
) -> Result<Reached, Stop>
    ensures gives { Gives result
        (walk_block of.now.name.now of.now.sort (seen_block P.Phase block.now) (held_in of.now borrows.old)
        (reach_of reach)) }
    ensures closed { OnOk result (borrows.new ≡ borrows.old) }
{
    let mut at = reach;
    let mut hidden = of.hidden;
    for one in &block.statements {
        let here = Walked { hidden, ..*of };
        at = walk(alloc, &here, borrows, one, at)?;
        hidden = hidden_after(of.name, one, hidden);
    }
    Ok(at)
}

/// One turn of a loop, and the way out of it.
#[cycle(walk)]
fn walk_turn<'a, P: Phase>(
    alloc: Global,
    of: &Walked,
    borrows: &mut OpenBorrows<'a>,
    block: &'a Block<P>,
    reach: Reached,
) -> Result<Reached, Stop>
    ensures gives { Gives result
        (turned
        (walk_block of.now.name.now of.now.sort (seen_block P.Phase block.now) (held_in of.now borrows.old))
        (reach_of reach)) }
    ensures closed { OnOk result (borrows.new ≡ borrows.old) }
{
    let entry = choose(alloc, 1, &reach)?;
    let _inside = walk_block(alloc, of, borrows, block, entry)?;
    leave(alloc, &reach)
}

/// The way out of a loop.
fn leave(alloc: Global, reach: &Reached) -> Result<Reached, Stop>
    ensures { Gives result (Ok (walks.choose 0 (reach_of reach.now))) }
{
    let left = choose(alloc, 0, reach)?;
    Ok(left)
}

/// The branches of a conditional.
#[cycle(walk)]
fn walk_branches<'a, P: Phase>(
    alloc: Global,
    of: &Walked,
    borrows: &mut OpenBorrows<'a>,
    branches: &'a Vec<Branch<P>>,
    reach: Reached,
) -> Result<Fork, Stop>
    ensures forks { Forks result (length branches.now.items)
        (λ other. walk_branches of.now.name.now of.now.sort (seen_branches P.Phase branches.now.items)
        (held_in of.now borrows.old) other 0 (reach_of reach) walks.nowhere) }
    ensures closed { OnOk result (borrows.new ≡ borrows.old) }
{
    let mut fork = Fork {
        at: reach,
        out: nowhere(),
    };
    for (number, one) in branches.iter().enumerate() {
        fork = walk_branch(alloc, of, borrows, number, one, fork)?;
    }
    Ok(fork)
}

/// One branch of a conditional.
#[cycle(walk)]
fn walk_branch<'a, P: Phase>(
    alloc: Global,
    of: &Walked,
    borrows: &mut OpenBorrows<'a>,
    number: usize,
    branch: &'a Branch<P>,
    fork: Fork,
) -> Result<Fork, Stop>
    ensures next { Branches of.now.name.now of.now.sort (held_in of.now borrows.old) result
        (seen_expression P.Phase branch.now.test.value) (seen_block P.Phase branch.now.block) number fork }
    ensures closed { OnOk result (borrows.new ≡ borrows.old) }
{
    let Fork { at, out } = fork;
    let hold = borrows.hold(of.name, of.hidden);
    let tested = meet_test(number, of.name, of.sort, hold, &branch.test, at)?;
    let entry = choose(alloc, number, &tested)?;
    let one = walk_block(alloc, of, borrows, &branch.block, entry)?;
    Ok(Fork {
        at: tested,
        out: merge(out, one),
    })
}

/// What is left of a conditional without an `else`, behind its branches.
fn walk_past<P: Phase>(
    alloc: Global,
    branches: &Vec<Branch<P>>,
    fork: Fork,
) -> Result<Reached, Stop>
    ensures { Gives result
        (joined (reach_of fork.out) (walks.choose (length branches.now.items) (reach_of fork.at))) }
{
    let past = choose(alloc, branches.len(), &fork.at)?;
    Ok(merge(fork.out, past))
}

/// What is done where no test of these branches holds.
#[cycle(walk)]
fn walk_else<'a, P: Phase>(
    alloc: Global,
    of: &Walked,
    borrows: &mut OpenBorrows<'a>,
    block: &'a Block<P>,
    branches: &Vec<Branch<P>>,
    fork: Fork,
) -> Result<Reached, Stop>
    ensures gives { Gives result
        (then_on
        (walk_block of.now.name.now of.now.sort (seen_block P.Phase block.now) (held_in of.now borrows.old)
        (walks.choose (length branches.now.items) (reach_of fork.at)))
        (joined (reach_of fork.out))) }
    ensures closed { OnOk result (borrows.new ≡ borrows.old) }
{
    let Fork { at, out } = fork;
    let entry = choose(alloc, branches.len(), &at)?;
    let one = walk_block(alloc, of, borrows, block, entry)?;
    Ok(merge(out, one))
}

/// The arms of a case.
#[cycle(walk)]
fn walk_case<'a, P: Phase>(
    alloc: Global,
    of: &Walked,
    borrows: &mut OpenBorrows<'a>,
    arms: &'a Vec<Arm<P>>,
    reach: Reached,
) -> Result<Reached, Stop>
    ensures gives { Gives result
        (walk_case of.now.name.now of.now.sort (seen_arms P.Phase arms.now.items) (held_in of.now borrows.old)
        (reach_of reach)) }
    ensures closed { OnOk result (borrows.new ≡ borrows.old) }
{
    let mut out = nowhere();
    for (number, one) in arms.iter().enumerate() {
        out = walk_arm(alloc, of, borrows, number, one, &reach, out)?;
    }
    behind_arms(alloc, arms, &reach, out)
}

/// What is left of a case, behind its arms: where it has none, what is left is what stands before them.
fn behind_arms<P: Phase>(
    alloc: Global,
    arms: &Vec<Arm<P>>,
    reach: &Reached,
    out: Reached,
) -> Result<Reached, Stop>
    ensures none { length arms.now.items ≡ 0 → Gives result (Ok (walks.choose 0 (reach_of reach.now))) }
    ensures some { length arms.now.items ≢ 0 → Gives result (Ok (reach_of out)) }
{
    if arms.is_empty() {
        leave(alloc, reach)
    } else {
        Ok(out)
    }
}

/// One arm of a case.
#[cycle(walk)]
fn walk_arm<'a, P: Phase>(
    alloc: Global,
    of: &Walked,
    borrows: &mut OpenBorrows<'a>,
    number: usize,
    arm: &'a Arm<P>,
    reach: &Reached,
    out: Reached,
) -> Result<Reached, Stop>
    ensures gives { Gives result
        (then_on
        (walk_block of.now.name.now of.now.sort (seen_block P.Phase arm.now.block)
        (held_from of.now.name.now (bound_names (seen_binds P.Phase arm.now.binds.items))
        (held_in of.now borrows.old))
        (walks.choose number (reach_of reach.now)))
        (joined (reach_of out))) }
    ensures closed { OnOk result (borrows.new ≡ borrows.old) }
{
    let hidden = hidden_beside_binds(of.name, &arm.binds, of.hidden);
    let inside = Walked { hidden, ..*of };
    let entry = choose(alloc, number, reach)?;
    let one = walk_block(alloc, &inside, borrows, &arm.block, entry)?;
    Ok(merge(out, one))
}

/// The walk over the block of a variable from the statement of this number on, where the variable isn't
/// consumed.
fn walk_rest<P: Phase>(
    alloc: Global,
    x: &Name,
    sort: Sort,
    block: &Block<P>,
    from: usize,
) -> Result<Reached, Stop>
    requires { from ≤ length block.now.statements.items }
    ensures { Gives result
        (walk_block x.now sort (seen_statements P.Phase (drop from block.now.statements.items)) unlent
        (walks.reach (Some []) None)) }
{
    let mut at = Reached {
        live: Some(Vec::new(alloc)),
        spent: None,
    };
    let mut borrows = OpenBorrows::new(alloc);
    let mut hidden = false;
    for index in from..block.statements.len() {
        let one = &block.statements[index];
        let here = Walked {
            name: x,
            sort,
            hidden,
        };
        at = walk(alloc, &here, &mut borrows, one, at)?;
        hidden = hidden_after(x, one, hidden);
    }
    Ok(at)
}

/// The walk over the whole block of a variable, from the statement of this number on.
pub fn check_paths<P: Phase>(
    alloc: Global,
    x: &Name,
    sort: Sort,
    block: &Block<P>,
    from: usize,
) -> Result<Reached, Stop>
    requires { from ≤ length block.now.statements.items }
    ensures { Gives result
        (checked x.now sort (seen_statements P.Phase (drop from block.now.statements.items))) }
{
    let end = walk_rest(alloc, x, sort, block, from)?;
    finish(sort, end)
}
