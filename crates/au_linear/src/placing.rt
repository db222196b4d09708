//! Where a block consumes a variable first.

ghost use Rattle.std.specs.Prelude.{◌≡◌, ◌≤◌, drop, length};
ghost use Rattle.au_lives.specs.Lives.{held_from};
ghost use Rattle.au_lives.specs.Paths.{bound_names};
ghost use Rattle.au_lives.specs.Places.{gathered, gathered_in_block, gathered_in_branches, gathered_in_arms};
ghost use Rattle.au_lives.specs.Places.{looped, looped_in_block, looped_in_branches, looped_in_arms};
ghost use Rattle.au_lives.specs.Places.{loop_places, part_places};
ghost use Rattle.au_paths.specs.Seen.{seen_expression, seen_binds, seen_statement, seen_statements};
ghost use Rattle.au_paths.specs.Seen.{seen_block, seen_branches, seen_arms};
ghost use Rattle.au_paths.specs.Standing.{hold_of};
ghost use Rattle.au_linear.specs.declared.sought.Sought.TheVariants as soughts;
ghost use Rattle.au_linear.specs.Firsts.{first_of, or_else, sought_at};

use crate::sought::{Sought, first_sought};
use au_base::{Name, Pos};
use au_lives::lives::Sort;
use au_paths::{Hold, access_of, held_after, held_beside, held_beside_binds, held_in_borrow};
use au_syntax::{Arm, Block, Branch, Phase, Stmt};

/// The first place that is sought, of a statement.
#[tactic(auto, using(crate::proofs::FirstLemmas::first_steps, au_syntax::proofs::StatementLemmas::statement_steps))]
#[cycle(gathered)]
fn gathered<P: Phase>(
    sought: Sought,
    x: &Name,
    sort: Sort,
    hold: Hold,
    stmt: &Stmt<P>,
) -> Option<Pos>
    ensures { result ≡ first_of
        (gathered x.now (sought_at sought x.now sort) (seen_statement P.Phase stmt.now) (hold_of hold)) }
{
    match stmt {
        Stmt::Skip(_) => None,
        Stmt::Let(_, _, _, _, e) => first_sought(sought, x, sort, hold, e),
        Stmt::Destructure(_, _, e) => first_sought(sought, x, sort, hold, e),
        Stmt::Assign(_, _, _, e) => first_sought(sought, x, sort, hold, e),
        Stmt::AssignThrough(_, _, _, e) => first_sought(sought, x, sort, hold, e),
        Stmt::If(_, branches) => gathered_in_branches(sought, x, sort, hold, branches),
        Stmt::IfElse(_, branches, block) => {
            match gathered_in_branches(sought, x, sort, hold, branches) {
                Some(at) => Some(at),
                None => gathered_in_block(sought, x, sort, hold, block),
            }
        }
        Stmt::Case(_, e, arms) => match first_sought(sought, x, sort, hold, e) {
            Some(at) => Some(at),
            None => gathered_in_arms(sought, x, sort, hold, arms),
        },
        Stmt::While(_, e, block) => match first_sought(sought, x, sort, hold, e) {
            Some(at) => Some(at),
            None => gathered_in_block(sought, x, sort, hold, block),
        },
        Stmt::For(_, name, start, end, block) => match first_sought(sought, x, sort, hold, start) {
            Some(at) => Some(at),
            None => match first_sought(sought, x, sort, hold, end) {
                Some(at) => Some(at),
                None => gathered_in_block(sought, x, sort, held_beside(x, name, hold), block),
            },
        },
        Stmt::Borrow(_, access, names, block, _) => {
            let inside = held_in_borrow(x, *access, &names.variable, &names.reference, hold);
            gathered_in_block(sought, x, sort, inside, block)
        }
        Stmt::BorrowTyped(_, reference, _, mode, variable, block, _) => {
            let inside = held_in_borrow(x, access_of(*mode), variable, reference, hold);
            gathered_in_block(sought, x, sort, inside, block)
        }
        Stmt::Call(_, e) => first_sought(sought, x, sort, hold, e),
        Stmt::Return(_, e) => first_sought(sought, x, sort, hold, e),
    }
}

/// The first place that is sought, of a block.
#[cycle(gathered)]
fn gathered_in_block<P: Phase>(
    sought: Sought,
    x: &Name,
    sort: Sort,
    hold: Hold,
    block: &Block<P>,
) -> Option<Pos>
    ensures { result ≡ first_of
        (gathered_in_block x.now (sought_at sought x.now sort) (seen_block P.Phase block.now)
        (hold_of hold)) }
{
    let mut held = hold;
    for one in &block.statements {
        if let Some(at) = gathered(sought, x, sort, held, one) {
            return Some(at);
        }
        held = held_after(x, one, held);
    }
    None
}

/// The first place that is sought, of some branches.
#[cycle(gathered)]
fn gathered_in_branches<P: Phase>(
    sought: Sought,
    x: &Name,
    sort: Sort,
    hold: Hold,
    branches: &Vec<Branch<P>>,
) -> Option<Pos>
    ensures { result ≡ first_of
        (gathered_in_branches x.now (sought_at sought x.now sort) (seen_branches P.Phase branches.now.items)
        (hold_of hold)) }
{
    for one in branches {
        if let Some(at) = gathered_in_branch(sought, x, sort, hold, one) {
            return Some(at);
        }
    }
    None
}

/// The first place that is sought, of a branch.
#[cycle(gathered)]
fn gathered_in_branch<P: Phase>(
    sought: Sought,
    x: &Name,
    sort: Sort,
    hold: Hold,
    branch: &Branch<P>,
) -> Option<Pos>
    ensures { result ≡ or_else
        (first_of
        (sought_at sought x.now sort (hold_of hold) (seen_expression P.Phase branch.now.test.value)))
        (first_of (gathered_in_block x.now (sought_at sought x.now sort) (seen_block P.Phase branch.now.block)
        (hold_of hold))) }
{
    match first_sought(sought, x, sort, hold, &branch.test) {
        Some(at) => Some(at),
        None => gathered_in_block(sought, x, sort, hold, &branch.block),
    }
}

/// The first place that is sought, of some arms.
#[cycle(gathered)]
fn gathered_in_arms<P: Phase>(
    sought: Sought,
    x: &Name,
    sort: Sort,
    hold: Hold,
    arms: &Vec<Arm<P>>,
) -> Option<Pos>
    ensures { result ≡ first_of
        (gathered_in_arms x.now (sought_at sought x.now sort) (seen_arms P.Phase arms.now.items)
        (hold_of hold)) }
{
    for one in arms {
        if let Some(at) = gathered_in_arm(sought, x, sort, hold, one) {
            return Some(at);
        }
    }
    None
}

/// The first place that is sought, of an arm.
#[cycle(gathered)]
fn gathered_in_arm<P: Phase>(
    sought: Sought,
    x: &Name,
    sort: Sort,
    hold: Hold,
    arm: &Arm<P>,
) -> Option<Pos>
    ensures { result ≡ first_of
        (gathered_in_block x.now (sought_at sought x.now sort) (seen_block P.Phase arm.now.block)
        (held_from x.now (bound_names (seen_binds P.Phase arm.now.binds.items)) (hold_of hold))) }
{
    let inside = held_beside_binds(x, &arm.binds, hold);
    gathered_in_block(sought, x, sort, inside, &arm.block)
}

/// The first place in a loop of a statement where the variable is consumed.
#[tactic(auto, using(crate::proofs::FirstLemmas::first_steps, au_syntax::proofs::StatementLemmas::statement_steps))]
#[cycle(looped)]
fn looped<P: Phase>(x: &Name, sort: Sort, hold: Hold, stmt: &Stmt<P>) -> Option<Pos>
    ensures { result ≡ first_of
        (looped x.now (sought_at soughts.Consumption x.now sort) (seen_statement P.Phase stmt.now)
        (hold_of hold)) }
{
    match stmt {
        Stmt::If(_, branches) => looped_in_branches(x, sort, hold, branches),
        Stmt::IfElse(_, branches, block) => match looped_in_branches(x, sort, hold, branches) {
            Some(at) => Some(at),
            None => looped_in_block(x, sort, hold, block),
        },
        Stmt::Case(_, _, arms) => looped_in_arms(x, sort, hold, arms),
        Stmt::While(_, e, block) => match first_sought(Sought::Consumption, x, sort, hold, e) {
            Some(at) => Some(at),
            None => gathered_in_block(Sought::Consumption, x, sort, hold, block),
        },
        Stmt::For(_, name, _, _, block) => {
            let inside = held_beside(x, name, hold);
            gathered_in_block(Sought::Consumption, x, sort, inside, block)
        }
        Stmt::Borrow(_, access, names, block, _) => {
            let inside = held_in_borrow(x, *access, &names.variable, &names.reference, hold);
            looped_in_block(x, sort, inside, block)
        }
        Stmt::BorrowTyped(_, reference, _, mode, variable, block, _) => {
            let inside = held_in_borrow(x, access_of(*mode), variable, reference, hold);
            looped_in_block(x, sort, inside, block)
        }
        Stmt::Skip(_) => None,
        Stmt::Let(_, _, _, _, _) => None,
        Stmt::Destructure(_, _, _) => None,
        Stmt::Assign(_, _, _, _) => None,
        Stmt::AssignThrough(_, _, _, _) => None,
        Stmt::Call(_, _) => None,
        Stmt::Return(_, _) => None,
    }
}

/// The same in a block.
#[cycle(looped)]
fn looped_in_block<P: Phase>(x: &Name, sort: Sort, hold: Hold, block: &Block<P>) -> Option<Pos>
    ensures { result ≡ first_of
        (looped_in_block x.now (sought_at soughts.Consumption x.now sort) (seen_block P.Phase block.now)
        (hold_of hold)) }
{
    let mut held = hold;
    for one in &block.statements {
        if let Some(at) = looped(x, sort, held, one) {
            return Some(at);
        }
        held = held_after(x, one, held);
    }
    None
}

/// The same in some branches.
#[cycle(looped)]
fn looped_in_branches<P: Phase>(
    x: &Name,
    sort: Sort,
    hold: Hold,
    branches: &Vec<Branch<P>>,
) -> Option<Pos>
    ensures { result ≡ first_of
        (looped_in_branches x.now (sought_at soughts.Consumption x.now sort)
        (seen_branches P.Phase branches.now.items) (hold_of hold)) }
{
    for one in branches {
        if let Some(at) = looped_in_branch(x, sort, hold, one) {
            return Some(at);
        }
    }
    None
}

/// The same in a branch.
#[cycle(looped)]
fn looped_in_branch<P: Phase>(x: &Name, sort: Sort, hold: Hold, branch: &Branch<P>) -> Option<Pos>
    ensures { result ≡ first_of
        (looped_in_block x.now (sought_at soughts.Consumption x.now sort)
        (seen_block P.Phase branch.now.block) (hold_of hold)) }
{
    looped_in_block(x, sort, hold, &branch.block)
}

/// The same in some arms.
#[cycle(looped)]
fn looped_in_arms<P: Phase>(x: &Name, sort: Sort, hold: Hold, arms: &Vec<Arm<P>>) -> Option<Pos>
    ensures { result ≡ first_of
        (looped_in_arms x.now (sought_at soughts.Consumption x.now sort) (seen_arms P.Phase arms.now.items)
        (hold_of hold)) }
{
    for one in arms {
        if let Some(at) = looped_in_arm(x, sort, hold, one) {
            return Some(at);
        }
    }
    None
}

/// The same in an arm.
#[cycle(looped)]
fn looped_in_arm<P: Phase>(x: &Name, sort: Sort, hold: Hold, arm: &Arm<P>) -> Option<Pos>
    ensures { result ≡ first_of
        (looped_in_block x.now (sought_at soughts.Consumption x.now sort) (seen_block P.Phase arm.now.block)
        (held_from x.now (bound_names (seen_binds P.Phase arm.now.binds.items)) (hold_of hold))) }
{
    let inside = held_beside_binds(x, &arm.binds, hold);
    looped_in_block(x, sort, inside, &arm.block)
}

/// The first place in a loop of the statements from this number on where the variable is consumed.
pub(crate) fn first_in_loop<P: Phase>(
    x: &Name,
    sort: Sort,
    block: &Block<P>,
    from: usize,
) -> Option<Pos>
    requires { from ≤ length block.now.statements.items }
    ensures { result ≡ first_of
        (loop_places x.now sort (seen_statements P.Phase (drop from block.now.statements.items))) }
{
    let mut held = Hold::Unlent;
    for index in from..block.statements.len() {
        let one = &block.statements[index];
        if let Some(at) = looped(x, sort, held, one) {
            return Some(at);
        }
        held = held_after(x, one, held);
    }
    None
}

/// The first place in the statements from this number on where the variable is consumed and an expression may
/// leave out to look.
pub(crate) fn first_in_part<P: Phase>(
    x: &Name,
    sort: Sort,
    block: &Block<P>,
    from: usize,
) -> Option<Pos>
    requires { from ≤ length block.now.statements.items }
    ensures { result ≡ first_of
        (part_places x.now sort (seen_statements P.Phase (drop from block.now.statements.items))) }
{
    let mut held = Hold::Unlent;
    for index in from..block.statements.len() {
        let one = &block.statements[index];
        if let Some(at) = gathered(Sought::Parting, x, sort, held, one) {
            return Some(at);
        }
        held = held_after(x, one, held);
    }
    None
}
