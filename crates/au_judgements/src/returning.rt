//! Which statements and blocks return on every path.

ghost use Rattle.std.specs.Prelude.{◌≡◌};
ghost use Rattle.au_typing.specs.Returns as spec;
ghost use Rattle.au_syntax.specs.Views.{arm_all, block, branch_all, statement};

use au_syntax::{Arm, Block, Branch, Phase, Stmt};

/// Whether a statement returns on every path. A loop never counts, nor does a conditional without `else`.
#[cycle(returns)]
pub fn returns<P: Phase>(stmt: &Stmt<P>) -> bool
    ensures { result ≡ spec.returns (statement P.Phase stmt.now) }
{
    match stmt {
        Stmt::Skip(_) => false,
        Stmt::Let(_, _, _, _, _) => false,
        Stmt::Destructure(_, _, _) => false,
        Stmt::Assign(_, _, _, _) => false,
        Stmt::AssignThrough(_, _, _, _) => false,
        Stmt::If(_, _) => false,
        Stmt::IfElse(_, branches, body) => branches_return(branches) && block_returns(body),
        Stmt::Case(_, _, arms) => arms_return(arms),
        Stmt::While(_, _, _) => false,
        Stmt::For(_, _, _, _, _) => false,
        Stmt::Borrow(_, _, _, body, _) => block_returns(body),
        Stmt::BorrowTyped(_, _, _, _, _, body, _) => block_returns(body),
        Stmt::Call(_, _) => false,
        Stmt::Return(_, _) => true,
    }
}

/// Whether a block returns on every path: one of its statements does.
#[cycle(returns)]
pub fn block_returns<P: Phase>(body: &Block<P>) -> bool
    ensures { result ≡ spec.block_returns (block P.Phase body.now) }
{
    for one in &body.statements {
        if returns(one) {
            return true;
        }
    }
    false
}

/// Whether the block behind each test returns on every path.
#[cycle(returns)]
fn branches_return<P: Phase>(branches: &Vec<Branch<P>>) -> bool
    ensures { result ≡ spec.branches_return (branch_all P.Phase branches.now.items) }
{
    for one in branches {
        if !branch_returns(one) {
            return false;
        }
    }
    true
}

/// Whether the block of each arm returns on every path.
#[cycle(returns)]
fn arms_return<P: Phase>(arms: &Vec<Arm<P>>) -> bool
    ensures { result ≡ spec.arms_return (arm_all P.Phase arms.now.items) }
{
    for one in arms {
        if !arm_returns(one) {
            return false;
        }
    }
    true
}

/// Whether the block behind a test returns on every path.
#[cycle(returns)]
fn branch_returns<P: Phase>(branch: &Branch<P>) -> bool
    ensures { result ≡ spec.block_returns (block P.Phase branch.now.block) }
{
    block_returns(&branch.block)
}

/// Whether the block of an arm returns on every path.
#[cycle(returns)]
fn arm_returns<P: Phase>(arm: &Arm<P>) -> bool
    ensures { result ≡ spec.block_returns (block P.Phase arm.now.block) }
{
    block_returns(&arm.block)
}
