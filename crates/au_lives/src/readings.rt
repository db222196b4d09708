//! How many places of a block read a number.

ghost use Rattle.std.specs.Prelude.{◌≡◌, ◌+◌};
ghost use Rattle.au_syntax.specs.Views.{statement, block, branch_all, arm_all};
ghost use Rattle.au_syntax.specs.Plain.{plain_statement, plain_statements, plain_branches, plain_arms};
ghost use Rattle.au_lives.specs.Choices.{places, places_of_block, places_of_branches, places_of_arms};
ghost use Rattle.au_lives.specs.Choices.{counted};

use au_syntax::{Arm, Block, Branch, Phase, Stmt};

/// The sum, as far as can be counted.
fn sum_of(one: u64, other: u64) -> u64
    ensures { result ≡ counted (one + other) }
{
    one.saturating_add(other)
}

/// How many places of a block read a number: its conditionals, its cases and its loops. More than 2^64 - 1
/// count as so many.
#[cycle(choices)]
pub fn choices<P: Phase>(b: &Block<P>) -> u64
    ensures { result ≡ counted (places_of_block (plain_statements P.name_bytes (block P.Phase b.now))) }
{
    let mut sum = 0;
    for one in &b.statements {
        let part = choices_of(one);
        sum = sum_of(sum, part);
    }
    sum
}

/// How many places of a statement read a number.
#[tactic(auto, using(au_syntax::proofs::StatementLemmas::statement_steps))]
#[cycle(choices)]
fn choices_of<P: Phase>(stmt: &Stmt<P>) -> u64
    ensures { result ≡ counted (places (plain_statement P.name_bytes (statement P.Phase stmt.now))) }
{
    match stmt {
        Stmt::Skip(_) => 0,
        Stmt::Let(_, _, _, _, _) => 0,
        Stmt::Destructure(_, _, _) => 0,
        Stmt::Assign(_, _, _, _) => 0,
        Stmt::AssignThrough(_, _, _, _) => 0,
        Stmt::If(_, branches) => sum_of(1, choices_of_branches(branches)),
        Stmt::IfElse(_, branches, block) => {
            sum_of(1, sum_of(choices_of_branches(branches), choices(block)))
        }
        Stmt::Case(_, _, arms) => sum_of(1, choices_of_arms(arms)),
        Stmt::While(_, _, block) => sum_of(1, choices(block)),
        Stmt::For(_, _, _, _, block) => sum_of(1, choices(block)),
        Stmt::Borrow(_, _, _, block, _) => choices(block),
        Stmt::BorrowTyped(_, _, _, _, _, block, _) => choices(block),
        Stmt::Call(_, _) => 0,
        Stmt::Return(_, _) => 0,
    }
}

/// How many places of some branches read a number.
#[cycle(choices)]
fn choices_of_branches<P: Phase>(branches: &Vec<Branch<P>>) -> u64
    ensures { result ≡ counted
        (places_of_branches (plain_branches P.name_bytes (branch_all P.Phase branches.now.items))) }
{
    let mut sum = 0;
    for one in branches {
        let part = choices_of_branch(one);
        sum = sum_of(sum, part);
    }
    sum
}

/// How many places of some arms read a number.
#[cycle(choices)]
fn choices_of_arms<P: Phase>(arms: &Vec<Arm<P>>) -> u64
    ensures { result ≡ counted (places_of_arms (plain_arms P.name_bytes (arm_all P.Phase arms.now.items))) }
{
    let mut sum = 0;
    for one in arms {
        let part = choices_of_arm(one);
        sum = sum_of(sum, part);
    }
    sum
}

/// How many places of a branch read a number.
#[cycle(choices)]
fn choices_of_branch<P: Phase>(branch: &Branch<P>) -> u64
    ensures { result ≡ counted
        (places_of_block (plain_statements P.name_bytes (block P.Phase branch.now.block))) }
{
    choices(&branch.block)
}

/// How many places of an arm read a number.
#[cycle(choices)]
fn choices_of_arm<P: Phase>(arm: &Arm<P>) -> u64
    ensures { result ≡ counted (places_of_block
        (plain_statements P.name_bytes (block P.Phase arm.now.block))) }
{
    choices(&arm.block)
}
