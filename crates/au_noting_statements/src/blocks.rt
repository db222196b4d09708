//! Statements and blocks.

ghost use Rattle.std.specs.Prelude.{◌≡◌, IfOk, OnOk, map};
ghost use Rattle.au_typing.specs.InScope as inside;
ghost use Rattle.au_typing.specs.DerivationSearch as spec;
ghost use Rattle.au_judgements.specs.Refusing.{Judges};
ghost use Rattle.au_judgements.specs.Said.{binds_said};
ghost use Rattle.au_sights.specs.contracts.noted.NotedPhase.TheImpl.{ghosts as noted};
ghost use Rattle.au_noting.specs.Scopes.{scope_said};
ghost use Rattle.au_noting_statements.specs.Noted.{all_boxed};
ghost use Rattle.au_syntax.specs.contracts.parsed.ParsedPhase.TheImpl.{ghosts as parsed};
ghost use Rattle.au_syntax.specs.Statements as form;
ghost use Rattle.au_syntax.specs.Views.{arm_all, block, bound, branch_all, expression};
ghost use Rattle.au_syntax.specs.Views.{placed, statement, written};

use crate::entering::{borrow_at, case_at, enter_arm, for_at, go_on, test_at, tests_at, typed_at};
use crate::lists::{next_test, put_arm, put_branch, put_statement};
use crate::single::{
    note_assign, note_assign_through, note_call, note_destructure, note_let, note_return,
};
use au_base::Pos;
use au_judgements::Refused;
use au_noting::Scope;
use au_sights::Noted;
use au_syntax::{
    Access, Arm, Block, BorrowMode, BorrowNames, Branch, Expr, Ident, Parsed, Stmt, TypeText,
};
use std::alloc::Global;
use std::collections::VecDeque;

/// What a borrow statement with a written type says of its reference: its name and type, and how what is
/// lent.
#[derive(Clone, Copy)]
struct TypedBorrow<'a> {
    name: &'a Ident<Parsed>,
    text: &'a TypeText,
    mode: BorrowMode,
    of: &'a Ident<Parsed>,
}

/// A statement.
#[cycle(note_statement)]
fn note_statement(
    alloc: Global,
    scope: &mut Scope,
    stmt: &Stmt<Parsed>,
) -> Result<Stmt<Noted>, Refused>
    ensures judged { Judges (statement noted) result
        (spec.note_statement (statement parsed stmt.now) (scope_said scope.old)) }
    ensures left { OnOk result (scope_said scope.new ≡ scope_said scope.old) }
{
    match stmt {
        Stmt::Skip(at) => Ok(Stmt::Skip(*at)),
        Stmt::Let(at, binding, name, of, value) => {
            note_let(alloc, scope, *at, *binding, name, of, value)
        }
        Stmt::Destructure(at, binds, value) => note_destructure(alloc, scope, *at, binds, value),
        Stmt::Assign(at, name, path, value) => note_assign(alloc, scope, *at, name, path, value),
        Stmt::AssignThrough(at, name, path, value) => {
            note_assign_through(alloc, scope, *at, name, path, value)
        }
        Stmt::If(at, branches) => note_if(alloc, scope, *at, branches),
        Stmt::IfElse(at, branches, last) => note_if_else(alloc, scope, *at, branches, last),
        Stmt::Case(at, value, arms) => note_case_of(alloc, scope, *at, value, arms),
        Stmt::While(at, test, body) => note_while(alloc, scope, *at, test, body),
        Stmt::For(at, name, first, last, body) => {
            note_for(alloc, scope, *at, name, first, last, body)
        }
        Stmt::Borrow(at, kind, names, body, end) => {
            note_borrow(alloc, scope, *at, *kind, names, body, *end)
        }
        Stmt::BorrowTyped(at, name, text, mode, of, body, end) => {
            let mode = *mode;
            let borrow = TypedBorrow {
                name,
                text,
                mode,
                of,
            };
            note_borrow_typed(alloc, scope, *at, &borrow, body, *end)
        }
        Stmt::Call(at, value) => note_call(alloc, scope, *at, value),
        Stmt::Return(at, value) => note_return(alloc, scope, *at, value),
    }
}

/// A conditional without `else`.
#[cycle(note_statement)]
fn note_if(
    alloc: Global,
    scope: &mut Scope,
    at: Pos,
    branches: &Vec<Branch<Parsed>>,
) -> Result<Stmt<Noted>, Refused>
    ensures judged { Judges (statement noted) result (spec.note_statement
        (form.conditional at (branch_all parsed branches.now.items)) (scope_said scope.old)) }
    ensures left { OnOk result (scope_said scope.new ≡ scope_said scope.old) }
{
    let tests = tests_at(alloc, scope, at, branches)?;
    let branches = note_branches(alloc, scope, branches, tests)?;
    Ok(Stmt::If(at, branches))
}

/// A conditional with `else`.
#[cycle(note_statement)]
fn note_if_else(
    alloc: Global,
    scope: &mut Scope,
    at: Pos,
    branches: &Vec<Branch<Parsed>>,
    last: &Block<Parsed>,
) -> Result<Stmt<Noted>, Refused>
    ensures judged { Judges (statement noted) result (spec.note_statement
        (form.conditional_else at (branch_all parsed branches.now.items) (block parsed last.now))
        (scope_said scope.old)) }
    ensures left { OnOk result (scope_said scope.new ≡ scope_said scope.old) }
{
    let tests = tests_at(alloc, scope, at, branches)?;
    let branches = note_branches(alloc, scope, branches, tests)?;
    let last = note_block(alloc, scope, last)?;
    Ok(Stmt::IfElse(at, branches, last))
}

/// A `case`.
#[cycle(note_statement)]
fn note_case_of(
    alloc: Global,
    scope: &mut Scope,
    at: Pos,
    value: &Expr<Parsed>,
    arms: &Vec<Arm<Parsed>>,
) -> Result<Stmt<Noted>, Refused>
    ensures judged { Judges (statement noted) result (spec.note_statement
        (form.case_of at (expression parsed value.now) (arm_all parsed arms.now.items))
        (scope_said scope.old)) }
    ensures left { OnOk result (scope_said scope.new ≡ scope_said scope.old) }
{
    let value = case_at(alloc, scope, at, value, arms)?;
    let arms = note_arms(alloc, scope, arms)?;
    Ok(Stmt::Case(at, value, arms))
}

/// A `while`.
#[cycle(note_statement)]
fn note_while(
    alloc: Global,
    scope: &mut Scope,
    at: Pos,
    test: &Expr<Parsed>,
    body: &Block<Parsed>,
) -> Result<Stmt<Noted>, Refused>
    ensures judged { Judges (statement noted) result (spec.note_statement
        (form.while_loop at (expression parsed test.now) (block parsed body.now)) (scope_said scope.old)) }
    ensures left { OnOk result (scope_said scope.new ≡ scope_said scope.old) }
{
    let test = test_at(alloc, scope, at, test)?;
    let body = note_block(alloc, scope, body)?;
    Ok(Stmt::While(at, test, body))
}

/// A `for`.
#[cycle(note_statement)]
fn note_for(
    alloc: Global,
    scope: &mut Scope,
    at: Pos,
    name: &Ident<Parsed>,
    first: &Expr<Parsed>,
    last: &Expr<Parsed>,
    body: &Block<Parsed>,
) -> Result<Stmt<Noted>, Refused>
    ensures judged { Judges (statement noted) result (spec.note_statement (form.for_loop at
        (placed parsed name.now) (expression parsed first.now) (expression parsed last.now)
        (block parsed body.now)) (scope_said scope.old)) }
    ensures left { OnOk result (scope_said scope.new ≡ scope_said scope.old) }
{
    let depth = scope.depth();
    let (name, first, last) = for_at(alloc, scope, at, name, first, last)?;
    let body = note_block(alloc, scope, body)?;
    scope.leave_to(depth);
    Ok(Stmt::For(at, name, first, last, body))
}

/// A borrow statement without a written type.
#[cycle(note_statement)]
fn note_borrow(
    alloc: Global,
    scope: &mut Scope,
    at: Pos,
    kind: Access,
    names: &BorrowNames<Parsed>,
    body: &Block<Parsed>,
    end: Pos,
) -> Result<Stmt<Noted>, Refused>
    ensures judged { Judges (statement noted) result (spec.note_statement (form.borrow_in at kind
        (placed parsed names.now.variable) (placed parsed names.now.reference)
        (placed parsed names.now.region) (block parsed body.now) end) (scope_said scope.old)) }
    ensures left { OnOk result (scope_said scope.new ≡ scope_said scope.old) }
{
    let depth = scope.depth();
    let names = borrow_at(alloc, scope, at, kind, names)?;
    let body = note_block(alloc, scope, body)?;
    scope.leave_to(depth);
    scope.leave_region();
    Ok(Stmt::Borrow(at, kind, names, body, end))
}

/// A borrow statement with a written type.
#[cycle(note_statement)]
fn note_borrow_typed(
    alloc: Global,
    scope: &mut Scope,
    at: Pos,
    borrow: &TypedBorrow,
    body: &Block<Parsed>,
    end: Pos,
) -> Result<Stmt<Noted>, Refused>
    ensures judged { Judges (statement noted) result (spec.note_statement (form.borrow_typed at
        (placed parsed borrow.now.name.now) (written borrow.now.text.now) borrow.now.mode
        (placed parsed borrow.now.of.now) (block parsed body.now) end) (scope_said scope.old)) }
    ensures left { OnOk result (scope_said scope.new ≡ scope_said scope.old) }
{
    let depth = scope.depth();
    let mode = borrow.mode;
    let (name, text, of) = typed_at(alloc, scope, at, borrow.name, borrow.text, mode, borrow.of)?;
    let body = note_block(alloc, scope, body)?;
    scope.leave_to(depth);
    scope.leave_region();
    Ok(Stmt::BorrowTyped(at, name, text, mode, of, body, end))
}

/// The notes of a block, in the scope in front of it: that a statement may not follow what stands before it
/// is told before any other fault of it. The scope is the same then.
///
/// # Errors
///
/// The first clause that fails, with the place of its statement, or a limit. The scope is another then.
#[cycle(note_statement)]
pub fn note_block(
    alloc: Global,
    scope: &mut Scope,
    body: &Block<Parsed>,
) -> Result<Block<Noted>, Refused>
    ensures judged { Judges (block noted) result
        (spec.note_block (block parsed body.now) (scope_said scope.old)) }
    ensures left { OnOk result (scope_said scope.new ≡ scope_said scope.old) }
{
    let depth = scope.depth();
    let mut statements = Vec::new(alloc);
    for (index, stmt) in body.statements.iter().enumerate() {
        let made = note_statement(alloc, scope, stmt)?;
        put_statement(&mut statements, made)?;
        go_on(alloc, scope, stmt, &body.statements[index + 1..])?;
    }
    scope.leave_to(depth);
    Ok(Block { statements })
}

/// Branches of which the tests are noted.
#[cycle(note_statement)]
fn note_branches(
    alloc: Global,
    scope: &mut Scope,
    branches: &Vec<Branch<Parsed>>,
    tests: VecDeque<Box<Expr<Noted>>>,
) -> Result<Vec<Branch<Noted>>, Refused>
    ensures judged { Judges (λ made. branch_all noted made.items) result (spec.note_branches
        (branch_all parsed branches.now.items) (all_boxed tests.items) (scope_said scope.old)) }
    ensures left { OnOk result (scope_said scope.new ≡ scope_said scope.old) }
{
    let mut tests = tests;
    let mut made = Vec::new(alloc);
    for branch in branches {
        match next_test(&mut tests) {
            Some(test) => {
                let block = note_block(alloc, scope, &branch.block)?;
                put_branch(&mut made, Branch { test, block })?;
            }
            None => return Ok(made),
        }
    }
    Ok(made)
}

/// An arm of a `case`.
#[cycle(note_statement)]
fn note_arm(alloc: Global, scope: &mut Scope, arm: &Arm<Parsed>) -> Result<Arm<Noted>, Refused>
    ensures judged { Judges (λ made. block noted made.block) result (spec.note_block
        (block parsed arm.now.block)
        (inside.with_bound (binds_said arm.now.binds.items) (scope_said scope.old))) }
    ensures at { IfOk result (λ made. made.at ≡ arm.now.at) }
    ensures name { IfOk result (λ made. placed noted made.case ≡ placed parsed arm.now.case) }
    ensures binds { IfOk result (λ made.
        map (bound noted) made.binds.items ≡ binds_said arm.now.binds.items) }
    ensures left { OnOk result (scope_said scope.new ≡ scope_said scope.old) }
{
    let depth = scope.depth();
    let (case, binds) = enter_arm(alloc, scope, arm)?;
    let block = note_block(alloc, scope, &arm.block)?;
    scope.leave_to(depth);
    Ok(Arm {
        at: arm.at,
        case,
        binds,
        block,
    })
}

/// The arms of a `case`.
#[cycle(note_statement)]
fn note_arms(
    alloc: Global,
    scope: &mut Scope,
    arms: &Vec<Arm<Parsed>>,
) -> Result<Vec<Arm<Noted>>, Refused>
    ensures judged { Judges (λ made. arm_all noted made.items) result
        (spec.note_arms (arm_all parsed arms.now.items) (scope_said scope.old)) }
    ensures left { OnOk result (scope_said scope.new ≡ scope_said scope.old) }
{
    let mut made = Vec::new(alloc);
    for arm in arms {
        let one = note_arm(alloc, scope, arm)?;
        put_arm(&mut made, one)?;
    }
    Ok(made)
}
