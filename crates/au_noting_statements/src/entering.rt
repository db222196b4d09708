//! What stands before the blocks of statements, and the scopes in these blocks.

ghost use Rattle.std.specs.Prelude.{◌≡◌, IfOk, OnOk, map};
ghost use Rattle.au_typing.specs.DerivationFaults as refusals;
ghost use Rattle.au_typing.specs.InScope as inside;
ghost use Rattle.au_typing.specs.Returns as paths;
ghost use Rattle.au_typing.specs.DerivationSearch as spec;
ghost use Rattle.au_judgements.specs.Refusing.{Judges};
ghost use Rattle.au_judgements.specs.Said.{binds_said, heads_said};
ghost use Rattle.au_sights.specs.contracts.noted.NotedPhase.TheImpl.{ghosts as noted};
ghost use Rattle.au_noting.specs.Giving.{Gives};
ghost use Rattle.au_noting.specs.Scopes.{scope_said};
ghost use Rattle.au_noting_statements.specs.Entering as entering;
ghost use Rattle.au_noting_statements.specs.Noted.{all_boxed, boxed, two_boxed};
ghost use Rattle.au_syntax.specs.contracts.parsed.ParsedPhase.TheImpl.{ghosts as parsed};
ghost use Rattle.au_syntax.specs.Views.{bound, branch_all, expression};
ghost use Rattle.au_syntax.specs.Views.{placed, statement, statement_all, written};
ghost use Rattle.au_types.specs.Views.{meaning};
ghost use Rattle.au_typing.specs.Notes as notes;

use crate::parts::{note_bounds, note_case, note_test, note_tests};
use au_base::{Memory, Pos};
use au_judgements::borrowing::{borrow_type, judge_borrow, judge_lent, mode_for};
use au_judgements::declaring::{declare_after, declare_bound, declare_fixed};
use au_judgements::leaving::enter_reference;
use au_judgements::places::judge_next;
use au_judgements::returning::returns;
use au_judgements::{Refused, refused_at};
use au_noting::{Fault, Scope};
use au_noting_expressions::type_of;
use au_sights::{Noted, copy_binds, copy_borrow_names, copy_name, copy_text_of_type};
use au_syntax::{
    Access, Arm, Bind, BorrowMode, BorrowNames, Branch, Expr, Ident, Parsed, Stmt, TypeText,
};
use au_types::{Ty, copy_type};
use std::alloc::Global;
use std::collections::VecDeque;

/// The tests of a conditional.
pub fn tests_at(
    alloc: Global,
    scope: &Scope,
    at: Pos,
    branches: &Vec<Branch<Parsed>>,
) -> Result<VecDeque<Box<Expr<Noted>>>, Refused>
    ensures { Judges (λ tests. all_boxed tests.items) result (refusals.placed at
        (spec.note_tests (scope_said scope.now) (branch_all parsed branches.now.items))) }
{
    match note_tests(alloc, scope, branches) {
        Ok(tests) => Ok(tests),
        Err(fault) => Err(refused_at(at, fault)),
    }
}

/// The value of a `case`, where its arms are those for its cases.
pub fn case_at(
    alloc: Global,
    scope: &Scope,
    at: Pos,
    value: &Expr<Parsed>,
    arms: &Vec<Arm<Parsed>>,
) -> Result<Box<Expr<Noted>>, Refused>
    ensures { Judges boxed result (refusals.placed at (spec.note_case (scope_said scope.now)
        (expression parsed value.now) (heads_said arms.now.items))) }
{
    match note_case(alloc, scope, value, arms) {
        Ok(value) => Ok(value),
        Err(fault) => Err(refused_at(at, fault)),
    }
}

/// The test of a `while`.
pub fn test_at(
    alloc: Global,
    scope: &Scope,
    at: Pos,
    value: &Expr<Parsed>,
) -> Result<Box<Expr<Noted>>, Refused>
    ensures { Judges boxed result (refusals.placed at
        (spec.note_test (scope_said scope.now) (expression parsed value.now))) }
{
    match note_test(alloc, scope, value) {
        Ok(value) => Ok(value),
        Err(fault) => Err(refused_at(at, fault)),
    }
}

/// The bounds of a `for`; its variable is in scope then.
fn enter_for(
    alloc: Global,
    scope: &mut Scope,
    name: &Ident<Parsed>,
    first: &Expr<Parsed>,
    last: &Expr<Parsed>,
) -> Result<(Box<Expr<Noted>>, Box<Expr<Noted>>), Fault>
    ensures judged { Gives two_boxed result (spec.note_bounds (scope_said scope.old)
        (expression parsed first.now) (expression parsed last.now)) }
    ensures inside { IfOk result (λ y. scope_said scope.new ≡ inside.with_variable
        (inside.fixed_variable name.now.name (notes.type_of (boxed y.0))) (scope_said scope.old)) }
{
    let (first, last) = note_bounds(alloc, scope, first, last)?;
    let of = copy_type(alloc, type_of(&first))?;
    declare_fixed(alloc, scope, &name.name, of)?;
    Ok((first, last))
}

/// The name and the bounds of a `for`; its variable is in scope then.
pub fn for_at(
    alloc: Global,
    scope: &mut Scope,
    at: Pos,
    name: &Ident<Parsed>,
    first: &Expr<Parsed>,
    last: &Expr<Parsed>,
) -> Result<(Ident<Noted>, Box<Expr<Noted>>, Box<Expr<Noted>>), Refused>
    ensures judged { Judges (λ y. (boxed y.1, boxed y.2)) result (refusals.placed at (spec.note_bounds
        (scope_said scope.old) (expression parsed first.now) (expression parsed last.now))) }
    ensures name { IfOk result (λ y. placed noted y.0 ≡ placed parsed name.now) }
    ensures inside { IfOk result (λ y. scope_said scope.new ≡ inside.with_variable
        (inside.fixed_variable name.now.name (notes.type_of (boxed y.1))) (scope_said scope.old)) }
{
    match enter_for(alloc, scope, name, first, last) {
        Ok((first, last)) => Ok((copy_name(alloc, name)?, first, last)),
        Err(fault) => Err(refused_at(at, fault)),
    }
}

/// The type of the reference of a borrow statement without a written type.
fn lent_reference(
    alloc: Global,
    scope: &Scope,
    kind: Access,
    names: &BorrowNames<Parsed>,
) -> Result<Ty, Fault>
    ensures { Gives meaning result (entering.lent_reference (scope_said scope.now)
        kind names.now.variable.name names.now.region.name) }
{
    let mode = mode_for(kind);
    let lends = judge_lent(alloc, scope, mode, &names.variable.name)?;
    Ok(borrow_type(alloc, mode, &names.region.name, &lends)?)
}

/// Enters the block of a borrow statement without a written type.
fn enter_lent(
    alloc: Global,
    scope: &mut Scope,
    kind: Access,
    names: &BorrowNames<Parsed>,
) -> Result<(), Fault>
    ensures { Gives (λ _. scope_said scope.new) result (entering.lent_scope (scope_said scope.old)
        kind names.now.variable.name names.now.reference.name names.now.region.name) }
{
    let of = lent_reference(alloc, scope, kind, names)?;
    Ok(enter_reference(alloc, scope, &names.reference.name, &names.region.name, of)?)
}

/// The names of a borrow statement without a written type; its block is entered then.
pub fn borrow_at(
    alloc: Global,
    scope: &mut Scope,
    at: Pos,
    kind: Access,
    names: &BorrowNames<Parsed>,
) -> Result<BorrowNames<Noted>, Refused>
    ensures judged { Judges (λ _. scope_said scope.new) result (refusals.placed at (entering.lent_scope
        (scope_said scope.old) kind names.now.variable.name names.now.reference.name names.now.region.name)) }
    ensures variable { IfOk result (λ copy. placed noted copy.variable ≡ placed parsed names.now.variable) }
    ensures reference { IfOk result (λ copy.
        placed noted copy.reference ≡ placed parsed names.now.reference) }
    ensures region { IfOk result (λ copy. placed noted copy.region ≡ placed parsed names.now.region) }
{
    match enter_lent(alloc, scope, kind, names) {
        Ok(()) => Ok(copy_borrow_names(alloc, names)?),
        Err(fault) => Err(refused_at(at, fault)),
    }
}

/// Enters the block of a borrow statement with a written type.
fn enter_typed(
    alloc: Global,
    scope: &mut Scope,
    name: &Ident<Parsed>,
    text: &TypeText,
    mode: BorrowMode,
    of: &Ident<Parsed>,
) -> Result<(), Fault>
    ensures { Gives (λ _. scope_said scope.new) result (entering.typed_scope (scope_said scope.old)
        name.now.name (written text.now) mode of.now.name) }
{
    let (region, reference) = judge_borrow(alloc, scope, text, mode, &of.name)?;
    Ok(enter_reference(alloc, scope, &name.name, &region, reference)?)
}

/// The names and the type of a borrow statement with a written type.
fn copy_typed(
    alloc: Global,
    name: &Ident<Parsed>,
    text: &TypeText,
    of: &Ident<Parsed>,
) -> Result<(Ident<Noted>, TypeText, Ident<Noted>), Memory>
    ensures name { IfOk result (λ copy. placed noted copy.0 ≡ placed parsed name.now) }
    ensures text { IfOk result (λ copy. written copy.1 ≡ written text.now) }
    ensures of { IfOk result (λ copy. placed noted copy.2 ≡ placed parsed of.now) }
{
    let name = copy_name(alloc, name)?;
    let text = copy_text_of_type(alloc, text)?;
    let of = copy_name(alloc, of)?;
    Ok((name, text, of))
}

/// The names and the type of a borrow statement with a written type; its block is entered then.
pub fn typed_at(
    alloc: Global,
    scope: &mut Scope,
    at: Pos,
    name: &Ident<Parsed>,
    text: &TypeText,
    mode: BorrowMode,
    of: &Ident<Parsed>,
) -> Result<(Ident<Noted>, TypeText, Ident<Noted>), Refused>
    ensures judged { Judges (λ _. scope_said scope.new) result (refusals.placed at (entering.typed_scope
        (scope_said scope.old) name.now.name (written text.now) mode of.now.name)) }
    ensures name { IfOk result (λ copy. placed noted copy.0 ≡ placed parsed name.now) }
    ensures text { IfOk result (λ copy. written copy.1 ≡ written text.now) }
    ensures of { IfOk result (λ copy. placed noted copy.2 ≡ placed parsed of.now) }
{
    match enter_typed(alloc, scope, name, text, mode, of) {
        Ok(()) => Ok(copy_typed(alloc, name, text, of)?),
        Err(fault) => Err(refused_at(at, fault)),
    }
}

/// The head of an arm; its fields are in scope then.
pub fn enter_arm(
    alloc: Global,
    scope: &mut Scope,
    arm: &Arm<Parsed>,
) -> Result<(Ident<Noted>, Vec<Bind<Noted>>), Memory>
    ensures inside { OnOk result (scope_said scope.new
        ≡ inside.with_bound (binds_said arm.now.binds.items) (scope_said scope.old)) }
    ensures name { IfOk result (λ copy. placed noted copy.0 ≡ placed parsed arm.now.case) }
    ensures binds { IfOk result (λ copy. map (bound noted) copy.1.items ≡ binds_said arm.now.binds.items) }
{
    declare_bound(alloc, scope, arm.binds.as_slice())?;
    let name = copy_name(alloc, &arm.case)?;
    let binds = copy_binds(alloc, &arm.binds)?;
    Ok((name, binds))
}

/// Goes on behind a statement: nothing may follow one that returns on every path, and what it declares is in
/// scope then.
pub fn go_on(
    alloc: Global,
    scope: &mut Scope,
    stmt: &Stmt<Parsed>,
    rest: &[Stmt<Parsed>],
) -> Result<(), Refused>
    ensures judged { Judges (λ _. tt) result (spec.judge_next
        (paths.returns (statement parsed stmt.now)) (statement_all parsed rest.now)) }
    ensures after { OnOk result (scope_said scope.new
        ≡ inside.after (statement parsed stmt.now) (scope_said scope.old)) }
{
    judge_next(returns(stmt), rest)?;
    Ok(declare_after(alloc, scope, stmt)?)
}
