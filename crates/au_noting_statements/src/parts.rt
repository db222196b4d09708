//! The notes of what a statement says itself, without its blocks.

ghost use Rattle.au_typing.specs.DerivationSearch as spec;
ghost use Rattle.au_judgements.specs.Said.{binds_said, heads_said};
ghost use Rattle.au_noting.specs.Giving.{Gives};
ghost use Rattle.au_noting.specs.Said.{all_typed, fields_said};
ghost use Rattle.au_noting.specs.Scopes.{scope_said};
ghost use Rattle.au_noting_statements.specs.Noted.{all_boxed, boxed, two_boxed};
ghost use Rattle.au_syntax.specs.contracts.parsed.ParsedPhase.TheImpl.{ghosts as parsed};
ghost use Rattle.au_syntax.specs.Views.{branch_all, expression, written};
ghost use Rattle.au_types.specs.Views.{meaning};
ghost use Rattle.au_typing.specs.Faults as faults;
ghost use Rattle.au_typing.specs.Search as search;
ghost use Rattle.std.specs.Prelude.{Some};

use crate::lists::put_test;
use crate::vectors::{judge_assigned, judge_binds, judge_heads, judge_put};
use au_base::Name;
use au_judgements::arms::judge_union;
use au_noting::faults::{not_free, other_form};
use au_noting::lookups::{is_free_in, written_type};
use au_noting::nodes::of_one_type;
use au_noting::rules::is_integer;
use au_noting::{Fault, Scope};
use au_noting_expressions::{note_boxed, paired, truth, type_of};
use au_sights::surroundings::fields;
use au_sights::{Form, Noted, Typed};
use au_syntax::{Arm, Bind, Branch, Expr, Ident, Parsed, TypeText};
use au_types::Ty;
use std::alloc::Global;
use std::collections::VecDeque;

/// The value of a variable that is declared: its type is judged first.
pub fn note_declared(
    alloc: Global,
    scope: &Scope,
    of: &TypeText,
    value: &Expr<Parsed>,
) -> Result<Box<Expr<Noted>>, Fault>
    ensures { Gives boxed result
        (spec.note_declared (scope_said scope.now) (written of.now) (expression parsed value.now)) }
{
    let of = written_type(alloc, scope, of)?;
    note_boxed(alloc, scope, Some(&of), value)
}

/// The fields of a type, which is a record that is known there.
fn known_fields(alloc: Global, scope: &Scope, of: &Ty) -> Result<Vec<Typed>, Fault>
    ensures { Gives (λ all. all_typed all.items) result (faults.known_or
        (faults.shape faults.record_wanted) ((scope_said scope.now).outside.fields (meaning of.now))) }
{
    match fields(alloc, &scope.outside, of)? {
        Some(all) => Ok(all),
        None => Err(other_form(Form::Record)),
    }
}

/// The value that is taken apart by a destructuring `let`.
pub fn note_taken(
    alloc: Global,
    scope: &Scope,
    binds: &Vec<Bind<Parsed>>,
    value: &Expr<Parsed>,
) -> Result<Box<Expr<Noted>>, Fault>
    ensures { Gives boxed result
        (spec.note_taken (scope_said scope.now) (binds_said binds.now.items) (expression parsed value.now)) }
{
    let made = note_boxed(alloc, scope, None, value)?;
    let all = known_fields(alloc, scope, type_of(&made))?;
    judge_binds(alloc, scope, &all, binds)?;
    Ok(made)
}

/// The value that is assigned to a variable or to a part of one.
pub fn note_assigned(
    alloc: Global,
    scope: &Scope,
    name: &Name,
    path: &Vec<Ident<Parsed>>,
    value: &Expr<Parsed>,
) -> Result<Box<Expr<Noted>>, Fault>
    ensures { Gives boxed result (spec.note_assigned (scope_said scope.now)
        name.now (fields_said path.now.items) (expression parsed value.now)) }
{
    let of = judge_assigned(alloc, scope, name, path)?;
    note_boxed(alloc, scope, Some(&of), value)
}

/// The value that is assigned behind a write reference.
pub fn note_put(
    alloc: Global,
    scope: &Scope,
    name: &Name,
    path: &Vec<Ident<Parsed>>,
    value: &Expr<Parsed>,
) -> Result<Box<Expr<Noted>>, Fault>
    ensures { Gives boxed result (spec.note_put (scope_said scope.now)
        name.now (fields_said path.now.items) (expression parsed value.now)) }
{
    let of = judge_put(alloc, scope, name, path)?;
    note_boxed(alloc, scope, Some(&of), value)
}

/// A test.
pub fn note_test(
    alloc: Global,
    scope: &Scope,
    value: &Expr<Parsed>,
) -> Result<Box<Expr<Noted>>, Fault>
    ensures { Gives boxed result (spec.note_test (scope_said scope.now) (expression parsed value.now)) }
{
    let goal = truth();
    note_boxed(alloc, scope, Some(&goal), value)
}

/// The tests of a conditional in order.
pub fn note_tests(
    alloc: Global,
    scope: &Scope,
    branches: &Vec<Branch<Parsed>>,
) -> Result<VecDeque<Box<Expr<Noted>>>, Fault>
    ensures { Gives (λ tests. all_boxed tests.items) result
        (spec.note_tests (scope_said scope.now) (branch_all parsed branches.now.items)) }
{
    let mut made = VecDeque::new(alloc);
    for branch in branches {
        let test = note_test(alloc, scope, &branch.test)?;
        put_test(&mut made, test)?;
    }
    Ok(made)
}

/// The value of which a `case` has the cases, where its arms are those for them.
pub fn note_case(
    alloc: Global,
    scope: &Scope,
    value: &Expr<Parsed>,
    arms: &Vec<Arm<Parsed>>,
) -> Result<Box<Expr<Noted>>, Fault>
    ensures { Gives boxed result
        (spec.note_case (scope_said scope.now) (expression parsed value.now) (heads_said arms.now.items)) }
{
    let made = note_boxed(alloc, scope, None, value)?;
    let all = judge_union(alloc, scope, type_of(&made))?;
    judge_heads(alloc, scope, &all, arms)?;
    Ok(made)
}

/// The bounds of a `for`.
pub fn note_bounds(
    alloc: Global,
    scope: &Scope,
    first: &Expr<Parsed>,
    last: &Expr<Parsed>,
) -> Result<(Box<Expr<Noted>>, Box<Expr<Noted>>), Fault>
    ensures { Gives two_boxed result (spec.note_bounds (scope_said scope.now)
        (expression parsed first.now) (expression parsed last.now)) }
{
    let (first, last) = paired(alloc, scope, None, first, last)?;
    of_one_type(alloc, type_of(&first), type_of(&last))?;
    if is_integer(type_of(&first)) {
        Ok((first, last))
    } else {
        Err(other_form(Form::Integer))
    }
}

/// The call of a call statement.
pub fn note_discarded(
    alloc: Global,
    scope: &Scope,
    value: &Expr<Parsed>,
) -> Result<Box<Expr<Noted>>, Fault>
    ensures { Gives boxed result
        (spec.note_discarded (scope_said scope.now) (expression parsed value.now)) }
{
    let made = note_boxed(alloc, scope, None, value)?;
    if is_free_in(scope, type_of(&made)) {
        Ok(made)
    } else {
        Err(not_free(alloc, type_of(&made)))
    }
}

/// The value that is returned.
pub fn note_returned(
    alloc: Global,
    scope: &Scope,
    value: &Expr<Parsed>,
) -> Result<Box<Expr<Noted>>, Fault>
    ensures { Gives boxed result (search.note (scope_said scope.now)
        (expression parsed value.now) (Some (scope_said scope.now).result)) }
{
    note_boxed(alloc, scope, Some(&scope.result), value)
}
