//! The recursion over an expression.

ghost use Rattle.std.specs.Prelude.{◌≡◌, IfOk, Some, length, map};
ghost use Rattle.std.specs.VecDeque.{deque_len};
ghost use Rattle.au_noting.specs.Giving.{Gives};
ghost use Rattle.au_noting.specs.Modes.{wanted};
ghost use Rattle.au_noting.specs.Said.{meanings};
ghost use Rattle.au_noting.specs.Scopes.{scope_said};
ghost use Rattle.au_noting_expressions.specs.Arguments.{each_operand, mistaken, operands_of, takes, values};
ghost use Rattle.au_noting_expressions.specs.Passing.{all_beside, both_passes, fixed_taken, half_beside};
ghost use Rattle.au_noting_expressions.specs.Said.{beside_said, call_said, half_said};
ghost use Rattle.au_sights.specs.contracts.noted.NotedPhase.TheImpl.{ghosts as noted};
ghost use Rattle.au_matching.specs.Fixed.{fixed};
ghost use Rattle.au_syntax.specs.contracts.parsed.ParsedPhase.TheImpl.{ghosts as parsed};
ghost use Rattle.au_syntax.specs.Expressions as tree;
ghost use Rattle.au_syntax.specs.Views.{argument_all, expression, expression_all, node, placed};
ghost use Rattle.au_types.specs.Types as mean;
ghost use Rattle.au_types.specs.Views.{meaning};
ghost use Rattle.au_typing.specs.Bare as bare;
ghost use Rattle.au_typing.specs.Operands as pairs;
ghost use Rattle.au_typing.specs.Search.{note_expression};
ghost use Rattle.au_typing.specs.SearchCalls as search;

use crate::halves::{Half, next_half, put_half, put_noted};
use crate::noted_operands::{Operands, begin_call, operand_at};
use crate::{
    boxed, is_parameter, make_arithmetic, make_call, make_choice, make_comparison,
    make_dereference, make_logical, make_named_call, make_negation, make_parenthesized, make_typed,
    note_arrow, note_borrow, note_borrow_part, note_negative, note_nil, note_number, note_path,
    note_text, note_truth, take_as, take_as_int32, truth, type_of, unlike_int32, with_arguments,
};
use au_base::Name;
use au_matching::{Substitution, fixes, substitute};
use au_noting::lookups::written_type;
use au_noting::rules::{is_arithmetic, is_bare, is_logical};
use au_noting::{Fault, Scope};
use au_sights::{Noted, Notes};
use au_syntax::{Argument, BinaryOperator, Expr, Ident, Parsed, Site};
use au_types::Ty;
use std::alloc::Global;
use std::collections::VecDeque;

/// The notes of an expression in a scope, where a type is wanted of it or none is.
///
/// # Errors
///
/// The limit or the clause that fails first.
#[cycle(note)]
pub fn note(
    alloc: Global,
    scope: &Scope,
    mode: Option<&Ty>,
    e: &Expr<Parsed>,
) -> Result<Expr<Noted>, Fault>
    ensures { Gives (expression noted) result
        (note_expression (scope_said scope.now) (expression parsed e.now) (wanted mode.entry)) }
{
    match e {
        Expr::Number(site, literal) => note_number(alloc, mode, site, literal),
        Expr::Negative(site, literal) => note_negative(alloc, mode, site, literal),
        Expr::Text(site, text) => note_text(alloc, mode, site, text),
        Expr::Bool(site, value) => note_truth(alloc, mode, site, *value),
        Expr::Nil(site) => note_nil(alloc, mode, site),
        Expr::Path(site, name, fields) => note_path(alloc, scope, mode, site, name, fields),
        Expr::Arrow(site, name, fields) => note_arrow(alloc, scope, mode, site, name, fields),
        Expr::Call(site, name, args, _) => note_call(alloc, scope, mode, site, name, args),
        Expr::NamedCall(site, name, args, _) => note_named_call(
            alloc, scope, mode, site, name, args,
        ),
        Expr::Parenthesized(site, inner) => {
            let inner = note_boxed(alloc, scope, mode, inner)?;
            make_parenthesized(alloc, mode, site, inner)
        }
        Expr::Dereference(site, inner) => {
            let inner = note_boxed(alloc, scope, None, inner)?;
            make_dereference(alloc, scope, mode, site, inner)
        }
        Expr::Borrow(site, kind, name) => note_borrow(alloc, scope, mode, site, *kind, name),
        Expr::BorrowPart(site, name, fields) => note_borrow_part(
            alloc, scope, mode, site, name, fields,
        ),
        Expr::Binary(site, op, first, second) => note_binary(
            alloc, scope, mode, site, *op, first, second,
        ),
        Expr::Not(site, inner) => {
            let inner = note_test(alloc, scope, inner)?;
            make_negation(alloc, mode, site, inner)
        }
        Expr::Typed(site, inner, text) => {
            let of = written_type(alloc, scope, text)?;
            let inner = note_boxed(alloc, scope, Some(&of), inner)?;
            make_typed(alloc, mode, site, inner, text, &of)
        }
        Expr::If(site, test, first, second) => note_choice(
            alloc, scope, mode, site, test, first, second,
        ),
    }
}

/// The same in a box.
///
/// # Errors
///
/// The limit or the clause that fails first.
#[cycle(note)]
pub fn note_boxed(
    alloc: Global,
    scope: &Scope,
    mode: Option<&Ty>,
    e: &Expr<Parsed>,
) -> Result<Box<Expr<Noted>>, Fault>
    ensures { Gives (λ made. expression noted made.value) result
        (note_expression (scope_said scope.now) (expression parsed e.now) (wanted mode.entry)) }
{
    let made = note(alloc, scope, mode, e)?;
    Ok(boxed(alloc, made)?)
}

/// The notes of an expression of which `Bool` is wanted.
#[cycle(note)]
fn note_test(alloc: Global, scope: &Scope, e: &Expr<Parsed>) -> Result<Box<Expr<Noted>>, Fault>
    ensures { Gives (λ made. expression noted made.value) result
        (note_expression (scope_said scope.now) (expression parsed e.now) (Some mean.truth)) }
{
    let goal = truth();
    note_boxed(alloc, scope, Some(&goal), e)
}

/// The notes of two operands that are paired: from left to right, but one that isn't bare before one that is,
/// of which its type is wanted.
///
/// # Errors
///
/// The limit or the clause that fails first.
#[cycle(note)]
pub fn paired(
    alloc: Global,
    scope: &Scope,
    mode: Option<&Ty>,
    first: &Expr<Parsed>,
    second: &Expr<Parsed>,
) -> Result<(Box<Expr<Noted>>, Box<Expr<Noted>>), Fault>
    ensures { Gives (λ y. (expression noted y.0.value, expression noted y.1.value)) result
        (pairs.paired
        (bare.is_bare (expression parsed first.now)) (bare.is_bare (expression parsed second.now))
        (note_expression (scope_said scope.now) (expression parsed first.now))
        (note_expression (scope_said scope.now) (expression parsed second.now)) (wanted mode.entry)) }
{
    match (is_bare(first), is_bare(second)) {
        (true, false) => {
            let second = note_boxed(alloc, scope, mode, second)?;
            let first = note_boxed(alloc, scope, Some(type_of(&second)), first)?;
            Ok((first, second))
        }
        (false, true) => {
            let first = note_boxed(alloc, scope, mode, first)?;
            let second = note_boxed(alloc, scope, Some(type_of(&first)), second)?;
            Ok((first, second))
        }
        (true, true) => {
            let first = note_boxed(alloc, scope, mode, first)?;
            let second = note_boxed(alloc, scope, mode, second)?;
            Ok((first, second))
        }
        (false, false) => {
            let first = note_boxed(alloc, scope, mode, first)?;
            let second = note_boxed(alloc, scope, mode, second)?;
            Ok((first, second))
        }
    }
}

/// The notes of a binary operation.
#[cycle(note)]
fn note_binary(
    alloc: Global,
    scope: &Scope,
    mode: Option<&Ty>,
    site: &Site<Parsed>,
    op: BinaryOperator,
    first: &Expr<Parsed>,
    second: &Expr<Parsed>,
) -> Result<Expr<Noted>, Fault>
    ensures { Gives (expression noted) result (note_expression (scope_said scope.now)
        (tree.binary (node parsed site.now) op (expression parsed first.now) (expression parsed second.now))
        (wanted mode.entry)) }
{
    if is_arithmetic(op) {
        let (first, second) = paired(alloc, scope, mode, first, second)?;
        make_arithmetic(alloc, mode, site, op, first, second)
    } else if is_logical(op) {
        let first = note_test(alloc, scope, first)?;
        let second = note_test(alloc, scope, second)?;
        make_logical(alloc, mode, site, op, first, second)
    } else {
        let (first, second) = paired(alloc, scope, None, first, second)?;
        make_comparison(alloc, mode, site, op, first, second)
    }
}

/// The notes of a choice between two operands.
#[cycle(note)]
fn note_choice(
    alloc: Global,
    scope: &Scope,
    mode: Option<&Ty>,
    site: &Site<Parsed>,
    test: &Expr<Parsed>,
    first: &Expr<Parsed>,
    second: &Expr<Parsed>,
) -> Result<Expr<Noted>, Fault>
    ensures { Gives (expression noted) result (note_expression (scope_said scope.now)
        (tree.choice (node parsed site.now) (expression parsed test.now) (expression parsed first.now)
        (expression parsed second.now))
        (wanted mode.entry)) }
{
    let test = note_test(alloc, scope, test)?;
    let (first, second) = paired(alloc, scope, mode, first, second)?;
    make_choice(alloc, mode, site, test, first, second)
}

/// The notes of a call with positional arguments.
#[cycle(note)]
fn note_call(
    alloc: Global,
    scope: &Scope,
    mode: Option<&Ty>,
    site: &Site<Parsed>,
    name: &Ident<Parsed>,
    args: &Vec<Expr<Parsed>>,
) -> Result<Expr<Noted>, Fault>
    ensures { Gives (expression noted) result (note_expression (scope_said scope.now)
        (tree.call (node parsed site.now) (placed parsed name.now) (expression_all parsed args.now.items) tt)
        (wanted mode.entry)) }
{
    let ops = Operands::Positional(args);
    let (notes, made) = note_arguments(alloc, scope, mode, &name.name, &ops)?;
    make_call(alloc, site, name, notes, made)
}

/// The notes of a call with labelled arguments.
#[cycle(note)]
fn note_named_call(
    alloc: Global,
    scope: &Scope,
    mode: Option<&Ty>,
    site: &Site<Parsed>,
    name: &Ident<Parsed>,
    args: &Vec<Argument<Parsed>>,
) -> Result<Expr<Noted>, Fault>
    ensures { Gives (expression noted) result (note_expression (scope_said scope.now)
        (tree.named_call (node parsed site.now) (placed parsed name.now)
        (argument_all parsed args.now.items) tt)
        (wanted mode.entry)) }
{
    let ops = Operands::Labelled(args);
    let (notes, made) = note_arguments(alloc, scope, mode, &name.name, &ops)?;
    make_named_call(alloc, site, name, args, notes, made)
}

/// The note of a call of a name, and the notes of its arguments.
#[cycle(note)]
fn note_arguments(
    alloc: Global,
    scope: &Scope,
    mode: Option<&Ty>,
    name: &Name,
    ops: &Operands,
) -> Result<(Notes, Vec<Expr<Noted>>), Fault>
    ensures { Gives call_said result (search.call_noted (scope_said scope.now) name.now (takes ops.now)
        (mistaken ops.now) (wanted mode.entry) (operands_of (scope_said scope.now) ops.now)) }
{
    let (one, types, s) = begin_call(alloc, scope, mode, name, ops)?;
    let (made, s) = note_operands(alloc, scope, types.as_slice(), ops, s)?;
    with_arguments(alloc, scope, mode, &one, made, s)
}

/// The notes of arguments in two passes: over those that aren't bare, and then over those that are.
#[cycle(note)]
fn note_operands(
    alloc: Global,
    scope: &Scope,
    types: &[Ty],
    ops: &Operands,
    s: Substitution,
) -> Result<(Vec<Expr<Noted>>, Substitution), Fault>
    requires { length types.now ≡ length (values ops.now) }
    ensures { Gives all_beside result (both_passes
        (each_operand (scope_said scope.now) (values ops.now)) (meanings types.now) s) }
{
    let (halves, s) = first(alloc, scope, types, ops, s)?;
    second(alloc, scope, types, ops, halves, s)
}

/// The first pass over arguments, in textual order.
#[cycle(note)]
fn first(
    alloc: Global,
    scope: &Scope,
    types: &[Ty],
    ops: &Operands,
    s: Substitution,
) -> Result<(VecDeque<Half>, Substitution), Fault>
    requires { length types.now ≡ length (values ops.now) }
    ensures gives { Gives (λ y. (map half_said y.0.items, y.1)) result (search.first
        (each_operand (scope_said scope.now) (values ops.now)) (meanings types.now) s) }
    ensures lengths { IfOk result (λ y. deque_len y.0 ≡ length types.now) }
{
    let mut halves = VecDeque::new(alloc);
    let mut s = s;
    for (index, param) in types.iter().enumerate() {
        let (half, more) = first_step(alloc, scope, param, operand_at(ops, index), s)?;
        put_half(&mut halves, half)?;
        s = more;
    }
    Ok((halves, s))
}

/// The second pass, over the arguments and what the first pass left of each.
#[cycle(note)]
fn second(
    alloc: Global,
    scope: &Scope,
    types: &[Ty],
    ops: &Operands,
    halves: VecDeque<Half>,
    s: Substitution,
) -> Result<(Vec<Expr<Noted>>, Substitution), Fault>
    requires types { length types.now ≡ length (values ops.now) }
    requires halves { deque_len halves ≡ length types.now }
    ensures { Gives all_beside result (search.second (each_operand (scope_said scope.now) (values ops.now))
        (map half_said halves.items) (meanings types.now) s) }
{
    let mut halves = halves;
    let mut made = Vec::new(alloc);
    let mut s = s;
    for (index, param) in types.iter().enumerate() {
        let half = next_half(&mut halves);
        let (one, more) = second_step(alloc, scope, param, operand_at(ops, index), half, s)?;
        put_noted(&mut made, one)?;
        s = more;
    }
    Ok((made, s))
}

/// What the first pass does at an argument.
#[cycle(note)]
fn first_step(
    alloc: Global,
    scope: &Scope,
    param: &Ty,
    e: &Expr<Parsed>,
    s: Substitution,
) -> Result<(Half, Substitution), Fault>
    ensures { Gives half_beside result (search.first_step (bare.is_bare (expression parsed e.now))
        (note_expression (scope_said scope.now) (expression parsed e.now)) (meaning param.now) s) }
{
    if is_bare(e) {
        return Ok((None, s));
    }
    let (one, more) = taken(alloc, scope, param, e, s)?;
    Ok((Some(one), more))
}

/// What the second pass does at an argument.
#[cycle(note)]
fn second_step(
    alloc: Global,
    scope: &Scope,
    param: &Ty,
    e: &Expr<Parsed>,
    half: Half,
    s: Substitution,
) -> Result<(Expr<Noted>, Substitution), Fault>
    ensures { Gives beside_said result (search.second_step (half_said half)
        (note_expression (scope_said scope.now) (expression parsed e.now)) (meaning param.now) s) }
{
    match half {
        Some(one) => Ok((one, s)),
        None => taken_bare(alloc, scope, param, e, s),
    }
}

/// An argument of which its parameter's type is wanted.
#[cycle(note)]
fn taken_fixed(
    alloc: Global,
    scope: &Scope,
    param: &Ty,
    e: &Expr<Parsed>,
    s: Substitution,
) -> Result<(Expr<Noted>, Substitution), Fault>
    ensures { Gives beside_said result (fixed_taken
        (note_expression (scope_said scope.now) (expression parsed e.now)) (meaning param.now) s) }
{
    let goal = substitute(alloc, param, &s)?;
    let one = note(alloc, scope, Some(&goal), e)?;
    Ok((one, s))
}

/// An argument that isn't bare.
#[cycle(note)]
fn taken(
    alloc: Global,
    scope: &Scope,
    param: &Ty,
    e: &Expr<Parsed>,
    s: Substitution,
) -> Result<(Expr<Noted>, Substitution), Fault>
    ensures { Gives beside_said result (search.taken (fixed s (meaning param.now))
        (note_expression (scope_said scope.now) (expression parsed e.now)) (meaning param.now) s) }
{
    if fixes(&s, param) {
        return taken_fixed(alloc, scope, param, e, s);
    }
    let one = note_boxed(alloc, scope, None, e)?;
    take_as(alloc, param, s, one)
}

/// A bare argument.
#[cycle(note)]
fn taken_bare(
    alloc: Global,
    scope: &Scope,
    param: &Ty,
    e: &Expr<Parsed>,
    s: Substitution,
) -> Result<(Expr<Noted>, Substitution), Fault>
    ensures { Gives beside_said result (search.taken_bare (fixed s (meaning param.now))
        (note_expression (scope_said scope.now) (expression parsed e.now)) (meaning param.now) s) }
{
    if fixes(&s, param) {
        return taken_fixed(alloc, scope, param, e, s);
    }
    if !is_parameter(param) {
        return Err(unlike_int32(alloc, param, &s));
    }
    let one = note_boxed(alloc, scope, None, e)?;
    take_as_int32(alloc, param, s, one)
}
