//! What an expression does to the variables that it mentions.

ghost use Rattle.std.specs.Prelude.{◌≡◌, ◌||◌, Bool, false, IfOk, OnOk};
ghost use Rattle.au_syntax.specs.Plain.{Bytes};
ghost use Rattle.au_lives.specs.Mentions as mentions;
ghost use Rattle.au_clearing.specs.Seen.{seen_name, seen_expression, seen_expressions, seen_arguments};
ghost use Rattle.au_clearing.specs.Tables.{find};
ghost use Rattle.au_clearing.specs.Touches as spec;
ghost use Rattle.au_clearing.specs.Deals.{touch_or_none, by_touch, touch_in, Meets};

use crate::tables::Table;
use crate::touches::{Touch, Touches, alone, borrowed, both};
use au_base::Memory;
use au_lives::is_variable;
use au_syntax::{Argument, BinaryOperator, Expr, Ident, Phase};
use std::alloc::Global;

/// What a table has of a name.
fn touches_at(table: &Table<Touches>, name: &[u8]) -> Touches
    ensures { (free : Bool) → by_touch free result ≡ touch_or_none free (find name.now table.now) }
{
    match table.get(name) {
        Some(touches) => *touches,
        None => Touches {
            owned: Touch::Untouched,
            free: Touch::Untouched,
        },
    }
}

/// One more mention of a name in a step.
fn mention<P: Phase>(
    alloc: Global,
    table: &mut Table<Touches>,
    name: &Ident<P>,
    more: Touches,
) -> Result<(), Memory>
    ensures { OnOk result (Meets table.old table.new
        (λ x free. spec.where_named x (seen_name P.Phase name.now).name (by_touch free more))) }
{
    let bytes = P::bytes_of(&name.name);
    let old = touches_at(table, bytes);
    let key = Vec::from_slice(alloc, bytes)?;
    let new = Touches {
        owned: both(old.owned, more.owned),
        free: both(old.free, more.free),
    };
    table.put(key, new)
}

/// One more mention of a name in a step, the same for both kinds of types.
fn mention_as<P: Phase>(
    alloc: Global,
    table: &mut Table<Touches>,
    name: &Ident<P>,
    touch: Touch,
) -> Result<(), Memory>
    ensures { OnOk result (Meets table.old table.new
        (λ x free. spec.where_named x (seen_name P.Phase name.now).name touch)) }
{
    let more = Touches {
        owned: touch,
        free: touch,
    };
    mention(alloc, table, name, more)
}

/// Whether the operator may leave out its right side.
fn may_skip(operator: BinaryOperator) -> bool
    ensures { result ≡ mentions.may_skip operator }
{
    matches!(operator, BinaryOperator::And | BinaryOperator::Or)
}

/// Whether one of two holds.
fn either(one: bool, other: bool) -> bool
    ensures { result ≡ (one || other) }
{
    one || other
}

/// What an expression does to the names that it mentions, by whether they are only looked at, and by whether
/// the expression may be left out.
#[cycle(touched)]
fn touch<P: Phase>(
    alloc: Global,
    table: &mut Table<Touches>,
    looked: bool,
    part: bool,
    e: &Expr<P>,
) -> Result<(), Memory>
    ensures { OnOk result (Meets table.old table.new
        (λ x free. spec.touched x (free || looked) part (seen_expression P.Phase e.now))) }
{
    match e {
        Expr::Path(_, name, fields) => {
            let more = Touches {
                owned: alone(looked, part, fields),
                free: Touch::Quiet,
            };
            mention(alloc, table, name, more)
        }
        Expr::Arrow(_, name, _) => mention_as(alloc, table, name, Touch::Quiet),
        Expr::Borrow(_, mode, name) => mention_as(alloc, table, name, borrowed(*mode)),
        Expr::BorrowPart(_, name, _) => mention_as(alloc, table, name, Touch::Quiet),
        Expr::Call(_, _, arguments, _) => touch_all(alloc, table, looked, part, arguments),
        Expr::NamedCall(_, _, arguments, _) => {
            touch_arguments(alloc, table, looked, part, arguments)
        }
        Expr::Parenthesized(_, inner) => touch(alloc, table, looked, part, inner),
        Expr::Dereference(_, inner) => {
            let behind = either(looked, is_variable(inner));
            touch(alloc, table, behind, part, inner)
        }
        Expr::Not(_, inner) => touch(alloc, table, looked, part, inner),
        Expr::Typed(_, inner, _) => touch(alloc, table, looked, part, inner),
        Expr::Binary(_, operator, first, second) => {
            let skipped = either(part, may_skip(*operator));
            touch(alloc, table, looked, part, first)?;
            touch(alloc, table, looked, skipped, second)
        }
        Expr::If(_, test, first, second) => {
            touch(alloc, table, looked, part, test)?;
            touch(alloc, table, looked, true, first)?;
            touch(alloc, table, looked, true, second)
        }
        Expr::Number(_, _) => Ok(()),
        Expr::Negative(_, _) => Ok(()),
        Expr::Text(_, _) => Ok(()),
        Expr::Bool(_, _) => Ok(()),
        Expr::Nil(_) => Ok(()),
    }
}

/// What some expressions do.
#[cycle(touched)]
fn touch_all<P: Phase>(
    alloc: Global,
    table: &mut Table<Touches>,
    looked: bool,
    part: bool,
    exprs: &Vec<Expr<P>>,
) -> Result<(), Memory>
    ensures { OnOk result (Meets table.old table.new
        (λ x free. spec.touched_in_all x (free || looked) part
        (seen_expressions P.Phase exprs.now.items))) }
{
    for one in exprs {
        touch(alloc, table, looked, part, one)?;
    }
    Ok(())
}

/// What some named arguments do.
#[cycle(touched)]
fn touch_arguments<P: Phase>(
    alloc: Global,
    table: &mut Table<Touches>,
    looked: bool,
    part: bool,
    arguments: &Vec<Argument<P>>,
) -> Result<(), Memory>
    ensures { OnOk result (Meets table.old table.new
        (λ x free. spec.touched_in_arguments x (free || looked) part
        (seen_arguments P.Phase arguments.now.items))) }
{
    for one in arguments {
        touch_argument(alloc, table, looked, part, one)?;
    }
    Ok(())
}

/// What a named argument does.
#[cycle(touched)]
fn touch_argument<P: Phase>(
    alloc: Global,
    table: &mut Table<Touches>,
    looked: bool,
    part: bool,
    argument: &Argument<P>,
) -> Result<(), Memory>
    ensures { OnOk result (Meets table.old table.new
        (λ x free. spec.touched x (free || looked) part (seen_expression P.Phase argument.now.value))) }
{
    touch(alloc, table, looked, part, &argument.value)
}

/// What a whole expression does to the names that it mentions.
///
/// # Errors
///
/// `Memory` when memory runs out.
pub(crate) fn touches_of<P: Phase>(alloc: Global, e: &Expr<P>) -> Result<Table<Touches>, Memory>
    ensures { IfOk result (λ table. (x : Bytes) (free : Bool)
        → touch_in table x free ≡ spec.touched x free false (seen_expression P.Phase e.now)) }
{
    let mut table = Table::new(alloc);
    touch(alloc, &mut table, false, false, e)?;
    Ok(table)
}

/// A step that mentions one name alone.
///
/// # Errors
///
/// `Memory` when memory runs out.
pub(crate) fn touch_of_name<P: Phase>(
    alloc: Global,
    name: &Ident<P>,
    touch: Touch,
) -> Result<Table<Touches>, Memory>
    ensures { IfOk result (λ table. (x : Bytes) (free : Bool)
        → touch_in table x free ≡ spec.where_named x (seen_name P.Phase name.now).name touch) }
{
    let mut table = Table::new(alloc);
    mention_as(alloc, &mut table, name, touch)?;
    Ok(table)
}
