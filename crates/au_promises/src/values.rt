//! Puts the names in the types that are written in a constant's value behind others.

ghost use Rattle.std.specs.Prelude.{◌≡◌, ◌++◌, OnOk};
ghost use Rattle.au_promises.specs.Mentions.{named_values_mentions, value_mentions, values_mentions};
ghost use Rattle.au_promises.specs.Said.{arguments_said, expression_said, expressions_said};

use crate::mentions::Mention;
use crate::pushing::push_type;
use au_base::Memory;
use au_syntax::{Argument, Expr, Parsed};
use std::alloc::Global;

/// Puts the names in the types that are written in a value. A type stands behind what it is written for.
#[cycle(push_value)]
pub fn push_value(
    alloc: Global,
    list: &mut Vec<Mention>,
    value: &Expr<Parsed>,
) -> Result<(), Memory>
    ensures { OnOk result (list.new.items ≡ list.old.items ++ value_mentions (expression_said value.now)) }
{
    match value {
        Expr::Number(_, _) => Ok(()),
        Expr::Negative(_, _) => Ok(()),
        Expr::Text(_, _) => Ok(()),
        Expr::Bool(_, _) => Ok(()),
        Expr::Nil(_) => Ok(()),
        Expr::Path(_, _, _) => Ok(()),
        Expr::Arrow(_, _, _) => Ok(()),
        Expr::Call(_, _, values, _) => push_values(alloc, list, values),
        Expr::NamedCall(_, _, arguments, _) => push_named_values(alloc, list, arguments),
        Expr::Parenthesized(_, inner) => push_value(alloc, list, inner),
        Expr::Dereference(_, inner) => push_value(alloc, list, inner),
        Expr::Borrow(_, _, _) => Ok(()),
        Expr::BorrowPart(_, _, _) => Ok(()),
        Expr::Binary(_, _, left, right) => {
            push_value(alloc, list, left)?;
            push_value(alloc, list, right)
        }
        Expr::Not(_, inner) => push_value(alloc, list, inner),
        Expr::Typed(_, inner, of) => {
            push_value(alloc, list, inner)?;
            push_type(alloc, list, of)
        }
        Expr::If(_, test, then, otherwise) => {
            push_value(alloc, list, test)?;
            push_value(alloc, list, then)?;
            push_value(alloc, list, otherwise)
        }
    }
}

/// Puts the names in the types that are written in the arguments of a call.
#[cycle(push_value)]
fn push_values(
    alloc: Global,
    list: &mut Vec<Mention>,
    values: &Vec<Expr<Parsed>>,
) -> Result<(), Memory>
    ensures { OnOk result (list.new.items
        ≡ list.old.items ++ values_mentions (expressions_said values.now.items)) }
{
    for one in values {
        push_value(alloc, list, one)?;
    }
    Ok(())
}

/// Puts the names in the types that are written in the named arguments of a call.
#[cycle(push_value)]
fn push_named_values(
    alloc: Global,
    list: &mut Vec<Mention>,
    arguments: &Vec<Argument<Parsed>>,
) -> Result<(), Memory>
    ensures { OnOk result (list.new.items
        ≡ list.old.items ++ named_values_mentions (arguments_said arguments.now.items)) }
{
    for one in arguments {
        push_named_value(alloc, list, one)?;
    }
    Ok(())
}

/// Puts the names in the types that are written in a named argument.
#[cycle(push_value)]
fn push_named_value(
    alloc: Global,
    list: &mut Vec<Mention>,
    argument: &Argument<Parsed>,
) -> Result<(), Memory>
    ensures { OnOk result (list.new.items
        ≡ list.old.items ++ value_mentions (expression_said argument.now.value)) }
{
    push_value(alloc, list, &argument.value)
}
