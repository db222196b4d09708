//! Puts the types that are written in a constant's value behind what is written before.

ghost use Rattle.std.specs.Prelude.{◌≡◌, ◌++◌, OnOk};
ghost use Rattle.au_formed.specs.Said.{writings_said};
ghost use Rattle.au_formed.specs.Writings.{named_values_writings, value_writings, values_writings};
ghost use Rattle.au_promises.specs.Said.{arguments_said, expression_said, expressions_said};

use crate::pushing::push_type;
use crate::writings::Writing;
use au_base::Memory;
use au_syntax::{Argument, Expr, Parsed};

/// Puts the types that are written in a value. A type stands behind what it is written for.
#[cycle(push_value)]
pub fn push_value<'a>(list: &mut Vec<Writing<'a>>, value: &'a Expr<Parsed>) -> Result<(), Memory>
    ensures { OnOk result
        (writings_said list.new.items
        ≡ writings_said list.old.items ++ value_writings (expression_said value.now)) }
{
    match value {
        Expr::Number(_, _) => Ok(()),
        Expr::Negative(_, _) => Ok(()),
        Expr::Text(_, _) => Ok(()),
        Expr::Bool(_, _) => Ok(()),
        Expr::Nil(_) => Ok(()),
        Expr::Path(_, _, _) => Ok(()),
        Expr::Arrow(_, _, _) => Ok(()),
        Expr::Call(_, _, values, _) => push_values(list, values),
        Expr::NamedCall(_, _, arguments, _) => push_named_values(list, arguments),
        Expr::Parenthesized(_, inner) => push_value(list, inner),
        Expr::Dereference(_, inner) => push_value(list, inner),
        Expr::Borrow(_, _, _) => Ok(()),
        Expr::BorrowPart(_, _, _) => Ok(()),
        Expr::Binary(_, _, left, right) => {
            push_value(list, left)?;
            push_value(list, right)
        }
        Expr::Not(_, inner) => push_value(list, inner),
        Expr::Typed(_, inner, of) => {
            push_value(list, inner)?;
            push_type(list, of)
        }
        Expr::If(_, test, then, otherwise) => {
            push_value(list, test)?;
            push_value(list, then)?;
            push_value(list, otherwise)
        }
    }
}

/// Puts the types that are written in the arguments of a call.
#[cycle(push_value)]
fn push_values<'a>(list: &mut Vec<Writing<'a>>, values: &'a Vec<Expr<Parsed>>) -> Result<(), Memory>
    ensures { OnOk result
        (writings_said list.new.items
        ≡ writings_said list.old.items ++ values_writings (expressions_said values.now.items)) }
{
    for one in values {
        push_value(list, one)?;
    }
    Ok(())
}

/// Puts the types that are written in the named arguments of a call.
#[cycle(push_value)]
fn push_named_values<'a>(
    list: &mut Vec<Writing<'a>>,
    arguments: &'a Vec<Argument<Parsed>>,
) -> Result<(), Memory>
    ensures { OnOk result
        (writings_said list.new.items
        ≡ writings_said list.old.items ++ named_values_writings (arguments_said arguments.now.items)) }
{
    for one in arguments {
        push_named_value(list, one)?;
    }
    Ok(())
}

/// Puts the types that are written in a named argument.
#[cycle(push_value)]
fn push_named_value<'a>(
    list: &mut Vec<Writing<'a>>,
    argument: &'a Argument<Parsed>,
) -> Result<(), Memory>
    ensures { OnOk result
        (writings_said list.new.items
        ≡ writings_said list.old.items ++ value_writings (expression_said argument.now.value)) }
{
    push_value(list, &argument.value)
}
