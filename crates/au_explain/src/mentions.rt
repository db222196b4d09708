//! The mentions of a variable in an expression.

ghost use Rattle.std.specs.Prelude.{◌≡◌, ◌++◌, OnOk};
ghost use Rattle.au_explain.specs.Mentions as spec;
ghost use Rattle.au_explain.specs.Said.{arguments_said, expression_said, expressions_said};
ghost use Rattle.au_lives.specs.Mentions as lives;

use crate::marks::{add_mention, mode_kind, path_kind};
use crate::{Mention, MentionKind};
use au_base::{Memory, Name};
use au_syntax::{Argument, Expr, Parsed};

/// Whether an expression is a variable or a constant alone, or that in parentheses.
fn is_variable(e: &Expr<Parsed>) -> bool
    ensures { result ≡ lives.is_variable (expression_said e.now) }
{
    au_lives::is_variable(e)
}

/// Adds the mentions in an expression, by whether variables alone are only looked at.
#[tactic(auto, using(au_syntax::proofs::ExpressionLemmas::expression_steps, std::proofs::lemmas::Grind::common_steps))]
#[cycle(mentions)]
pub(crate) fn add_expression(
    x: &Name,
    looks: bool,
    e: &Expr<Parsed>,
    made: &mut Vec<Mention>,
) -> Result<(), Memory>
    ensures { OnOk result (made.new.items
        ≡ made.old.items ++ spec.mentions_in x.now looks (expression_said e.now)) }
{
    match e {
        Expr::Path(_, name, fields) => {
            add_mention(x, name, path_kind(looks, fields), None, made)
        }
        Expr::Arrow(_, name, _) => add_mention(x, name, MentionKind::Looked, None, made),
        Expr::Borrow(_, mode, name) => add_mention(x, name, mode_kind(*mode), None, made),
        Expr::BorrowPart(_, name, _) => add_mention(x, name, MentionKind::Looked, None, made),
        Expr::Call(_, _, arguments, _) => add_all(x, looks, arguments, made),
        Expr::NamedCall(_, _, arguments, _) => add_arguments(x, looks, arguments, made),
        Expr::Parenthesized(_, inner) => add_expression(x, looks, inner, made),
        Expr::Dereference(_, inner) => add_expression(x, looks || is_variable(inner), inner, made),
        Expr::Not(_, inner) => add_expression(x, looks, inner, made),
        Expr::Typed(_, inner, _) => add_expression(x, looks, inner, made),
        Expr::Binary(_, _, first, second) => {
            add_expression(x, looks, first, made)?;
            add_expression(x, looks, second, made)
        }
        Expr::If(_, test, first, second) => {
            add_expression(x, looks, test, made)?;
            add_expression(x, looks, first, made)?;
            add_expression(x, looks, second, made)
        }
        Expr::Number(_, _) => Ok(()),
        Expr::Negative(_, _) => Ok(()),
        Expr::Text(_, _) => Ok(()),
        Expr::Bool(_, _) => Ok(()),
        Expr::Nil(_) => Ok(()),
    }
}

/// Adds the mentions in some expressions.
#[cycle(mentions)]
fn add_all(
    x: &Name,
    looks: bool,
    exprs: &Vec<Expr<Parsed>>,
    made: &mut Vec<Mention>,
) -> Result<(), Memory>
    ensures { OnOk result (made.new.items
        ≡ made.old.items ++ spec.mentions_in_all x.now looks (expressions_said exprs.now.items)) }
{
    for one in exprs {
        add_expression(x, looks, one, made)?;
    }
    Ok(())
}

/// Adds the mentions in some named arguments.
#[cycle(mentions)]
fn add_arguments(
    x: &Name,
    looks: bool,
    arguments: &Vec<Argument<Parsed>>,
    made: &mut Vec<Mention>,
) -> Result<(), Memory>
    ensures { OnOk result (made.new.items
        ≡ made.old.items ++ spec.mentions_in_arguments x.now looks (arguments_said arguments.now.items)) }
{
    for one in arguments {
        add_argument(x, looks, one, made)?;
    }
    Ok(())
}

/// Adds the mentions in a named argument.
#[cycle(mentions)]
fn add_argument(
    x: &Name,
    looks: bool,
    argument: &Argument<Parsed>,
    made: &mut Vec<Mention>,
) -> Result<(), Memory>
    ensures { OnOk result (made.new.items
        ≡ made.old.items ++ spec.mentions_in x.now looks (expression_said argument.now.value)) }
{
    add_expression(x, looks, &argument.value, made)
}
