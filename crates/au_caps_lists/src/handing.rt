//! What stands in the noted types of the arguments of calls.

ghost use Rattle.std.specs.Prelude.{◌≡◌, ◌++◌, OnOk};
ghost use Rattle.au_caps_lists.specs.Holding as spec;
ghost use Rattle.au_caps_lists.specs.Views.{mentions_said};
ghost use Rattle.au_sights.specs.contracts.noted.NotedPhase.TheImpl.{ghosts as noted};
ghost use Rattle.au_syntax.specs.Views.{argument_all, arm_all, block, branch_all, expression};
ghost use Rattle.au_syntax.specs.Views.{expression_all, statement};

use crate::mentions::{Mention, push_type};
use au_base::Memory;
use au_noting_programs::type_of;
use au_sights::Noted;
use au_syntax::{Argument, Arm, Block, Branch, Expr, Stmt};

/// Puts what stands in the types of arguments.
fn push_types<'a>(made: &mut Vec<Mention<'a>>, all: &'a Vec<Expr<Noted>>) -> Result<(), Memory>
    ensures { OnOk result (mentions_said made.new.items
        ≡ mentions_said made.old.items ++ spec.types_mention (expression_all noted all.now.items)) }
{
    for one in all {
        push_type(made, type_of(one))?;
    }
    Ok(())
}

/// Puts what stands in the types of named arguments.
fn push_named_types<'a>(
    made: &mut Vec<Mention<'a>>,
    all: &'a Vec<Argument<Noted>>,
) -> Result<(), Memory>
    ensures { OnOk result (mentions_said made.new.items
        ≡ mentions_said made.old.items ++ spec.named_mention (argument_all noted all.now.items)) }
{
    for one in all {
        push_type(made, type_of(&one.value))?;
    }
    Ok(())
}

/// Puts what stands in the types of the arguments of the calls in an expression.
#[cycle(push_expression)]
fn push_expression<'a>(made: &mut Vec<Mention<'a>>, of: &'a Expr<Noted>) -> Result<(), Memory>
    ensures { OnOk result (mentions_said made.new.items
        ≡ mentions_said made.old.items ++ spec.handed_in (expression noted of.now)) }
{
    match of {
        Expr::Number(_, _) => Ok(()),
        Expr::Negative(_, _) => Ok(()),
        Expr::Text(_, _) => Ok(()),
        Expr::Bool(_, _) => Ok(()),
        Expr::Nil(_) => Ok(()),
        Expr::Path(_, _, _) => Ok(()),
        Expr::Arrow(_, _, _) => Ok(()),
        Expr::Call(_, _, arguments, _) => {
            push_types(made, arguments)?;
            push_expressions(made, arguments)
        }
        Expr::NamedCall(_, _, arguments, _) => {
            push_named_types(made, arguments)?;
            push_arguments(made, arguments)
        }
        Expr::Parenthesized(_, inner) => push_expression(made, inner),
        Expr::Dereference(_, inner) => push_expression(made, inner),
        Expr::Borrow(_, _, _) => Ok(()),
        Expr::BorrowPart(_, _, _) => Ok(()),
        Expr::Binary(_, _, left, right) => {
            push_expression(made, left)?;
            push_expression(made, right)
        }
        Expr::Not(_, inner) => push_expression(made, inner),
        Expr::Typed(_, inner, _) => push_expression(made, inner),
        Expr::If(_, test, then, otherwise) => {
            push_expression(made, test)?;
            push_expression(made, then)?;
            push_expression(made, otherwise)
        }
    }
}

/// The same of expressions in order.
#[cycle(push_expression)]
fn push_expressions<'a>(
    made: &mut Vec<Mention<'a>>,
    all: &'a Vec<Expr<Noted>>,
) -> Result<(), Memory>
    ensures { OnOk result (mentions_said made.new.items
        ≡ mentions_said made.old.items ++ spec.handed_in_all (expression_all noted all.now.items)) }
{
    for one in all {
        push_expression(made, one)?;
    }
    Ok(())
}

/// The same of a named argument.
#[cycle(push_expression)]
fn push_argument<'a>(made: &mut Vec<Mention<'a>>, one: &'a Argument<Noted>) -> Result<(), Memory>
    ensures { OnOk result (mentions_said made.new.items
        ≡ mentions_said made.old.items ++ spec.handed_in (expression noted one.now.value)) }
{
    push_expression(made, &one.value)
}

/// The same of named arguments in order.
#[cycle(push_expression)]
fn push_arguments<'a>(
    made: &mut Vec<Mention<'a>>,
    all: &'a Vec<Argument<Noted>>,
) -> Result<(), Memory>
    ensures { OnOk result (mentions_said made.new.items
        ≡ mentions_said made.old.items ++ spec.handed_in_arguments (argument_all noted all.now.items)) }
{
    for one in all {
        push_argument(made, one)?;
    }
    Ok(())
}

/// The same of a statement.
#[cycle(push_statement)]
fn push_statement<'a>(made: &mut Vec<Mention<'a>>, of: &'a Stmt<Noted>) -> Result<(), Memory>
    ensures { OnOk result (mentions_said made.new.items
        ≡ mentions_said made.old.items ++ spec.handed_by (statement noted of.now)) }
{
    match of {
        Stmt::Skip(_) => Ok(()),
        Stmt::Let(_, _, _, _, value) => push_expression(made, value),
        Stmt::Destructure(_, _, value) => push_expression(made, value),
        Stmt::Assign(_, _, _, value) => push_expression(made, value),
        Stmt::AssignThrough(_, _, _, value) => push_expression(made, value),
        Stmt::If(_, branches) => push_branches(made, branches),
        Stmt::IfElse(_, branches, last) => {
            push_branches(made, branches)?;
            push_block(made, last)
        }
        Stmt::Case(_, value, arms) => {
            push_expression(made, value)?;
            push_arms(made, arms)
        }
        Stmt::While(_, test, body) => {
            push_expression(made, test)?;
            push_block(made, body)
        }
        Stmt::For(_, _, from, to, body) => {
            push_expression(made, from)?;
            push_expression(made, to)?;
            push_block(made, body)
        }
        Stmt::Borrow(_, _, _, body, _) => push_block(made, body),
        Stmt::BorrowTyped(_, _, _, _, _, body, _) => push_block(made, body),
        Stmt::Call(_, call) => push_expression(made, call),
        Stmt::Return(_, value) => push_expression(made, value),
    }
}

/// The same of a block.
#[cycle(push_statement)]
pub(crate) fn push_block<'a>(
    made: &mut Vec<Mention<'a>>,
    of: &'a Block<Noted>,
) -> Result<(), Memory>
    ensures { OnOk result (mentions_said made.new.items
        ≡ mentions_said made.old.items ++ spec.handed_by_block (block noted of.now)) }
{
    for one in &of.statements {
        push_statement(made, one)?;
    }
    Ok(())
}

/// The same of a branch of a conditional.
#[cycle(push_statement)]
fn push_branch<'a>(made: &mut Vec<Mention<'a>>, of: &'a Branch<Noted>) -> Result<(), Memory>
    ensures { OnOk result (mentions_said made.new.items
        ≡ mentions_said made.old.items ++ (spec.handed_in (expression noted of.now.test.value)
        ++ spec.handed_by_block (block noted of.now.block))) }
{
    push_expression(made, &of.test)?;
    push_block(made, &of.block)
}

/// The same of the branches of a conditional.
#[cycle(push_statement)]
fn push_branches<'a>(made: &mut Vec<Mention<'a>>, all: &'a Vec<Branch<Noted>>) -> Result<(), Memory>
    ensures { OnOk result (mentions_said made.new.items
        ≡ mentions_said made.old.items ++ spec.handed_by_branches (branch_all noted all.now.items)) }
{
    for one in all {
        push_branch(made, one)?;
    }
    Ok(())
}

/// The same of an arm of a case.
#[cycle(push_statement)]
fn push_arm<'a>(made: &mut Vec<Mention<'a>>, of: &'a Arm<Noted>) -> Result<(), Memory>
    ensures { OnOk result (mentions_said made.new.items
        ≡ mentions_said made.old.items ++ spec.handed_by_block (block noted of.now.block)) }
{
    push_block(made, &of.block)
}

/// The same of the arms of a case.
#[cycle(push_statement)]
fn push_arms<'a>(made: &mut Vec<Mention<'a>>, all: &'a Vec<Arm<Noted>>) -> Result<(), Memory>
    ensures { OnOk result (mentions_said made.new.items
        ≡ mentions_said made.old.items ++ spec.handed_by_arms (arm_all noted all.now.items)) }
{
    for one in all {
        push_arm(made, one)?;
    }
    Ok(())
}
