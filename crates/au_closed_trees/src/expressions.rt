//! Expressions whose types are closed.

ghost use Rattle.std.specs.Prelude.{◌≡◌, IfOk, map};
ghost use Rattle.au_sights.specs.contracts.noted.NotedPhase.TheImpl.{ghosts as noted};
ghost use Rattle.au_syntax.specs.Views.{argument_all, expression, expression_all, node, placed};
ghost use Rattle.au_closed_trees.specs.contracts.phase.ClosedTreesPhase.TheImpl.{ghosts as closed};
ghost use Rattle.au_closed_trees.specs.Renoted.{arguments_renoted, called, expression_renoted};
ghost use Rattle.au_closed_trees.specs.Renoted.{expressions_renoted, mentioned, renoted};
ghost use Rattle.au_closed_trees.specs.TreeViews.{callee as callee_said};

use crate::changes::Closer;
use crate::names::{copy_name, copy_names};
use crate::notes::Callee;
use crate::phase::ClosedTrees;
use au_base::Memory;
use au_sights::{Noted, copy_text_of_type};
use au_syntax::{Argument, Expr, Ident, Site};
use std::alloc::Global;

/// The place of an expression with its closed note.
fn close_site<R: Closer>(
    alloc: Global,
    closer: &R,
    site: &Site<Noted>,
) -> Result<Site<ClosedTrees>, Memory>
    ensures { IfOk result (λ made. node closed made ≡ renoted (R.change closer.now) (node noted site.now)) }
{
    let note = closer.note(alloc, &site.note)?;
    Ok(Site { at: site.at, note })
}

/// The same of an expression that mentions a name.
fn close_mention<R: Closer>(
    alloc: Global,
    closer: &R,
    site: &Site<Noted>,
    name: &Ident<Noted>,
) -> Result<Site<ClosedTrees>, Memory>
    ensures { IfOk result (λ made.
        node closed made
        ≡ mentioned (R.change closer.now) (node noted site.now) (placed noted name.now)) }
{
    let note = closer.mention(alloc, &site.note, &name.name)?;
    Ok(Site { at: site.at, note })
}

/// What a call has besides its arguments.
fn close_callee<R: Closer>(
    alloc: Global,
    closer: &R,
    site: &Site<Noted>,
    name: &Ident<Noted>,
) -> Result<(Site<ClosedTrees>, Ident<ClosedTrees>, Callee), Memory>
    ensures site { IfOk result (λ made.
        node closed made.0 ≡ renoted (R.change closer.now) (node noted site.now)) }
    ensures name { IfOk result (λ made. placed closed made.1 ≡ placed noted name.now) }
    ensures callee { IfOk result (λ made.
        callee_said made.2
        ≡ called (R.change closer.now) (node noted site.now) (placed noted name.now) tt) }
{
    let callee = closer.callee(alloc, &site.note, &name.name)?;
    let site = close_site(alloc, closer, site)?;
    let name = copy_name(alloc, name)?;
    Ok((site, name, callee))
}

/// The closed tree of an expression: each note is closed, and the same is written at the same places.
///
/// # Errors
///
/// Only for want of memory.
#[cycle(close_expression)]
pub fn close_expression<R: Closer>(
    alloc: Global,
    closer: &R,
    of: &Expr<Noted>,
) -> Result<Expr<ClosedTrees>, Memory>
    ensures { IfOk result (λ made.
        expression closed made ≡ expression_renoted (R.change closer.now) (expression noted of.now)) }
{
    match of {
        Expr::Number(site, literal) => {
            Ok(Expr::Number(close_site(alloc, closer, site)?, *literal))
        }
        Expr::Negative(site, literal) => {
            Ok(Expr::Negative(close_site(alloc, closer, site)?, *literal))
        }
        Expr::Text(site, text) => {
            let site = close_site(alloc, closer, site)?;
            Ok(Expr::Text(site, text.copy(alloc)?))
        }
        Expr::Bool(site, truth) => Ok(Expr::Bool(close_site(alloc, closer, site)?, *truth)),
        Expr::Nil(site) => Ok(Expr::Nil(close_site(alloc, closer, site)?)),
        Expr::Path(site, name, fields) => {
            let site = close_mention(alloc, closer, site, name)?;
            let name = copy_name(alloc, name)?;
            Ok(Expr::Path(site, name, copy_names(alloc, fields)?))
        }
        Expr::Arrow(site, name, fields) => {
            let site = close_site(alloc, closer, site)?;
            let name = copy_name(alloc, name)?;
            Ok(Expr::Arrow(site, name, copy_names(alloc, fields)?))
        }
        Expr::Call(site, name, arguments, _) => {
            let arguments = close_expressions(alloc, closer, arguments)?;
            let (site, name, callee) = close_callee(alloc, closer, site, name)?;
            Ok(Expr::Call(site, name, arguments, callee))
        }
        Expr::NamedCall(site, name, arguments, _) => {
            let arguments = close_arguments(alloc, closer, arguments)?;
            let (site, name, callee) = close_callee(alloc, closer, site, name)?;
            Ok(Expr::NamedCall(site, name, arguments, callee))
        }
        Expr::Parenthesized(site, inner) => {
            let (site, inner) = close_operand(alloc, closer, site, inner)?;
            Ok(Expr::Parenthesized(site, inner))
        }
        Expr::Dereference(site, inner) => {
            let (site, inner) = close_operand(alloc, closer, site, inner)?;
            Ok(Expr::Dereference(site, inner))
        }
        Expr::Borrow(site, mode, name) => {
            let site = close_site(alloc, closer, site)?;
            Ok(Expr::Borrow(site, *mode, copy_name(alloc, name)?))
        }
        Expr::BorrowPart(site, name, fields) => {
            let site = close_site(alloc, closer, site)?;
            let name = copy_name(alloc, name)?;
            Ok(Expr::BorrowPart(site, name, copy_names(alloc, fields)?))
        }
        Expr::Binary(site, operator, left, right) => {
            let (site, left) = close_operand(alloc, closer, site, left)?;
            Ok(Expr::Binary(site, *operator, left, close_boxed(alloc, closer, right)?))
        }
        Expr::Not(site, inner) => {
            let (site, inner) = close_operand(alloc, closer, site, inner)?;
            Ok(Expr::Not(site, inner))
        }
        Expr::Typed(site, inner, text) => {
            let (site, inner) = close_operand(alloc, closer, site, inner)?;
            Ok(Expr::Typed(site, inner, copy_text_of_type(alloc, text)?))
        }
        Expr::If(site, test, then, otherwise) => {
            let (site, test) = close_operand(alloc, closer, site, test)?;
            let then = close_boxed(alloc, closer, then)?;
            Ok(Expr::If(site, test, then, close_boxed(alloc, closer, otherwise)?))
        }
    }
}

/// An expression in a box.
#[cycle(close_expression)]
pub(crate) fn close_boxed<R: Closer>(
    alloc: Global,
    closer: &R,
    of: &Expr<Noted>,
) -> Result<Box<Expr<ClosedTrees>>, Memory>
    ensures { IfOk result (λ made.
        expression closed made.value
        ≡ expression_renoted (R.change closer.now) (expression noted of.now)) }
{
    let made = close_expression(alloc, closer, of)?;
    Ok(Box::new(alloc, made)?)
}

/// A place and an operand.
#[cycle(close_expression)]
fn close_operand<R: Closer>(
    alloc: Global,
    closer: &R,
    site: &Site<Noted>,
    of: &Expr<Noted>,
) -> Result<(Site<ClosedTrees>, Box<Expr<ClosedTrees>>), Memory>
    ensures site { IfOk result (λ made.
        node closed made.0 ≡ renoted (R.change closer.now) (node noted site.now)) }
    ensures operand { IfOk result (λ made.
        expression closed made.1.value
        ≡ expression_renoted (R.change closer.now) (expression noted of.now)) }
{
    let site = close_site(alloc, closer, site)?;
    let operand = close_boxed(alloc, closer, of)?;
    Ok((site, operand))
}

/// A named argument.
#[cycle(close_expression)]
fn close_argument<R: Closer>(
    alloc: Global,
    closer: &R,
    argument: &Argument<Noted>,
) -> Result<Argument<ClosedTrees>, Memory>
    ensures label { IfOk result (λ made. placed closed made.label ≡ placed noted argument.now.label) }
    ensures value { IfOk result (λ made.
        expression closed made.value
        ≡ expression_renoted (R.change closer.now) (expression noted argument.now.value)) }
{
    let label = copy_name(alloc, &argument.label)?;
    let value = close_expression(alloc, closer, &argument.value)?;
    Ok(Argument { label, value })
}

/// Expressions in order.
#[cycle(close_expression)]
fn close_expressions<R: Closer>(
    alloc: Global,
    closer: &R,
    expressions: &Vec<Expr<Noted>>,
) -> Result<Vec<Expr<ClosedTrees>>, Memory>
    ensures { IfOk result (λ made.
        expression_all closed made.items
        ≡ expressions_renoted (R.change closer.now) (expression_all noted expressions.now.items)) }
{
    let mut made = Vec::new(alloc);
    for one in expressions {
        let new = close_expression(alloc, closer, one)?;
        made.push(new)?;
    }
    Ok(made)
}

/// Named arguments in order.
#[cycle(close_expression)]
fn close_arguments<R: Closer>(
    alloc: Global,
    closer: &R,
    arguments: &Vec<Argument<Noted>>,
) -> Result<Vec<Argument<ClosedTrees>>, Memory>
    ensures { IfOk result (λ made.
        argument_all closed made.items
        ≡ arguments_renoted (R.change closer.now) (argument_all noted arguments.now.items)) }
{
    let mut made = Vec::new(alloc);
    for one in arguments {
        let new = close_argument(alloc, closer, one)?;
        made.push(new)?;
    }
    Ok(made)
}
