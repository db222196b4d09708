//! Expressions of the old phase as those of the new one.

ghost use Rattle.std.specs.Prelude.{◌≡◌, ℕ, List, IfOk};
ghost use Rattle.au_syntax.specs.Expressions.{Node, Expression, call, named_call, typed};
ghost use Rattle.au_syntax.specs.Views.{written, placed, node, expression, expression_all, argument_all};
ghost use Rattle.au_mapping.specs.Seen.{before, after};

use crate::parts::{Part, walked_three, walked_two};
use crate::walks::Walk;
use au_base::{Memory, Text};
use au_syntax::{Argument, Expr, Ident, Phase, Site, TypeText};
use std::alloc::Global;

impl<P: Phase, Q: Phase, W: Walk<P, Q>> Part<Q, W> for Site<P> {
    type New = Site<Q>;

    ghost Kept = { Node W.KeptType };

    ghost old = { node (before W.Walk) };

    ghost new = { node (after W.Walk) };

    fn walked(&self, alloc: Global, walk: &mut W) -> Result<Site<Q>, Memory> {
        let note = walk.type_note(alloc, &self.note)?;
        Ok(Site { at: self.at, note })
    }
}

impl<Q: Phase, W> Part<Q, W> for Text {
    type New = Text;

    ghost Kept = { List ℕ };

    ghost old = { λ text. text };

    ghost new = { λ text. text };

    fn walked(&self, alloc: Global, _walk: &mut W) -> Result<Text, Memory> {
        self.copy(alloc)
    }
}

impl<P: Phase, Q: Phase, W: Walk<P, Q>> Part<Q, W> for Box<Expr<P>> {
    type New = Box<Expr<Q>>;

    ghost Kept = { Expression W.KeptName W.KeptType W.KeptCall };

    ghost old = { λ boxed. expression (before W.Walk) boxed.value };

    ghost new = { λ boxed. expression (after W.Walk) boxed.value };

    fn walked(&self, alloc: Global, walk: &mut W) -> Result<Box<Expr<Q>>, Memory> {
        walked_boxed(alloc, self, walk)
    }
}

/// What a call has besides its arguments.
fn walked_callee<P: Phase, Q: Phase, W: Walk<P, Q>>(
    alloc: Global,
    site: &Site<P>,
    name: &Ident<P>,
    note: &P::CallNote,
    walk: &mut W,
) -> Result<(Site<Q>, Ident<Q>, Q::CallNote), Memory>
    ensures site { IfOk result (λ new. node (after W.Walk) new.0 ≡ node (before W.Walk) site.now) }
    ensures name { IfOk result (λ new. placed (after W.Walk) new.1 ≡ placed (before W.Walk) name.now) }
    ensures note { IfOk result (λ new. W.new_call new.2 ≡ W.old_call note.now) }
{
    let (site, name) = walked_two(alloc, site, name, walk)?;
    let note = walk.call_note(alloc, note)?;
    Ok((site, name, note))
}

/// The expression in the new phase.
///
/// # Errors
///
/// Only for want of memory.
#[cycle(walked_expression)]
pub fn walked_expression<P: Phase, Q: Phase, W: Walk<P, Q>>(
    alloc: Global,
    of: &Expr<P>,
    walk: &mut W,
) -> Result<Expr<Q>, Memory>
    ensures { IfOk result (λ new.
        expression (after W.Walk) new ≡ expression (before W.Walk) of.now) }
{
    match of {
        Expr::Number(site, literal) => Ok(Expr::Number(site.walked(alloc, walk)?, *literal)),
        Expr::Negative(site, literal) => Ok(Expr::Negative(site.walked(alloc, walk)?, *literal)),
        Expr::Text(site, text) => {
            let (site, text) = walked_two(alloc, site, text, walk)?;
            Ok(Expr::Text(site, text))
        }
        Expr::Bool(site, truth) => Ok(Expr::Bool(site.walked(alloc, walk)?, *truth)),
        Expr::Nil(site) => Ok(Expr::Nil(site.walked(alloc, walk)?)),
        Expr::Path(site, name, fields) => {
            let (site, name, fields) = walked_three(alloc, site, name, fields, walk)?;
            Ok(Expr::Path(site, name, fields))
        }
        Expr::Arrow(site, name, fields) => {
            let (site, name, fields) = walked_three(alloc, site, name, fields, walk)?;
            Ok(Expr::Arrow(site, name, fields))
        }
        Expr::Call(site, name, arguments, note) => {
            walked_call(alloc, arguments, site, name, note, walk)
        }
        Expr::NamedCall(site, name, arguments, note) => {
            walked_named_call(alloc, arguments, site, name, note, walk)
        }
        Expr::Parenthesized(site, inner) => {
            let (site, inner) = walked_operand(alloc, inner, site, walk)?;
            Ok(Expr::Parenthesized(site, inner))
        }
        Expr::Dereference(site, inner) => {
            let (site, inner) = walked_operand(alloc, inner, site, walk)?;
            Ok(Expr::Dereference(site, inner))
        }
        Expr::Borrow(site, mode, name) => {
            let (site, name) = walked_two(alloc, site, name, walk)?;
            Ok(Expr::Borrow(site, *mode, name))
        }
        Expr::BorrowPart(site, name, fields) => {
            let (site, name, fields) = walked_three(alloc, site, name, fields, walk)?;
            Ok(Expr::BorrowPart(site, name, fields))
        }
        Expr::Binary(site, operator, left, right) => {
            let (site, left) = walked_operand(alloc, left, site, walk)?;
            Ok(Expr::Binary(site, *operator, left, walked_boxed(alloc, right, walk)?))
        }
        Expr::Not(site, inner) => {
            let (site, inner) = walked_operand(alloc, inner, site, walk)?;
            Ok(Expr::Not(site, inner))
        }
        Expr::Typed(site, inner, text) => walked_typed(alloc, inner, site, text, walk),
        Expr::If(site, test, then, otherwise) => {
            let (site, test) = walked_operand(alloc, test, site, walk)?;
            let then = walked_boxed(alloc, then, walk)?;
            Ok(Expr::If(site, test, then, walked_boxed(alloc, otherwise, walk)?))
        }
    }
}

/// The expression in the new phase, in a box.
#[cycle(walked_expression)]
pub(crate) fn walked_boxed<P: Phase, Q: Phase, W: Walk<P, Q>>(
    alloc: Global,
    of: &Expr<P>,
    walk: &mut W,
) -> Result<Box<Expr<Q>>, Memory>
    ensures { IfOk result (λ new.
        expression (after W.Walk) new.value ≡ expression (before W.Walk) of.now) }
{
    let new = walked_expression(alloc, of, walk)?;
    Ok(Box::new(alloc, new)?)
}

/// A site and an operand.
#[cycle(walked_expression)]
fn walked_operand<P: Phase, Q: Phase, W: Walk<P, Q>>(
    alloc: Global,
    of: &Expr<P>,
    site: &Site<P>,
    walk: &mut W,
) -> Result<(Site<Q>, Box<Expr<Q>>), Memory>
    ensures site { IfOk result (λ new. node (after W.Walk) new.0 ≡ node (before W.Walk) site.now) }
    ensures operand { IfOk result (λ new.
        expression (after W.Walk) new.1.value ≡ expression (before W.Walk) of.now) }
{
    let site = site.walked(alloc, walk)?;
    let operand = walked_boxed(alloc, of, walk)?;
    Ok((site, operand))
}

/// An expression with its type in the new phase.
#[cycle(walked_expression)]
fn walked_typed<P: Phase, Q: Phase, W: Walk<P, Q>>(
    alloc: Global,
    of: &Expr<P>,
    site: &Site<P>,
    text: &TypeText,
    walk: &mut W,
) -> Result<Expr<Q>, Memory>
    ensures { IfOk result (λ new.
        expression (after W.Walk) new
        ≡ typed (node (before W.Walk) site.now) (expression (before W.Walk) of.now)
        (written text.now)) }
{
    let (site, text) = walked_two(alloc, site, text, walk)?;
    let operand = walked_boxed(alloc, of, walk)?;
    Ok(Expr::Typed(site, operand, text))
}

/// A call in the new phase.
#[cycle(walked_expression)]
fn walked_call<P: Phase, Q: Phase, W: Walk<P, Q>>(
    alloc: Global,
    arguments: &Vec<Expr<P>>,
    site: &Site<P>,
    name: &Ident<P>,
    note: &P::CallNote,
    walk: &mut W,
) -> Result<Expr<Q>, Memory>
    ensures { IfOk result (λ new.
        expression (after W.Walk) new
        ≡ call (node (before W.Walk) site.now) (placed (before W.Walk) name.now)
        (expression_all (before W.Walk) arguments.now.items) (W.old_call note.now)) }
{
    let (site, name, note) = walked_callee(alloc, site, name, note, walk)?;
    let arguments = walked_expressions(alloc, arguments, walk)?;
    Ok(Expr::Call(site, name, arguments, note))
}

/// A call with named arguments in the new phase.
#[cycle(walked_expression)]
fn walked_named_call<P: Phase, Q: Phase, W: Walk<P, Q>>(
    alloc: Global,
    arguments: &Vec<Argument<P>>,
    site: &Site<P>,
    name: &Ident<P>,
    note: &P::CallNote,
    walk: &mut W,
) -> Result<Expr<Q>, Memory>
    ensures { IfOk result (λ new.
        expression (after W.Walk) new
        ≡ named_call (node (before W.Walk) site.now) (placed (before W.Walk) name.now)
        (argument_all (before W.Walk) arguments.now.items) (W.old_call note.now)) }
{
    let (site, name, note) = walked_callee(alloc, site, name, note, walk)?;
    let arguments = walked_arguments(alloc, arguments, walk)?;
    Ok(Expr::NamedCall(site, name, arguments, note))
}

/// An argument in the new phase.
#[cycle(walked_expression)]
fn walked_argument<P: Phase, Q: Phase, W: Walk<P, Q>>(
    alloc: Global,
    of: &Argument<P>,
    walk: &mut W,
) -> Result<Argument<Q>, Memory>
    ensures label { IfOk result (λ new.
        placed (after W.Walk) new.label ≡ placed (before W.Walk) of.now.label) }
    ensures value { IfOk result (λ new.
        expression (after W.Walk) new.value ≡ expression (before W.Walk) of.now.value) }
{
    let label = of.label.walked(alloc, walk)?;
    let value = walked_expression(alloc, &of.value, walk)?;
    Ok(Argument { label, value })
}

#[cycle(walked_expression)]
fn walked_expressions<P: Phase, Q: Phase, W: Walk<P, Q>>(
    alloc: Global,
    expressions: &Vec<Expr<P>>,
    walk: &mut W,
) -> Result<Vec<Expr<Q>>, Memory>
    ensures { IfOk result (λ made.
        expression_all (after W.Walk) made.items
        ≡ expression_all (before W.Walk) expressions.now.items) }
{
    let mut made = Vec::new(alloc);
    for one in expressions {
        let new = walked_expression(alloc, one, walk)?;
        made.push(new)?;
    }
    Ok(made)
}

#[cycle(walked_expression)]
fn walked_arguments<P: Phase, Q: Phase, W: Walk<P, Q>>(
    alloc: Global,
    arguments: &Vec<Argument<P>>,
    walk: &mut W,
) -> Result<Vec<Argument<Q>>, Memory>
    ensures { IfOk result (λ made.
        argument_all (after W.Walk) made.items
        ≡ argument_all (before W.Walk) arguments.now.items) }
{
    let mut made = Vec::new(alloc);
    for one in arguments {
        let new = walked_argument(alloc, one, walk)?;
        made.push(new)?;
    }
    Ok(made)
}
