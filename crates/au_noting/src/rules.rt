//! The tests of the rules on single expressions, and the notes that they let through.

ghost use Rattle.std.specs.Prelude.{◌≡◌, IfOk, Some};
ghost use Rattle.std.specs.Option.{option_map};
ghost use Rattle.au_sights.specs.Views.{note};
ghost use Rattle.au_noting.specs.Giving.{Gives};
ghost use Rattle.au_noting.specs.Modes.{wanted};
ghost use Rattle.au_noting.specs.Said.{meanings};
ghost use Rattle.au_syntax.specs.Views.{expression};
ghost use Rattle.au_type_texts.specs.Sizes.{depth_limit, nodes_limit};
ghost use Rattle.au_types.specs.Views.{meaning};
ghost use Rattle.au_typing.specs.Bare as bare;
ghost use Rattle.au_typing.specs.Limits as limits;
ghost use Rattle.au_typing.specs.Rules as spec;

use crate::faults::{Fault, different};
use au_base::{IntKind, Limit, Memory};
use au_matching::Substitution;
use au_sights::Notes;
use au_syntax::{BinaryOperator, Expr, Phase};
use au_type_texts::{depth_passed, nodes_passed};
use au_types::{Ty, copy_type, is_same};
use std::alloc::Global;

/// The kind of an integer literal: the wanted one, and else `Int32`.
pub fn literal_kind(mode: Option<&Ty>) -> IntKind
    ensures { result ≡ spec.literal_kind (wanted mode.entry) }
{
    match mode {
        Some(of) => kind_or(of),
        None => IntKind::Int32,
    }
}

/// The kind that a type is, and else `Int32`.
#[tactic(auto, using(au_types::proofs::TypeLemmas::type_steps))]
fn kind_or(of: &Ty) -> IntKind
    ensures { result ≡ spec.literal_kind (Some (meaning of.now)) }
{
    match of {
        Ty::Int(kind) => *kind,
        Ty::Unit => IntKind::Int32,
        Ty::Bool => IntKind::Int32,
        Ty::Text => IntKind::Int32,
        Ty::Param(_) => IntKind::Int32,
        Ty::Named { .. } => IntKind::Int32,
        Ty::Read { .. } => IntKind::Int32,
        Ty::Write { .. } => IntKind::Int32,
    }
}

/// Whether a type is an integer kind.
#[tactic(auto, using(au_types::proofs::TypeLemmas::type_steps))]
pub fn is_integer(of: &Ty) -> bool
    ensures { result ≡ spec.is_integer (meaning of.now) }
{
    match of {
        Ty::Int(_) => true,
        Ty::Unit => false,
        Ty::Bool => false,
        Ty::Text => false,
        Ty::Param(_) => false,
        Ty::Named { .. } => false,
        Ty::Read { .. } => false,
        Ty::Write { .. } => false,
    }
}

/// Whether a type is one whose values `=` and `/=` compare.
#[tactic(auto, using(au_types::proofs::TypeLemmas::type_steps))]
fn is_integer_or_truth(of: &Ty) -> bool
    ensures { result ≡ spec.is_integer_or_truth (meaning of.now) }
{
    match of {
        Ty::Int(_) => true,
        Ty::Unit => false,
        Ty::Bool => true,
        Ty::Text => false,
        Ty::Param(_) => false,
        Ty::Named { .. } => false,
        Ty::Read { .. } => false,
        Ty::Write { .. } => false,
    }
}

/// Whether an operator is one on two Bools.
pub fn is_logical(op: BinaryOperator) -> bool
    ensures { result ≡ spec.is_logical op }
{
    match op {
        BinaryOperator::Add => false,
        BinaryOperator::Subtract => false,
        BinaryOperator::Multiply => false,
        BinaryOperator::Divide => false,
        BinaryOperator::Equal => false,
        BinaryOperator::NotEqual => false,
        BinaryOperator::Less => false,
        BinaryOperator::LessEqual => false,
        BinaryOperator::Greater => false,
        BinaryOperator::GreaterEqual => false,
        BinaryOperator::And => true,
        BinaryOperator::Or => true,
    }
}

/// Whether a comparison is defined on a type.
pub fn is_compared(op: BinaryOperator, of: &Ty) -> bool
    ensures { result ≡ spec.is_compared op (meaning of.now) }
{
    match op {
        BinaryOperator::Add => is_integer(of),
        BinaryOperator::Subtract => is_integer(of),
        BinaryOperator::Multiply => is_integer(of),
        BinaryOperator::Divide => is_integer(of),
        BinaryOperator::Equal => is_integer_or_truth(of),
        BinaryOperator::NotEqual => is_integer_or_truth(of),
        BinaryOperator::Less => is_integer(of),
        BinaryOperator::LessEqual => is_integer(of),
        BinaryOperator::Greater => is_integer(of),
        BinaryOperator::GreaterEqual => is_integer(of),
        BinaryOperator::And => is_integer(of),
        BinaryOperator::Or => is_integer(of),
    }
}

/// Whether an operator is `+`, `-`, `*` or `/`.
pub fn is_arithmetic(op: BinaryOperator) -> bool
    ensures { result ≡ bare.is_arithmetic op }
{
    match op {
        BinaryOperator::Add => true,
        BinaryOperator::Subtract => true,
        BinaryOperator::Multiply => true,
        BinaryOperator::Divide => true,
        BinaryOperator::Equal => false,
        BinaryOperator::NotEqual => false,
        BinaryOperator::Less => false,
        BinaryOperator::LessEqual => false,
        BinaryOperator::Greater => false,
        BinaryOperator::GreaterEqual => false,
        BinaryOperator::And => false,
        BinaryOperator::Or => false,
    }
}

/// Whether an expression is bare: an integer literal, a bare one in parentheses, or `+ - * /` of two bare
/// ones.
#[tactic(auto, using(au_syntax::proofs::ExpressionLemmas::expression_steps))]
#[cycle(is_bare)]
pub fn is_bare<P: Phase>(expr: &Expr<P>) -> bool
    ensures { result ≡ bare.is_bare (expression P.Phase expr.now) }
{
    match expr {
        Expr::Number(_, _) => true,
        Expr::Negative(_, _) => true,
        Expr::Parenthesized(_, inner) => is_bare(inner),
        Expr::Binary(_, op, first, second) => is_arithmetic(*op)
            && is_bare(first)
            && is_bare(second),
        Expr::Text(_, _) => false,
        Expr::Bool(_, _) => false,
        Expr::Nil(_) => false,
        Expr::Path(_, _, _) => false,
        Expr::Arrow(_, _, _) => false,
        Expr::Call(_, _, _, _) => false,
        Expr::NamedCall(_, _, _, _) => false,
        Expr::Dereference(_, _) => false,
        Expr::Borrow(_, _, _) => false,
        Expr::BorrowPart(_, _, _) => false,
        Expr::Not(_, _) => false,
        Expr::Typed(_, _, _) => false,
        Expr::If(_, _, _, _) => false,
    }
}

/// The depth limit that the first too deep type passes, if one is too deep.
fn depths_passed(types: &[Ty]) -> Option<Limit>
    ensures { result ≡ limits.first_limit depth_limit (meanings types.now) }
{
    for one in types {
        if let Some(limit) = depth_passed(one) {
            return Some(limit);
        }
    }
    None
}

/// The limit on nodes that the first too large type passes, if one is too large.
fn sizes_passed(types: &[Ty]) -> Option<Limit>
    ensures { result ≡ limits.first_limit nodes_limit (meanings types.now) }
{
    for one in types {
        if let Some(limit) = nodes_passed(one) {
            return Some(limit);
        }
    }
    None
}

/// The limit on depth that one of the types of a note passes, if one does.
fn depth_among(mode: Option<&Ty>, of: &Ty, values: &[Ty]) -> Option<Limit>
    ensures { result ≡ limits.first_limit depth_limit
        (limits.types_noted (wanted mode.entry) (meaning of.now) (meanings values.now)) }
{
    if let Some(goal) = mode {
        if let Some(limit) = depth_passed(goal) {
            return Some(limit);
        }
    }
    match depth_passed(of) {
        Some(limit) => Some(limit),
        None => depths_passed(values),
    }
}

/// The limit on nodes that one of the types of a note passes, if one does.
fn size_among(mode: Option<&Ty>, of: &Ty, values: &[Ty]) -> Option<Limit>
    ensures { result ≡ limits.first_limit nodes_limit
        (limits.types_noted (wanted mode.entry) (meaning of.now) (meanings values.now)) }
{
    if let Some(goal) = mode {
        if let Some(limit) = nodes_passed(goal) {
            return Some(limit);
        }
    }
    match nodes_passed(of) {
        Some(limit) => Some(limit),
        None => sizes_passed(values),
    }
}

/// The limit that the types of a note pass, if they pass one: the wanted type, the type, and the values of
/// type parameters. The depth of each counts before the nodes of any.
pub fn limit_among(mode: Option<&Ty>, of: &Ty, values: &[Ty]) -> Option<Limit>
    ensures { result ≡ limits.limit_among
        (limits.types_noted (wanted mode.entry) (meaning of.now) (meanings values.now)) }
{
    match depth_among(mode, of, values) {
        Some(limit) => Some(limit),
        None => size_among(mode, of, values),
    }
}

/// A note of these types, and of what a call gives its type parameters.
pub(crate) fn full_note(
    alloc: Global,
    mode: Option<&Ty>,
    of: &Ty,
    call: Option<Substitution>,
) -> Result<Notes, Memory>
    ensures { IfOk result (λ made. note made
        ≡ record { mode = wanted mode.entry; of = meaning of.now; call = call }) }
{
    let mode = copy_mode(alloc, mode)?;
    let of = copy_type(alloc, of)?;
    Ok(Notes { mode, of, call })
}

/// A wanted type that means the same, if there is one.
fn copy_mode(alloc: Global, mode: Option<&Ty>) -> Result<Option<Ty>, Memory>
    ensures { IfOk result (λ copy. option_map meaning copy ≡ wanted mode.entry) }
{
    match mode {
        Some(of) => Ok(Some(copy_type(alloc, of)?)),
        None => Ok(None),
    }
}

/// The note of a type, where it is the wanted one.
///
/// # Errors
///
/// That another type is wanted.
pub fn wanted_note(alloc: Global, mode: Option<&Ty>, of: &Ty) -> Result<Notes, Fault>
    ensures { Gives note result (spec.wanted_note (wanted mode.entry) (meaning of.now)) }
{
    if let Some(goal) = mode {
        if !is_same(goal, of) {
            return Err(different(alloc, goal, of));
        }
    }
    Ok(full_note(alloc, mode, of, None)?)
}

/// The note of a type, where it passes no limit and is the wanted one.
///
/// # Errors
///
/// The limit that is passed, or that another type is wanted.
pub fn noted(alloc: Global, mode: Option<&Ty>, of: &Ty) -> Result<Notes, Fault>
    ensures { Gives note result (spec.noted (wanted mode.entry) (meaning of.now)) }
{
    match limit_among(mode, of, &[]) {
        Some(limit) => Err(Fault::Limit(limit)),
        None => wanted_note(alloc, mode, of),
    }
}
