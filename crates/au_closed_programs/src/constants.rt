//! The values of constants.

ghost use Rattle.std.specs.Prelude.{◌≡◌, neg_ℤ, IfOk};
ghost use Rattle.au_closing.specs.Bodies as spec;
ghost use Rattle.au_closed_programs.specs.Defined.{AllDefined};
ghost use Rattle.au_modules.specs.Slots as slots;
ghost use Rattle.au_sights.specs.contracts.noted.NotedPhase.TheImpl.{ghosts as noted};
ghost use Rattle.au_noting_programs.specs.Said.{modules_said};
ghost use Rattle.au_syntax.specs.Views as trees;
ghost use Rattle.au_types.specs.Views.{meaning};

use crate::defining::defining;
use au_base::Memory;
use au_closed_trees::Literal;
use au_imports::Resolved;
use au_noting_programs::NotedModule;
use au_promises::definitions::Definitions;
use au_sights::Noted;
use au_syntax::{Decl, Expr};
use au_types::{DeclAt, Ty};
use std::alloc::Global;

/// An integer literal of a type, if that is a kind of integers.
#[tactic(auto, using(au_types::proofs::TypeLemmas::type_steps))]
fn integer_of(of: &Ty, value: i128) -> Option<Literal>
    ensures { result ≡ spec.integer_of (meaning of.now) value }
{
    match of {
        Ty::Unit => None,
        Ty::Bool => None,
        Ty::Int(kind) => Some(Literal::Int(*kind, value)),
        Ty::Text => None,
        Ty::Param(_) => None,
        Ty::Named { .. } => None,
        Ty::Read { .. } => None,
        Ty::Write { .. } => None,
    }
}

/// The same of the number with the other sign, and `Memory` where that is too great.
fn negative_of(of: &Ty, value: i128) -> Result<Option<Literal>, Memory>
    ensures { IfOk result (λ found. found ≡ spec.integer_of (meaning of.now) (neg_ℤ value)) }
{
    match value.checked_neg() {
        None => Err(Memory),
        Some(negative) => Ok(integer_of(of, negative)),
    }
}

/// The literal that an expression is, if it is one.
fn literal_of(alloc: Global, of: &Expr<Noted>) -> Result<Option<Literal>, Memory>
    ensures { IfOk result (λ found. found ≡ spec.literal_of (trees.expression noted of.now)) }
{
    match of {
        Expr::Number(site, number) => Ok(integer_of(&site.note.of, number.value)),
        Expr::Negative(site, number) => negative_of(&site.note.of, number.value),
        Expr::Text(_, text) => Ok(Some(Literal::Text(text.copy(alloc)?))),
        Expr::Bool(_, value) => Ok(Some(Literal::Bool(*value))),
        Expr::Nil(_) => Ok(Some(Literal::Unit)),
        Expr::Path(_, _, _) => Ok(None),
        Expr::Arrow(_, _, _) => Ok(None),
        Expr::Call(_, _, _, _) => Ok(None),
        Expr::NamedCall(_, _, _, _) => Ok(None),
        Expr::Parenthesized(_, _) => Ok(None),
        Expr::Dereference(_, _) => Ok(None),
        Expr::Borrow(_, _, _) => Ok(None),
        Expr::BorrowPart(_, _, _) => Ok(None),
        Expr::Binary(_, _, _, _) => Ok(None),
        Expr::Not(_, _) => Ok(None),
        Expr::Typed(_, _, _) => Ok(None),
        Expr::If(_, _, _, _) => Ok(None),
    }
}

/// The literal of the value of a declaration, if it is a constant.
fn value_in(alloc: Global, decl: &Decl<Noted>) -> Result<Option<Literal>, Memory>
    ensures { IfOk result (λ found. found ≡ spec.value_in (trees.declaration noted decl.now)) }
{
    match decl {
        Decl::Constant(_, _, _) => Ok(None),
        Decl::Opaque(_, _, _, _) => Ok(None),
        Decl::Record(_, _, _, _, _) => Ok(None),
        Decl::Union(_, _, _, _, _) => Ok(None),
        Decl::Function(_, _, _) => Ok(None),
        Decl::Class(_, _, _, _) => Ok(None),
        Decl::Instance(_, _, _, _) => Ok(None),
        Decl::ConstantBody(_, _, _, value) => literal_of(alloc, value),
        Decl::FunctionBody(_, _, _, _, _) => Ok(None),
        Decl::InstanceBody(_, _, _, _, _) => Ok(None),
    }
}

/// The literal of the constant of a declaration, if it is one. These are the definitions of the bodies of all
/// modules.
///
/// # Errors
///
/// Only for want of memory. It is also what is answered for a number that has no other sign.
pub fn value_of(
    alloc: Global,
    program: &Resolved,
    all: &Vec<Definitions>,
    modules: &[NotedModule],
    at: DeclAt,
) -> Result<Option<Literal>, Memory>
    requires { AllDefined (slots.modules program.now) all.now.items }
    ensures { IfOk result (λ found.
        found ≡ spec.value_of (slots.modules program.now) (modules_said modules.now) at) }
{
    let Some(found) = program.declaration(at) else {
        return Ok(None);
    };
    match defining(alloc, program, all, modules, &found)? {
        None => Ok(None),
        Some(decl) => value_in(alloc, decl),
    }
}
