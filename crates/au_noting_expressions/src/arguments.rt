//! The steps at single arguments of calls.

ghost use Rattle.std.specs.Prelude.{◌≡◌};
ghost use Rattle.au_matching.specs.Substituted.{substituted};
ghost use Rattle.au_noting.specs.Giving.{Gives, Tells};
ghost use Rattle.au_noting_expressions.specs.Bare as bare;
ghost use Rattle.au_noting_expressions.specs.Said.{beside_said};
ghost use Rattle.au_sights.specs.contracts.noted.NotedPhase.TheImpl.{ghosts as noted};
ghost use Rattle.au_syntax.specs.Views.{expression};
ghost use Rattle.au_types.specs.Views.{meaning};
ghost use Rattle.au_typing.specs.Faults.{different};
ghost use Rattle.au_typing.specs.Notes as notes;
ghost use Rattle.au_typing.specs.Rules.{int32};
ghost use Rattle.au_typing.specs.SearchCalls as search;

use crate::argument_types::{taken_as, unlike};
use crate::fixed::taken_as_int32;
use crate::operands::type_of;
use au_base::IntKind;
use au_matching::Substitution;
use au_noting::Fault;
use au_sights::Noted;
use au_syntax::Expr;
use au_types::Ty;
use std::alloc::Global;

/// A noted argument, with the substitution in which its parameter's type becomes its type.
///
/// # Errors
///
/// That the two differ.
pub fn take_as(
    alloc: Global,
    param: &Ty,
    s: Substitution,
    one: Box<Expr<Noted>>,
) -> Result<(Expr<Noted>, Substitution), Fault>
    ensures { Gives beside_said result (search.taken_as (meaning param.now)
        (notes.type_of (expression noted one.value)) s (expression noted one.value)) }
{
    let more = taken_as(alloc, param, type_of(&one), &s)?;
    Ok((Box::into_inner(one), more))
}

/// A noted argument, with the substitution in which its parameter's type becomes `Int32`.
///
/// # Errors
///
/// That the two differ.
pub fn take_as_int32(
    alloc: Global,
    param: &Ty,
    s: Substitution,
    one: Box<Expr<Noted>>,
) -> Result<(Expr<Noted>, Substitution), Fault>
    ensures { Gives beside_said result
        (search.taken_as (meaning param.now) int32 s (expression noted one.value)) }
{
    let more = taken_as_int32(alloc, param, &s)?;
    Ok((Box::into_inner(one), more))
}

/// That the type of a parameter differs from `Int32`.
pub fn unlike_int32(alloc: Global, param: &Ty, s: &Substitution) -> Fault
    ensures { Tells (different (substituted s.now (meaning param.now)) int32) result }
{
    unlike(alloc, param, &Ty::Int(IntKind::Int32), s)
}

/// Whether a type is a type parameter alone.
#[tactic(auto, using(au_types::proofs::TypeLemmas::type_steps))]
pub fn is_parameter(of: &Ty) -> bool
    ensures { result ≡ bare.is_parameter (meaning of.now) }
{
    match of {
        Ty::Param(_) => true,
        Ty::Unit => false,
        Ty::Bool => false,
        Ty::Int(_) => false,
        Ty::Text => false,
        Ty::Named { .. } => false,
        Ty::Read { .. } => false,
        Ty::Write { .. } => false,
    }
}
