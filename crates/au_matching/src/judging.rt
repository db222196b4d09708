//! The universe of a type.

ghost use Rattle.std.specs.Prelude.{◌≡◌};
ghost use Rattle.au_types.specs.Rows.{head_of};
ghost use Rattle.au_types.specs.Universes.{universe_in};
ghost use Rattle.au_types.specs.Views.{argument, argument_all, meaning};
ghost use Rattle.au_matching.specs.Universes as universes;
ghost use Rattle.au_matching.specs.Universes.{arguments_come};

use crate::universes::{TypeUniverse, joined};
use au_base::Name;
use au_syntax::Universe;
use au_types::{Arg, DeclAt, Heads, Params, Ty, universe_in};

/// The universe of a type, over these rows of declared types and these type parameters. A name that isn't in
/// scope and a declared type without a row count as `Type`. What is
/// built in and what reads is Free, what writes is Linear, and a type parameter and a declared type have the
/// universe that they are declared in; one that is declared `Type` is judged by its arguments.
///
/// It takes no memory and looks at each part of the type at most once. Asked of every part of a type, it
/// looks at a part once for each level above it, of which a written type has at most 24.
pub fn universe_of(heads: &Heads, scope: &Params, of: &Ty) -> TypeUniverse
    ensures { result ≡ universes.universe_of heads.now scope.now (meaning of.now) }
{
    type_universe(heads, scope, of)
}

/// The universe of any type. A name that isn't in scope and a declared type without a row count as `Type`.
#[tactic(auto, using(au_types::proofs::TypeLemmas::type_steps, crate::proofs::UniverseLemmas::steps))]
#[cycle(type_universe)]
pub(crate) fn type_universe(heads: &Heads, scope: &Params, of: &Ty) -> TypeUniverse
    ensures { result ≡ universes.universe_of heads.now scope.now (meaning of.now) }
{
    match of {
        Ty::Unit => TypeUniverse::Free,
        Ty::Bool => TypeUniverse::Free,
        Ty::Int(_) => TypeUniverse::Free,
        Ty::Text => TypeUniverse::Free,
        Ty::Param(name) => parameter_universe(scope, name).unwrap_or(TypeUniverse::AnyUniverse),
        Ty::Named { of, args } => declared_universe(heads, scope, *of, args),
        Ty::Read { .. } => TypeUniverse::Free,
        Ty::Write { .. } => TypeUniverse::Linear,
    }
}

/// The universe of a type parameter, and `None` where no parameter has the name or a region has it.
pub(crate) fn parameter_universe(scope: &Params, name: &Name) -> Option<TypeUniverse>
    ensures { result ≡ universes.of_parameter (universe_in scope.now name.now) }
{
    let universe = universe_in(scope, name)?;
    match universe {
        Universe::Free => Some(TypeUniverse::Free),
        Universe::Linear => Some(TypeUniverse::Linear),
        Universe::AnyType => Some(TypeUniverse::AnyUniverse),
        Universe::Region => None,
    }
}

/// The universe of a declared type with these arguments, which count only where it's declared `Type`.
#[cycle(type_universe)]
fn declared_universe(heads: &Heads, scope: &Params, at: DeclAt, args: &Vec<Arg>) -> TypeUniverse
    ensures { result
        ≡ universes.of_row (head_of heads.now at)
        (arguments_come heads.now scope.now (argument_all args.now.items)) }
{
    let Some(head) = heads.row(at) else {
        return TypeUniverse::AnyUniverse;
    };
    match head.universe {
        Universe::Free => TypeUniverse::Free,
        Universe::Linear => TypeUniverse::Linear,
        Universe::AnyType => judged(heads, scope, args),
        Universe::Region => judged(heads, scope, args),
    }
}

/// What the universes of arguments come to: Linear if one is Linear, Free if all are Free, and otherwise
/// `Type`. Regions are passed over.
#[tactic(auto, using(crate::proofs::UniverseLemmas::judged_steps))]
#[cycle(type_universe)]
fn judged(heads: &Heads, scope: &Params, args: &Vec<Arg>) -> TypeUniverse
    ensures { result ≡ arguments_come heads.now scope.now (argument_all args.now.items) }
{
    let mut so_far = TypeUniverse::Free;
    for one in args {
        so_far = joined(so_far, argument_universe(heads, scope, one));
    }
    so_far
}

/// What one argument comes to. A region comes to Free, which changes nothing.
#[tactic(auto, using(au_types::proofs::TypeLemmas::type_steps, crate::proofs::UniverseLemmas::steps))]
#[cycle(type_universe)]
fn argument_universe(heads: &Heads, scope: &Params, one: &Arg) -> TypeUniverse
    ensures { result ≡ universes.judged (universes.argument_universe heads.now scope.now (argument one.now)) }
{
    match one {
        Arg::Of(of) => type_universe(heads, scope, of),
        Arg::In(_) => TypeUniverse::Free,
    }
}
