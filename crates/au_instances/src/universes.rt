//! The universes of closed types.

ghost use Rattle.std.specs.Prelude.{◌≡◌};
ghost use Rattle.au_types.specs.Rows.{head_of};
ghost use Rattle.au_type_texts.specs.Types.{named};
ghost use Rattle.au_type_texts.specs.Views.{closed_meaning, closed_meanings};
ghost use Rattle.au_matching.specs.Joined as join;
ghost use Rattle.au_matching.specs.Universes as universes;
ghost use Rattle.au_instances.specs.ClosedInstances as spec;

use au_matching::TypeUniverse;
use au_syntax::Universe;
use au_type_texts::Closed;
use au_types::{DeclAt, Heads};

/// The universe of a closed type. A declared type without a row counts as `Type`.
#[tactic(auto, using(au_type_texts::proofs::ClosedLemmas::closed_steps))]
#[cycle(closed_universe)]
pub fn closed_universe(heads: &Heads, of: &Closed) -> TypeUniverse
    ensures { result ≡ spec.closed_universe heads.now (closed_meaning of.now) }
{
    match of {
        Closed::Unit => TypeUniverse::Free,
        Closed::Bool => TypeUniverse::Free,
        Closed::Int(_) => TypeUniverse::Free,
        Closed::Text => TypeUniverse::Free,
        Closed::Named { of, args } => declared_universe(heads, *of, args),
        Closed::Read(_) => TypeUniverse::Free,
        Closed::Write(_) => TypeUniverse::Linear,
    }
}

/// The universe of a declared type with these arguments, which count only where it's declared `Type`.
#[cycle(closed_universe)]
fn declared_universe(heads: &Heads, at: DeclAt, args: &Vec<Closed>) -> TypeUniverse
    ensures { result ≡ spec.closed_universe heads.now (named at (closed_meanings args.now.items)) }
{
    let Some(head) = heads.row(at) else {
        return TypeUniverse::AnyUniverse;
    };
    match head.universe {
        Universe::Free => TypeUniverse::Free,
        Universe::Linear => TypeUniverse::Linear,
        Universe::AnyType => judged(heads, args),
        Universe::Region => judged(heads, args),
    }
}

/// What the universes of closed types come to: Linear if one is Linear, Free if all are Free, and otherwise
/// `Type`.
#[cycle(closed_universe)]
fn judged(heads: &Heads, args: &Vec<Closed>) -> TypeUniverse
    ensures { result ≡ universes.judged (spec.closed_universes heads.now (closed_meanings args.now.items)) }
{
    let mut so_far = TypeUniverse::Free;
    for one in args {
        so_far = joined(so_far, closed_universe(heads, one));
    }
    so_far
}

/// What two universes of arguments come to: Linear if one of them is Linear, Free if both are Free, and
/// otherwise `Type`.
fn joined(one: TypeUniverse, other: TypeUniverse) -> TypeUniverse
    ensures { result ≡ join.joined one other }
{
    match one {
        TypeUniverse::Free => other,
        TypeUniverse::Linear => TypeUniverse::Linear,
        TypeUniverse::AnyUniverse => at_least_any(other),
    }
}

fn at_least_any(universe: TypeUniverse) -> TypeUniverse
    ensures { result ≡ join.joined TypeUniverse.AnyUniverse universe }
{
    match universe {
        TypeUniverse::Free => TypeUniverse::AnyUniverse,
        TypeUniverse::Linear => TypeUniverse::Linear,
        TypeUniverse::AnyUniverse => TypeUniverse::AnyUniverse,
    }
}
