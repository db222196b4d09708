//! The universes that types have.

ghost use Rattle.std.specs.Prelude.{◌≡◌};
ghost use Rattle.au_matching.specs.Forming as forming;
ghost use Rattle.au_matching.specs.Joined as join;
ghost use Rattle.au_matching.specs.Universes as universes;

use au_syntax::Universe;

/// The universe of a type. A region has none.
#[derive(Clone, Copy, Debug, PartialEq, Eq)]
pub enum TypeUniverse {
    /// Its values may be copied and dropped.
    Free,
    /// Its values must be used exactly once.
    Linear,
    /// Free or Linear, which isn't known before its type parameters are.
    AnyUniverse,
}

/// Whether a parameter of this universe takes a type of this one: `Free` takes a Free type, `Linear` a Linear
/// one, `Type` any, and where a region is wanted no type is taken.
pub fn takes(wanted: Universe, universe: TypeUniverse) -> bool
    ensures { result ≡ forming.takes wanted universe }
{
    match wanted {
        Universe::Free => is_free(universe),
        Universe::Linear => is_linear(universe),
        Universe::AnyType => true,
        Universe::Region => false,
    }
}

fn is_free(universe: TypeUniverse) -> bool
    ensures { result ≡ universes.is_free universe }
{
    match universe {
        TypeUniverse::Free => true,
        TypeUniverse::Linear => false,
        TypeUniverse::AnyUniverse => false,
    }
}

fn is_linear(universe: TypeUniverse) -> bool
    ensures { result ≡ universes.is_linear universe }
{
    match universe {
        TypeUniverse::Free => false,
        TypeUniverse::Linear => true,
        TypeUniverse::AnyUniverse => false,
    }
}

/// What two universes of arguments come to: Linear if one of them is Linear, Free if both are Free, and
/// otherwise `Type`.
pub(crate) fn joined(one: TypeUniverse, other: TypeUniverse) -> TypeUniverse
    ensures { result ≡ join.joined one other }
{
    match one {
        TypeUniverse::Free => other,
        TypeUniverse::Linear => TypeUniverse::Linear,
        TypeUniverse::AnyUniverse => at_least_any(other),
    }
}

fn at_least_any(universe: TypeUniverse) -> TypeUniverse
    ensures { result ≡ join.joined TypeUniverse.AnyUniverse universe }
{
    match universe {
        TypeUniverse::Free => TypeUniverse::AnyUniverse,
        TypeUniverse::Linear => TypeUniverse::Linear,
        TypeUniverse::AnyUniverse => TypeUniverse::AnyUniverse,
    }
}

/// The universe of a declared type of this universe whose arguments come to this one.
pub(crate) fn of_declaration(declared: Universe, args: TypeUniverse) -> TypeUniverse
    ensures { result ≡ universes.of_declaration declared args }
{
    match declared {
        Universe::Free => TypeUniverse::Free,
        Universe::Linear => TypeUniverse::Linear,
        Universe::AnyType => args,
        Universe::Region => args,
    }
}
