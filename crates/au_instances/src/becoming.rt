//! Which types the head of a row becomes.

ghost use Rattle.std.specs.Prelude.{◌≡◌};
ghost use Rattle.au_types.specs.Universes as universes;
ghost use Rattle.au_types.specs.Views.{argument, argument_all, meaning};
ghost use Rattle.au_instances.specs.Becoming as spec;
ghost use Rattle.au_instances.specs.Forms as forms;

use crate::forms::name_of;
use crate::rows::Row;
use au_base::Name;
use au_matching::fits;
use au_types::{Arg, Heads, Params, Ty, is_same, universe_in};

/// Whether the head of a row becomes a type: without type parameters itself alone, and else what has its
/// constructor and arguments that fit the parameters in their places.
pub(crate) fn becomes(heads: &Heads, scope: &Params, row: &Row, of: &Ty) -> bool
    ensures { result
        ≡ spec.becomes heads.now scope.now row.now.generics (meaning row.now.head) (meaning of.now) }
{
    if row.generics.len() == 0 {
        return is_same(&row.head, of);
    }
    applies(heads, scope, row.generics.params(), &row.head, of)
}

/// Whether a head over these type parameters becomes a type.
#[tactic(auto, using(au_types::proofs::TypeLemmas::type_steps))]
fn applies(heads: &Heads, scope: &Params, params: &Params, head: &Ty, of: &Ty) -> bool
    ensures { result ≡ spec.applies heads.now scope.now params.now (meaning head.now) (meaning of.now) }
{
    let Ty::Named {
        of: at,
        args: names,
    } = head
    else {
        return false;
    };
    let Ty::Named { of: other, args } = of else {
        return false;
    };
    *at == *other && all_stand_for(heads, scope, params, names, args)
}

/// Whether arguments may stand for others, which are names of these parameters, each for that in its place.
fn all_stand_for(
    heads: &Heads,
    scope: &Params,
    params: &Params,
    names: &Vec<Arg>,
    args: &Vec<Arg>,
) -> bool
    ensures { result
        ≡ spec.all_stand_for heads.now scope.now params.now
        (argument_all names.now.items) (argument_all args.now.items) }
{
    if names.len() != args.len() {
        return false;
    }
    for (index, one) in args.iter().enumerate() {
        if !stands_for(heads, scope, params, &names[index], one) {
            return false;
        }
    }
    true
}

/// Whether an argument may stand for another, which is a name of these parameters.
fn stands_for(heads: &Heads, scope: &Params, params: &Params, name: &Arg, one: &Arg) -> bool
    ensures { result
        ≡ spec.stands_for heads.now scope.now params.now
        (forms.name_of (argument name.now)) (argument one.now) }
{
    match name_of(name) {
        Some(name) => is_taken(heads, scope, params, name, one),
        None => false,
    }
}

/// Whether the parameter of a name takes an argument.
fn is_taken(heads: &Heads, scope: &Params, params: &Params, name: &Name, one: &Arg) -> bool
    ensures { result
        ≡ spec.taken_by heads.now scope.now (universes.universe_in params.now name.now) (argument one.now) }
{
    match universe_in(params, name) {
        Some(universe) => fits(heads, scope, universe, one),
        None => false,
    }
}
