//! The arguments of a type put for its type parameters.

ghost use Rattle.std.specs.Prelude.{◌≡◌, IfOk, None, OnOk, slice_get};
ghost use Rattle.au_matching.specs.Bindings.{value_of, with_pair};
ghost use Rattle.au_typing.specs.Insides as insides;
ghost use Rattle.au_sights.specs.Steps.{put_at, put_first};
ghost use Rattle.au_types.specs.Views.{argument, argument_all};

use au_base::{Memory, Name};
use au_matching::Substitution;
use au_types::{Arg, Params, copy_argument};
use std::alloc::Global;

/// Lets a name that isn't listed stand for a copy of an argument.
fn put_copy(alloc: Global, s: &mut Substitution, name: &Name, one: &Arg) -> Result<(), Memory>
    requires { value_of name.now s.old ≡ None }
    ensures { OnOk result (s.new ≡ with_pair name.now (argument one.now) s.old) }
{
    let value = copy_argument(alloc, one)?;
    let name = name.copy(alloc)?;
    s.put(name, value)
}

/// Lets a name stand for a copy of an argument, unless it stands for something already.
fn put_first(alloc: Global, s: &mut Substitution, name: &Name, one: &Arg) -> Result<(), Memory>
    ensures { OnOk result (s.new ≡ put_first name.now (argument one.now) s.old) }
{
    if s.value_of(name).is_some() {
        Ok(())
    } else {
        put_copy(alloc, s, name, one)
    }
}

/// Lets the type parameter of an index, if there is one, stand for a copy of an argument, unless its name
/// stands for something already.
fn put_argument(
    alloc: Global,
    s: &mut Substitution,
    params: &Params,
    index: usize,
    one: &Arg,
) -> Result<(), Memory>
    ensures { OnOk result (s.new ≡ put_at (slice_get params.now index) (argument one.now) s.old) }
{
    if index < params.len() {
        put_first(alloc, s, &params.at(index).name, one)
    } else {
        Ok(())
    }
}

/// What each type parameter stands for in a type with these arguments.
pub(crate) fn with_arguments(
    alloc: Global,
    params: &Params,
    args: &Vec<Arg>,
) -> Result<Substitution, Memory>
    ensures { IfOk result (λ s. s ≡ insides.with_arguments params.now (argument_all args.now.items)) }
{
    let mut s = Substitution::new(alloc);
    for (index, one) in args.iter().enumerate() {
        put_argument(alloc, &mut s, params, index, one)?;
    }
    Ok(s)
}
