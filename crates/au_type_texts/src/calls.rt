//! What the substitution of a call gives for type parameters.

ghost use Rattle.std.specs.Prelude.{◌≡◌, [], IfOk, Some, unwrap_or};
ghost use Rattle.au_types.specs.Types.{parameter};
ghost use Rattle.au_types.specs.Views.{argument};
ghost use Rattle.au_matching.specs.Substituted.{substituted, type_for};
ghost use Rattle.au_type_texts.specs.Views.{closed_meaning};
ghost use Rattle.au_type_texts.specs.Given as spec;
ghost use Rattle.au_type_texts.specs.GivenViews.{given_said};

use crate::Closed;
use crate::given_types::GivenType;
use crate::under::{closed_under, given_for};
use au_base::{Memory, Name};
use au_matching::Substitution;
use au_types::Arg;
use std::alloc::Global;

/// The closed type of what a substitution puts for a type parameter, once what is given is put for the type
/// parameters in that.
///
/// # Errors
///
/// Only for want of memory.
pub fn value_under(
    alloc: Global,
    given: &[GivenType],
    call: &Option<Substitution>,
    name: &Name,
) -> Result<Closed, Memory>
    ensures { IfOk result (λ made.
        closed_meaning made
        ≡ spec.closed_under (given_said given.now) (substituted (unwrap_or call.now [])
        (parameter name.now))) }
{
    match call {
        None => given_for(alloc, given, name),
        Some(bindings) => bound_under(alloc, given, bindings, name),
    }
}

/// The same of a substitution that is there.
fn bound_under(
    alloc: Global,
    given: &[GivenType],
    bindings: &Substitution,
    name: &Name,
) -> Result<Closed, Memory>
    ensures { IfOk result (λ made.
        closed_meaning made
        ≡ spec.closed_under (given_said given.now) (substituted bindings.now (parameter name.now))) }
{
    match bindings.value_of(name) {
        None => given_for(alloc, given, name),
        Some(value) => argument_under(alloc, given, value, name),
    }
}

/// The closed type of an argument that is bound to a type parameter.
fn argument_under(
    alloc: Global,
    given: &[GivenType],
    value: &Arg,
    name: &Name,
) -> Result<Closed, Memory>
    ensures { IfOk result (λ made.
        closed_meaning made
        ≡ spec.closed_under (given_said given.now) (type_for (Some (argument value.now)) name.now)) }
{
    match value {
        Arg::Of(of) => closed_under(alloc, given, of),
        Arg::In(_) => given_for(alloc, given, name),
    }
}
