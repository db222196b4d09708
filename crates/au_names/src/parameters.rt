//! Type parameters that are written.

ghost use Rattle.std.specs.Prelude.{◌≡◌, ◌++◌, ◌∷◌, [], IfOk, OnOk, map};
ghost use Rattle.au_names.specs.HeadsOf.{parameter};
ghost use Rattle.au_names.specs.Walks.{written_parameter, written_parameters};

use au_base::Memory;
use au_syntax::{Parsed, TypeParameter};
use au_types::{Parameter, Params};
use std::alloc::Global;

/// A type parameter that is written.
///
/// # Errors
///
/// Only for want of memory.
pub fn parameter_of(alloc: Global, one: &TypeParameter<Parsed>) -> Result<Parameter, Memory>
    ensures { IfOk result (λ made. made ≡ parameter (written_parameter one.now)) }
{
    let universe = one.universe;
    let name = one.name.name.copy(alloc)?;
    Ok(Parameter { name, universe })
}

/// Puts a type parameter that is written behind others.
fn push_parameter(
    alloc: Global,
    params: &mut Params,
    one: &TypeParameter<Parsed>,
) -> Result<(), Memory>
    ensures { OnOk result (params.new ≡ params.old ++ parameter (written_parameter one.now) ∷ []) }
{
    let made = parameter_of(alloc, one)?;
    params.push(made)
}

/// Type parameters that are written, in order.
///
/// # Errors
///
/// Only for want of memory.
pub fn params_of(alloc: Global, list: &Vec<TypeParameter<Parsed>>) -> Result<Params, Memory>
    ensures { IfOk result (λ params. params ≡ map parameter (written_parameters list.now.items)) }
{
    let mut params = Params::new(alloc);
    for one in list {
        push_parameter(alloc, &mut params, one)?;
    }
    Ok(params)
}
