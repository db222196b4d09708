//! The type parameters of bodies.

ghost use Rattle.std.specs.Prelude.{◌≡◌, IfOk, map};
ghost use Rattle.au_judged_types.specs.Meanings.{parameter, written_params};
ghost use Rattle.au_sights.specs.contracts.noted.NotedPhase.TheImpl.{ghosts as noted};
ghost use Rattle.au_syntax.specs.Views.{constrained, in_universe};

use au_base::Memory;
use au_sights::Noted;
use au_syntax::{Generic, TypeParameter};
use au_types::{Parameter, Params};
use std::alloc::Global;

/// A type parameter.
fn parameter_of(alloc: Global, one: &TypeParameter<Noted>) -> Result<Parameter, Memory>
    ensures { IfOk result (λ made. made ≡ parameter (in_universe noted one.now)) }
{
    let universe = one.universe;
    let name = one.name.name.copy(alloc)?;
    Ok(Parameter { name, universe })
}

/// Type parameters in declared order.
pub fn params_of(alloc: Global, generics: &Vec<Generic<Noted>>) -> Result<Params, Memory>
    ensures { IfOk result (λ params.
        params ≡ written_params (map (constrained noted) generics.now.items)) }
{
    let mut params = Params::new(alloc);
    for one in generics {
        params.push(parameter_of(alloc, &one.parameter)?)?;
    }
    Ok(params)
}
