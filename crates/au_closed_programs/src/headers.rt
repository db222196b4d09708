//! What is written before a body, with closed types.

ghost use Rattle.std.specs.Prelude.{◌≡◌, IfOk, map};
ghost use Rattle.au_closed_trees.specs.Parts as spec;
ghost use Rattle.au_closed_trees.specs.Views.{field_said, fields_said};
ghost use Rattle.au_judged_types.specs.Meanings.{parameter, written_params};
ghost use Rattle.au_type_texts.specs.GivenViews.{given_said};
ghost use Rattle.au_sights.specs.contracts.noted.NotedPhase.TheImpl.{ghosts as noted};
ghost use Rattle.au_syntax.specs.Views.{constrained, in_universe, labelled};

use au_base::Memory;
use au_closed_trees::{ClosedField, Written, field_under};
use au_sights::Noted;
use au_syntax::{Field, Generic, TypeParameter};
use au_types::{Parameter, Params};
use std::alloc::Global;

/// A type parameter.
fn parameter_of(alloc: Global, one: &TypeParameter<Noted>) -> Result<Parameter, Memory>
    ensures { IfOk result (λ made. made ≡ parameter (in_universe noted one.now)) }
{
    let universe = one.universe;
    let name = one.name.name.copy(alloc)?;
    Ok(Parameter { name, universe })
}

/// The type parameters that are in scope in a body.
pub(crate) fn params_of(alloc: Global, generics: &Vec<Generic<Noted>>) -> Result<Params, Memory>
    ensures { IfOk result (λ params.
        params ≡ written_params (map (constrained noted) generics.now.items)) }
{
    let mut params = Params::new(alloc);
    for one in generics {
        params.push(parameter_of(alloc, &one.parameter)?)?;
    }
    Ok(params)
}

/// A parameter with its closed type.
fn closed_field(alloc: Global, place: &Written, one: &Field<Noted>) -> Result<ClosedField, Memory>
    ensures { IfOk result (λ made.
        field_said made
        ≡ spec.field_under place.now.names.now place.now.heads.now place.now.params.now
        (given_said place.now.given.now) (labelled noted one.now)) }
{
    field_under(alloc, place, &one.name.name, &one.of)
}

/// Parameters with their closed types.
pub(crate) fn closed_fields(
    alloc: Global,
    place: &Written,
    fields: &Vec<Field<Noted>>,
) -> Result<Vec<ClosedField>, Memory>
    ensures { IfOk result (λ made.
        fields_said made.items
        ≡ map (spec.field_under place.now.names.now place.now.heads.now place.now.params.now
        (given_said place.now.given.now)) (map (labelled noted) fields.now.items)) }
{
    let mut made = Vec::new(alloc);
    for one in fields {
        let field = closed_field(alloc, place, one)?;
        made.push(field)?;
    }
    Ok(made)
}
