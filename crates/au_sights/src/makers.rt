//! What makes values of records and unions.

ghost use Rattle.std.specs.Prelude.{◌≡◌, [], IfOk, Some, map};
ghost use Rattle.std.specs.Option.{option_map};
ghost use Rattle.au_modules.specs.Slots as slots;
ghost use Rattle.au_names.specs.Standing.{standing, whole_name};
ghost use Rattle.au_names.specs.Walks.{written_parameters};
ghost use Rattle.au_judged_types.specs.Meanings.{parameter};
ghost use Rattle.au_typing.specs.Called as spec;
ghost use Rattle.au_promises.specs.Written.{labels_of};
ghost use Rattle.au_sights.specs.Sights.{callable_said};
ghost use Rattle.au_sights.specs.Steps.{Stands, all_said};
ghost use Rattle.au_types.specs.Views.{argument, argument_all, meaning};

use crate::called::{Callable, Typed};
use crate::standing::types_seen;
use crate::typing::all_typed;
use au_base::{Memory, Name, Sequence};
use au_imports::Resolved;
use au_judged_types::Generics;
use au_names::Declared;
use au_names::parameters::params_of;
use au_syntax::{Field, Parsed, TypeParameter, Universe};
use au_types::{Arg, DeclAt, Parameter, Params, Region, Ty};
use std::alloc::Global;

/// A type parameter as an argument.
#[tactic(auto, using(au_types::proofs::TypeLemmas::type_steps))]
fn as_argument(alloc: Global, one: &Parameter) -> Result<Arg, Memory>
    ensures { IfOk result (λ made. argument made ≡ spec.as_argument one.now) }
{
    let name = one.name.copy(alloc)?;
    match one.universe {
        Universe::Free => Ok(Arg::Of(Ty::Param(name))),
        Universe::Linear => Ok(Arg::Of(Ty::Param(name))),
        Universe::AnyType => Ok(Arg::Of(Ty::Param(name))),
        Universe::Region => Ok(Arg::In(Region::Named(name))),
    }
}

/// Type parameters as arguments, each in its place.
fn as_arguments(alloc: Global, params: &Params) -> Result<Vec<Arg>, Memory>
    ensures { IfOk result (λ made. argument_all made.items ≡ spec.as_arguments params.now) }
{
    let mut args = Vec::new(alloc);
    for index in 0..params.len() {
        let one = as_argument(alloc, params.at(index))?;
        args.push(one)?;
    }
    Ok(args)
}

/// The type that a record or a union declares, with its type parameters as arguments. An opaque type has the
/// number of the interface's declaration.
#[tactic(auto, using(au_types::proofs::TypeLemmas::type_steps))]
fn type_itself(
    alloc: Global,
    program: &Resolved,
    found: &Declared,
    name: &Name,
    params: &Params,
) -> Result<Option<Ty>, Memory>
    requires stands { Stands (slots.modules program.now) (standing found.now) }
    requires named { whole_name (standing found.now).says ≡ Some name.now }
    ensures { IfOk result (λ of. option_map meaning of
        ≡ spec.type_itself (slots.modules program.now) found.now.place name.now params.now) }
{
    match types_seen(program, found).get(name.as_bytes()) {
        None => Ok(None),
        Some(at) => {
            let args = as_arguments(alloc, params)?;
            Ok(Some(Ty::Named { of: *at, args }))
        }
    }
}

/// So many lists of no class.
fn no_classes(alloc: Global, params: &Params) -> Result<Vec<Sequence<DeclAt>>, Memory>
    ensures { IfOk result (λ made. made.items ≡ map (λ p. []) params.now) }
{
    let mut classes = Vec::new(alloc);
    for index in 0..params.len() {
        let none = Sequence::new(alloc);
        classes.push(none)?;
    }
    Ok(classes)
}

/// Type parameters that no class constrains.
pub(crate) fn unconstrained(alloc: Global, params: Params) -> Result<Generics, Memory>
    ensures { IfOk result (λ made. made ≡ map spec.unconstrained params) }
{
    let classes = no_classes(alloc, &params)?;
    Ok(Generics::of(params, classes))
}

/// What has these type parameters, this class, these parameters and this result, if they mean something.
pub(crate) fn callable(
    generics: Generics,
    class: Option<(Name, DeclAt)>,
    parameters: Option<Vec<Typed>>,
    gives: Option<Ty>,
) -> Option<Callable>
    ensures { option_map callable_said result
        ≡ spec.callable generics class (all_said parameters) (option_map meaning gives) }
{
    let Some(parameters) = parameters else {
        return None;
    };
    let Some(result) = gives else {
        return None;
    };
    Some(Callable {
        generics,
        parameters,
        result,
        class,
    })
}

/// What makes a value of the type of a declaration with these type parameters out of these fields.
fn made_of(
    alloc: Global,
    program: &Resolved,
    found: &Declared,
    name: &Name,
    params: Params,
    fields: &Vec<Field<Parsed>>,
) -> Result<Option<Callable>, Memory>
    requires stands { Stands (slots.modules program.now) (standing found.now) }
    requires named { whole_name (standing found.now).says ≡ Some name.now }
    ensures { IfOk result (λ made. option_map callable_said made
        ≡ spec.maker (slots.modules program.now) (standing found.now) name.now params
        (labels_of fields.now.items)) }
{
    let parameters = all_typed(alloc, program, found, &params, fields)?;
    let gives = type_itself(alloc, program, found, name, &params)?;
    let generics = unconstrained(alloc, params)?;
    Ok(callable(generics, None, parameters, gives))
}

/// What makes a value of the type of a declaration with these type parameters, as they are written, out of
/// these fields.
pub(crate) fn maker(
    alloc: Global,
    program: &Resolved,
    found: &Declared,
    name: &Name,
    parameters: &Vec<TypeParameter<Parsed>>,
    fields: &Vec<Field<Parsed>>,
) -> Result<Option<Callable>, Memory>
    requires stands { Stands (slots.modules program.now) (standing found.now) }
    requires named { whole_name (standing found.now).says ≡ Some name.now }
    ensures { IfOk result (λ made. option_map callable_said made
        ≡ spec.maker (slots.modules program.now) (standing found.now) name.now
        (map parameter (written_parameters parameters.now.items)) (labels_of fields.now.items)) }
{
    let params = params_of(alloc, parameters)?;
    made_of(alloc, program, found, name, params, fields)
}
