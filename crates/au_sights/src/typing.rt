//! Fields and parameters with their types.

ghost use Rattle.std.specs.Prelude.{◌≡◌, IfOk, map};
ghost use Rattle.std.specs.Option.{option_map};
ghost use Rattle.au_modules.specs.Slots as slots;
ghost use Rattle.au_names.specs.Standing.{standing};
ghost use Rattle.au_typing.specs.Insides as insides;
ghost use Rattle.au_typing.specs.Written as spec;
ghost use Rattle.au_promises.specs.Written.{labelled_of, labels_of};
ghost use Rattle.au_sights.specs.Sights.{typed_said};
ghost use Rattle.au_sights.specs.Steps as steps;
ghost use Rattle.au_sights.specs.Steps.{Stands, all_said};

use crate::called::Typed;
use crate::standing::type_there;
use au_base::Memory;
use au_imports::Resolved;
use au_matching::{Substitution, substitute};
use au_names::Declared;
use au_syntax::{Field, Parsed};
use au_types::Params;
use std::alloc::Global;

/// A field or a parameter of a declaration with its type, over these type parameters, if the type means
/// anything.
fn typed(
    alloc: Global,
    program: &Resolved,
    found: &Declared,
    params: &Params,
    one: &Field<Parsed>,
) -> Result<Option<Typed>, Memory>
    requires { Stands (slots.modules program.now) (standing found.now) }
    ensures { IfOk result (λ made. option_map typed_said made
        ≡ spec.typed (slots.modules program.now) (standing found.now) params.now (labelled_of one.now)) }
{
    match type_there(alloc, program, found, params, &one.of)? {
        None => Ok(None),
        Some(of) => {
            let name = one.name.name.copy(alloc)?;
            Ok(Some(Typed { name, of }))
        }
    }
}

/// Fields or parameters of a declaration with their types, over these type parameters, if all types mean
/// something.
pub(crate) fn all_typed(
    alloc: Global,
    program: &Resolved,
    found: &Declared,
    params: &Params,
    fields: &Vec<Field<Parsed>>,
) -> Result<Option<Vec<Typed>>, Memory>
    requires { Stands (slots.modules program.now) (standing found.now) }
    ensures { IfOk result (λ made. all_said made
        ≡ spec.all_typed (slots.modules program.now) (standing found.now) params.now
        (labels_of fields.now.items)) }
{
    let mut all = Vec::new(alloc);
    for one in fields {
        match typed(alloc, program, found, params, one)? {
            None => return Ok(None),
            Some(made) => all.push(made)?,
        }
    }
    Ok(Some(all))
}

/// A field under a substitution.
fn typed_under(alloc: Global, s: &Substitution, one: &Typed) -> Result<Typed, Memory>
    ensures { IfOk result (λ made. typed_said made ≡ insides.typed_under s.now (typed_said one.now)) }
{
    let of = substitute(alloc, &one.of, s)?;
    let name = one.name.copy(alloc)?;
    Ok(Typed { name, of })
}

/// Fields under a substitution.
fn all_under(alloc: Global, s: &Substitution, all: &Vec<Typed>) -> Result<Vec<Typed>, Memory>
    ensures { IfOk result (λ made. map typed_said made.items
        ≡ map (insides.typed_under s.now) (map typed_said all.now.items)) }
{
    let mut made = Vec::new(alloc);
    for one in all {
        let under = typed_under(alloc, s, one)?;
        made.push(under)?;
    }
    Ok(made)
}

/// Fields of a declaration with their types under a substitution, if all types mean something.
pub(crate) fn fields_by(
    alloc: Global,
    program: &Resolved,
    found: &Declared,
    params: &Params,
    s: &Substitution,
    fields: &Vec<Field<Parsed>>,
) -> Result<Option<Vec<Typed>>, Memory>
    requires { Stands (slots.modules program.now) (standing found.now) }
    ensures { IfOk result (λ made. all_said made
        ≡ steps.fields_by (slots.modules program.now) (standing found.now) params.now s.now
        (labels_of fields.now.items)) }
{
    match all_typed(alloc, program, found, params, fields)? {
        None => Ok(None),
        Some(all) => {
            let made = all_under(alloc, s, &all)?;
            Ok(Some(made))
        }
    }
}
