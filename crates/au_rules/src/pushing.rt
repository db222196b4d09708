//! Puts the marks of the parts of a declaration behind others.

ghost use Rattle.std.specs.Prelude.{◌≡◌, ◌++◌, ◌∷◌, [], OnOk, map};
ghost use Rattle.au_rules.specs.Marks.{bound_mark, enclosed, function_marks, generic_mark, labelled_mark};
ghost use Rattle.au_rules.specs.Marks.{parameter_mark};
ghost use Rattle.au_rules.specs.Said.{binds_said};
ghost use Rattle.au_promises.specs.Said.{fields_said, generics_said, header_said, parameters_said};
ghost use Rattle.au_syntax.specs.Plain.{plain_bound};
ghost use Rattle.au_syntax.specs.Views.{bound};
ghost use Rattle.au_syntax.specs.contracts.parsed.ParsedPhase.TheImpl.{ghosts as parsed};

use crate::marks::{Kind, Mark, Role};
use au_base::Memory;
use au_imports::importing::given;
use au_syntax::{Bind, Field, Generic, Ident, Parsed, Signature, TypeParameter};
use std::alloc::Global;

/// Puts the beginning of a block.
pub fn push_opens(list: &mut Vec<Mark>) -> Result<(), Memory>
    ensures { OnOk result (list.new.items ≡ list.old.items ++ Mark.Opens ∷ []) }
{
    list.push(Mark::Opens)?;
    Ok(())
}

/// Puts the end of a block.
pub fn push_closes(list: &mut Vec<Mark>) -> Result<(), Memory>
    ensures { OnOk result (list.new.items ≡ list.old.items ++ Mark.Closes ∷ []) }
{
    list.push(Mark::Closes)?;
    Ok(())
}

/// Puts a name that is declared.
pub fn push_declared(
    alloc: Global,
    list: &mut Vec<Mark>,
    role: Role,
    kind: Kind,
    name: &Ident<Parsed>,
) -> Result<(), Memory>
    ensures { OnOk result (list.new.items ≡ list.old.items
        ++ Mark.Declares role kind name.now.name name.now.at ∷ []) }
{
    let copy = name.name.copy(alloc)?;
    list.push(Mark::Declares(role, kind, copy, name.at))?;
    Ok(())
}

/// Puts the names of fields or parameters.
pub fn push_fields(
    alloc: Global,
    list: &mut Vec<Mark>,
    kind: Kind,
    fields: &Vec<Field<Parsed>>,
) -> Result<(), Memory>
    ensures { OnOk result (list.new.items ≡ list.old.items
        ++ map (labelled_mark kind) (fields_said fields.now.items)) }
{
    for one in fields {
        push_declared(alloc, list, Role::Local, kind, &one.name)?;
    }
    Ok(())
}

/// Puts the names of type parameters.
pub fn push_parameters(
    alloc: Global,
    list: &mut Vec<Mark>,
    parameters: &Vec<TypeParameter<Parsed>>,
) -> Result<(), Memory>
    ensures { OnOk result (list.new.items ≡ list.old.items
        ++ map parameter_mark (parameters_said parameters.now.items)) }
{
    for one in parameters {
        push_declared(alloc, list, Role::Local, Kind::Types, &one.name)?;
    }
    Ok(())
}

/// Puts the names of type parameters behind `generic`.
pub fn push_generics(
    alloc: Global,
    list: &mut Vec<Mark>,
    generics: &Vec<Generic<Parsed>>,
) -> Result<(), Memory>
    ensures { OnOk result (list.new.items ≡ list.old.items
        ++ map generic_mark (generics_said generics.now.items)) }
{
    for one in generics {
        push_declared(alloc, list, Role::Local, Kind::Types, &one.parameter.name)?;
    }
    Ok(())
}

/// Puts the names of variables to which fields are bound.
pub fn push_binds(
    alloc: Global,
    list: &mut Vec<Mark>,
    binds: &Vec<Bind<Parsed>>,
) -> Result<(), Memory>
    ensures { OnOk result (list.new.items ≡ list.old.items ++ map bound_mark (binds_said binds.now.items)) }
{
    for one in binds {
        push_bind(alloc, list, one)?;
    }
    Ok(())
}

/// Puts the name of a variable to which a field is bound.
fn push_bind(alloc: Global, list: &mut Vec<Mark>, one: &Bind<Parsed>) -> Result<(), Memory>
    ensures { OnOk result (list.new.items ≡ list.old.items
        ++ bound_mark (plain_bound parsed.name_bytes (bound parsed one.now)) ∷ []) }
{
    let name = given(&one.name);
    push_declared(alloc, list, Role::Local, Kind::Values, name)
}

/// Puts a block of fields or parameters alone.
pub fn push_enclosed(
    alloc: Global,
    list: &mut Vec<Mark>,
    kind: Kind,
    fields: &Vec<Field<Parsed>>,
) -> Result<(), Memory>
    ensures { OnOk result (list.new.items ≡ list.old.items
        ++ enclosed (map (labelled_mark kind) (fields_said fields.now.items))) }
{
    push_opens(list)?;
    push_fields(alloc, list, kind, fields)?;
    push_closes(list)
}

/// Puts the beginning of a block and the type parameters, the name and the parameters of a function.
pub fn push_head(
    alloc: Global,
    list: &mut Vec<Mark>,
    role: Role,
    generics: &Vec<Generic<Parsed>>,
    signature: &Signature<Parsed>,
) -> Result<(), Memory>
    ensures { OnOk result (list.new.items ≡ list.old.items ++ Mark.Opens
        ∷ function_marks role (generics_said generics.now.items) (header_said signature.now)) }
{
    push_opens(list)?;
    push_generics(alloc, list, generics)?;
    push_declared(alloc, list, role, Kind::Callables, &signature.name)?;
    push_fields(alloc, list, Kind::Values, &signature.parameters)
}
