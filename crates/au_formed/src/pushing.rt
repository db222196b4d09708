//! Puts what is written in the parts of a declaration behind what is written before.

ghost use Rattle.std.specs.Prelude.{◌≡◌, ◌++◌, ◌∷◌, [], OnOk};
ghost use Rattle.std.specs.List.{flat_map};
ghost use Rattle.au_formed.specs.Said.{name_said, writings_said};
ghost use Rattle.au_formed.specs.Writings as spec;
ghost use Rattle.au_promises.specs.Said.{cases_said, fields_said, generic_said, generics_said, header_said};
ghost use Rattle.au_promises.specs.Said.{headers_said, methods_said, names_said};
ghost use Rattle.au_syntax.specs.Views.{written};

use crate::writings::Writing;
use au_base::{Memory, Pos};
use au_syntax::{Field, Generic, Ident, Method, Parsed, Signature, TypeText, UnionCase, Universe};

/// Puts a type.
pub fn push_type<'a>(list: &mut Vec<Writing<'a>>, of: &'a TypeText) -> Result<(), Memory>
    ensures { OnOk result
        (writings_said list.new.items ≡ writings_said list.old.items ++ spec.a_type (written of.now) ∷ []) }
{
    list.push(Writing::Type(of))?;
    Ok(())
}

/// Puts a name that stands for a class.
pub fn push_class<'a>(list: &mut Vec<Writing<'a>>, name: &'a Ident<Parsed>) -> Result<(), Memory>
    ensures { OnOk result
        (writings_said list.new.items
        ≡ writings_said list.old.items ++ spec.a_class (name_said name.now) ∷ []) }
{
    list.push(Writing::Class(name))?;
    Ok(())
}

/// Puts a universe that may not be `Region`.
pub fn push_universe(list: &mut Vec<Writing>, at: Pos, universe: Universe) -> Result<(), Memory>
    ensures { OnOk result
        (writings_said list.new.items ≡ writings_said list.old.items ++ spec.a_universe at universe ∷ []) }
{
    list.push(Writing::InUniverse(at, universe))?;
    Ok(())
}

/// Puts the types of fields or parameters.
pub fn push_fields<'a>(
    list: &mut Vec<Writing<'a>>,
    fields: &'a Vec<Field<Parsed>>,
) -> Result<(), Memory>
    ensures { OnOk result
        (writings_said list.new.items
        ≡ writings_said list.old.items ++ spec.field_writings (fields_said fields.now.items)) }
{
    for one in fields {
        push_type(list, &one.of)?;
    }
    Ok(())
}

/// Puts names that stand for classes.
fn push_classes<'a>(
    list: &mut Vec<Writing<'a>>,
    names: &'a Vec<Ident<Parsed>>,
) -> Result<(), Memory>
    ensures { OnOk result
        (writings_said list.new.items
        ≡ writings_said list.old.items ++ spec.class_writings (names_said names.now.items)) }
{
    for one in names {
        push_class(list, one)?;
    }
    Ok(())
}

/// Puts a type parameter behind `generic`, with its constraints.
fn push_generic<'a>(list: &mut Vec<Writing<'a>>, one: &'a Generic<Parsed>) -> Result<(), Memory>
    ensures { OnOk result
        (writings_said list.new.items
        ≡ writings_said list.old.items ++ spec.generic_writings (generic_said one.now)) }
{
    if one.classes.is_empty() {
        return Ok(());
    }
    push_universe(list, one.parameter.name.at, one.parameter.universe)?;
    push_classes(list, &one.classes)
}

/// Puts type parameters behind `generic`, with their constraints.
pub fn push_generics<'a>(
    list: &mut Vec<Writing<'a>>,
    generics: &'a Vec<Generic<Parsed>>,
) -> Result<(), Memory>
    ensures { OnOk result
        (writings_said list.new.items
        ≡ writings_said list.old.items ++ flat_map spec.generic_writings (generics_said generics.now.items)) }
{
    for one in generics {
        push_generic(list, one)?;
    }
    Ok(())
}

/// Puts the types of a function's parameters and of its result.
pub fn push_header<'a>(
    list: &mut Vec<Writing<'a>>,
    one: &'a Signature<Parsed>,
) -> Result<(), Memory>
    ensures { OnOk result
        (writings_said list.new.items
        ≡ writings_said list.old.items ++ spec.header_writings (header_said one.now)) }
{
    push_fields(list, &one.parameters)?;
    push_type(list, &one.result)
}

/// Puts the types of the methods of a class.
pub fn push_headers<'a>(
    list: &mut Vec<Writing<'a>>,
    methods: &'a Vec<Signature<Parsed>>,
) -> Result<(), Memory>
    ensures { OnOk result
        (writings_said list.new.items
        ≡ writings_said list.old.items ++ flat_map spec.header_writings (headers_said methods.now.items)) }
{
    for one in methods {
        push_header(list, one)?;
    }
    Ok(())
}

/// Puts the types of the fields of a union's cases.
pub fn push_cases<'a>(
    list: &mut Vec<Writing<'a>>,
    cases: &'a Vec<UnionCase<Parsed>>,
) -> Result<(), Memory>
    ensures { OnOk result
        (writings_said list.new.items
        ≡ writings_said list.old.items ++ flat_map spec.case_writings (cases_said cases.now.items)) }
{
    for one in cases {
        push_fields(list, &one.fields)?;
    }
    Ok(())
}

/// Puts the types of the methods of an instance.
pub fn push_methods<'a>(
    list: &mut Vec<Writing<'a>>,
    methods: &'a Vec<Method<Parsed>>,
) -> Result<(), Memory>
    ensures { OnOk result
        (writings_said list.new.items
        ≡ writings_said list.old.items ++ flat_map spec.method_writings (methods_said methods.now.items)) }
{
    for one in methods {
        push_header(list, &one.signature)?;
    }
    Ok(())
}
