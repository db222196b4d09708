//! Puts the names of the parts of a declaration behind others.

ghost use Rattle.std.specs.Prelude.{◌≡◌, ◌++◌, ◌∷◌, [], OnOk};
ghost use Rattle.std.specs.List.{flat_map};
ghost use Rattle.au_promises.specs.Mentions.{argument_mentions, case_mentions, constraint_mentions};
ghost use Rattle.au_promises.specs.Mentions.{function_mentions, header_mentions, labelled_mentions};
ghost use Rattle.au_promises.specs.Mentions.{method_mentions, type_mentions, writes};
ghost use Rattle.au_promises.specs.Said.{case_said, cases_said, declares, fields_said, generic_said};
ghost use Rattle.au_promises.specs.Said.{generics_said, header_said, headers_said, methods_said, names_said};
ghost use Rattle.au_syntax.specs.Views.{written, written_all};

use crate::mentions::Mention;
use au_base::Memory;
use au_syntax::{Field, Generic, Ident, Method, Parsed, Signature, TypeName, TypeText, UnionCase};
use au_types::Space;
use std::alloc::Global;

/// Puts a name that is declared in a space.
pub fn push_declared(
    alloc: Global,
    list: &mut Vec<Mention>,
    space: Space,
    name: &Ident<Parsed>,
) -> Result<(), Memory>
    ensures { OnOk result (list.new.items ≡ list.old.items ++ declares space name.now ∷ []) }
{
    let copy = name.name.copy(alloc)?;
    list.push(Mention::Declares(space, copy, name.at))?;
    Ok(())
}

/// Puts a name that is written for a class.
pub fn push_written(
    alloc: Global,
    list: &mut Vec<Mention>,
    name: &Ident<Parsed>,
) -> Result<(), Memory>
    ensures { OnOk result (list.new.items ≡ list.old.items ++ Mention.Writes name.now.name name.now.at ∷ []) }
{
    let copy = name.name.copy(alloc)?;
    list.push(Mention::Writes(copy, name.at))?;
    Ok(())
}

/// Puts a name that is written in a type.
fn push_type_name(alloc: Global, list: &mut Vec<Mention>, name: &TypeName) -> Result<(), Memory>
    ensures { OnOk result (list.new.items ≡ list.old.items ++ Mention.Writes name.now.name name.now.at ∷ []) }
{
    let copy = name.name.copy(alloc)?;
    list.push(Mention::Writes(copy, name.at))?;
    Ok(())
}

/// Puts the names in a written type.
#[tactic(auto, using(crate::proofs::MentionLemmas::pushing_steps))]
#[cycle(push_type)]
pub fn push_type(alloc: Global, list: &mut Vec<Mention>, node: &TypeText) -> Result<(), Memory>
    ensures { OnOk result (list.new.items ≡ list.old.items ++ type_mentions (written node.now)) }
{
    match node {
        TypeText::Named(name, args) => {
            push_type_name(alloc, list, name)?;
            push_types(alloc, list, args)
        }
        TypeText::Reference(_, _, target, region) => {
            push_type(alloc, list, target)?;
            push_type_name(alloc, list, region)
        }
    }
}

/// Puts the names in written types.
#[cycle(push_type)]
fn push_types(alloc: Global, list: &mut Vec<Mention>, nodes: &Vec<TypeText>) -> Result<(), Memory>
    ensures { OnOk result (list.new.items
        ≡ list.old.items ++ argument_mentions (written_all nodes.now.items)) }
{
    for one in nodes {
        push_type(alloc, list, one)?;
    }
    Ok(())
}

/// Puts the names in the types of fields or parameters.
pub fn push_fields(
    alloc: Global,
    list: &mut Vec<Mention>,
    fields: &Vec<Field<Parsed>>,
) -> Result<(), Memory>
    ensures { OnOk result (list.new.items
        ≡ list.old.items ++ flat_map labelled_mentions (fields_said fields.now.items)) }
{
    for one in fields {
        push_type(alloc, list, &one.of)?;
    }
    Ok(())
}

/// Puts the names of classes.
fn push_classes(
    alloc: Global,
    list: &mut Vec<Mention>,
    classes: &Vec<Ident<Parsed>>,
) -> Result<(), Memory>
    ensures { OnOk result (list.new.items
        ≡ list.old.items ++ flat_map writes (names_said classes.now.items)) }
{
    for one in classes {
        push_written(alloc, list, one)?;
    }
    Ok(())
}

/// Puts the classes in the constraints of type parameters.
pub fn push_generics(
    alloc: Global,
    list: &mut Vec<Mention>,
    generics: &Vec<Generic<Parsed>>,
) -> Result<(), Memory>
    ensures { OnOk result (list.new.items
        ≡ list.old.items ++ flat_map constraint_mentions (generics_said generics.now.items)) }
{
    for one in generics {
        push_classes(alloc, list, &one.classes)?;
    }
    Ok(())
}

/// Puts the names in the types of a function's parameters and of its result.
fn push_header(
    alloc: Global,
    list: &mut Vec<Mention>,
    signature: &Signature<Parsed>,
) -> Result<(), Memory>
    ensures { OnOk result (list.new.items ≡ list.old.items ++ header_mentions (header_said signature.now)) }
{
    push_fields(alloc, list, &signature.parameters)?;
    push_type(alloc, list, &signature.result)
}

/// Puts the name of a function or of a method of a class, and the names in its types.
pub fn push_signature(
    alloc: Global,
    list: &mut Vec<Mention>,
    signature: &Signature<Parsed>,
) -> Result<(), Memory>
    ensures { OnOk result (list.new.items ≡ list.old.items ++ function_mentions (header_said signature.now)) }
{
    push_declared(alloc, list, Space::Callables, &signature.name)?;
    push_header(alloc, list, signature)
}

/// Puts the names of the methods of a class.
pub fn push_signatures(
    alloc: Global,
    list: &mut Vec<Mention>,
    signatures: &Vec<Signature<Parsed>>,
) -> Result<(), Memory>
    ensures { OnOk result (list.new.items
        ≡ list.old.items ++ flat_map function_mentions (headers_said signatures.now.items)) }
{
    for one in signatures {
        push_signature(alloc, list, one)?;
    }
    Ok(())
}

/// Puts the name of a case of a union, and the names in the types of its fields.
fn push_case(alloc: Global, list: &mut Vec<Mention>, one: &UnionCase<Parsed>) -> Result<(), Memory>
    ensures { OnOk result (list.new.items ≡ list.old.items ++ case_mentions (case_said one.now)) }
{
    push_declared(alloc, list, Space::Callables, &one.name)?;
    push_fields(alloc, list, &one.fields)
}

/// Puts the names of the cases of a union.
pub fn push_cases(
    alloc: Global,
    list: &mut Vec<Mention>,
    cases: &Vec<UnionCase<Parsed>>,
) -> Result<(), Memory>
    ensures { OnOk result (list.new.items
        ≡ list.old.items ++ flat_map case_mentions (cases_said cases.now.items)) }
{
    for one in cases {
        push_case(alloc, list, one)?;
    }
    Ok(())
}

/// Puts the names in the types of the methods of an instance.
pub fn push_methods(
    alloc: Global,
    list: &mut Vec<Mention>,
    methods: &Vec<Method<Parsed>>,
) -> Result<(), Memory>
    ensures { OnOk result (list.new.items
        ≡ list.old.items ++ flat_map method_mentions (methods_said methods.now.items)) }
{
    for one in methods {
        push_header(alloc, list, &one.signature)?;
    }
    Ok(())
}
