//! Lists the names that a declaration declares and writes.

ghost use Rattle.std.specs.Prelude.{◌≡◌, ◌++◌, ◌∷◌, [], IfOk, OnOk};
ghost use Rattle.std.specs.List.{flat_map};
ghost use Rattle.au_promises.specs.Mentions.{case_mentions, constraint_mentions, function_mentions};
ghost use Rattle.au_promises.specs.Mentions.{instance_mentions, labelled_mentions, mentions, method_mentions};
ghost use Rattle.au_promises.specs.Mentions.{type_mentions, value_mentions};
ghost use Rattle.au_promises.specs.Said.{cases_said, declaration_said, declares, expression_said};
ghost use Rattle.au_promises.specs.Said.{fields_said, generics_said, header_said, headers_said};
ghost use Rattle.au_promises.specs.Said.{methods_said, name_said};
ghost use Rattle.au_syntax.specs.Plain.{plain_declaration};
ghost use Rattle.au_syntax.specs.Views.{declaration, written};
ghost use Rattle.au_syntax.specs.contracts.parsed.ParsedPhase.TheImpl.{ghosts as parsed};

use crate::mentions::Mention;
use crate::pushing::{
    push_cases, push_declared, push_fields, push_generics, push_methods, push_signature,
    push_signatures, push_type, push_written,
};
use crate::values::push_value;
use au_base::Memory;
use au_syntax::{
    Decl, Expr, Field, Generic, Ident, Method, Parsed, Signature, TypeText, UnionCase,
};
use au_types::Space;
use std::alloc::Global;

/// Puts the names of a constant.
fn push_constant(
    alloc: Global,
    list: &mut Vec<Mention>,
    name: &Ident<Parsed>,
    of: &TypeText,
) -> Result<(), Memory>
    ensures { OnOk result (list.new.items
        ≡ list.old.items ++ declares Space.Values name.now ∷ type_mentions (written of.now)) }
{
    push_declared(alloc, list, Space::Values, name)?;
    push_type(alloc, list, of)
}

/// Puts the names of a constant with its value.
fn push_constant_body(
    alloc: Global,
    list: &mut Vec<Mention>,
    name: &Ident<Parsed>,
    of: &TypeText,
    value: &Expr<Parsed>,
) -> Result<(), Memory>
    ensures { OnOk result (list.new.items
        ≡ list.old.items ++ declares Space.Values name.now
        ∷ (type_mentions (written of.now) ++ value_mentions (expression_said value.now))) }
{
    push_constant(alloc, list, name, of)?;
    push_value(alloc, list, value)
}

/// Puts the names of a record. Its constructor has the record's name.
fn push_record(
    alloc: Global,
    list: &mut Vec<Mention>,
    name: &Ident<Parsed>,
    fields: &Vec<Field<Parsed>>,
) -> Result<(), Memory>
    ensures { OnOk result (list.new.items
        ≡ list.old.items ++ declares Space.Callables name.now ∷ declares Space.Types name.now
        ∷ flat_map labelled_mentions (fields_said fields.now.items)) }
{
    push_declared(alloc, list, Space::Callables, name)?;
    push_declared(alloc, list, Space::Types, name)?;
    push_fields(alloc, list, fields)
}

/// Puts the names of a union.
fn push_union(
    alloc: Global,
    list: &mut Vec<Mention>,
    name: &Ident<Parsed>,
    cases: &Vec<UnionCase<Parsed>>,
) -> Result<(), Memory>
    ensures { OnOk result (list.new.items
        ≡ list.old.items ++ declares Space.Types name.now
        ∷ flat_map case_mentions (cases_said cases.now.items)) }
{
    push_declared(alloc, list, Space::Types, name)?;
    push_cases(alloc, list, cases)
}

/// Puts the names of a function.
fn push_function(
    alloc: Global,
    list: &mut Vec<Mention>,
    generics: &Vec<Generic<Parsed>>,
    signature: &Signature<Parsed>,
) -> Result<(), Memory>
    ensures { OnOk result (list.new.items
        ≡ list.old.items ++ (flat_map constraint_mentions (generics_said generics.now.items)
        ++ function_mentions (header_said signature.now))) }
{
    push_generics(alloc, list, generics)?;
    push_signature(alloc, list, signature)
}

/// Puts the names of a class.
fn push_class(
    alloc: Global,
    list: &mut Vec<Mention>,
    name: &Ident<Parsed>,
    methods: &Vec<Signature<Parsed>>,
) -> Result<(), Memory>
    ensures { OnOk result (list.new.items
        ≡ list.old.items ++ declares Space.Types name.now
        ∷ flat_map function_mentions (headers_said methods.now.items)) }
{
    push_declared(alloc, list, Space::Types, name)?;
    push_signatures(alloc, list, methods)
}

/// Puts the names of an instance, without those of its methods.
fn push_instance(
    alloc: Global,
    list: &mut Vec<Mention>,
    generics: &Vec<Generic<Parsed>>,
    name: &Ident<Parsed>,
    of: &TypeText,
) -> Result<(), Memory>
    ensures { OnOk result (list.new.items ≡ list.old.items
        ++ instance_mentions (generics_said generics.now.items) (name_said name.now) (written of.now)) }
{
    push_generics(alloc, list, generics)?;
    push_written(alloc, list, name)?;
    push_type(alloc, list, of)
}

/// Puts the names of an instance with its methods.
fn push_instance_body(
    alloc: Global,
    list: &mut Vec<Mention>,
    generics: &Vec<Generic<Parsed>>,
    name: &Ident<Parsed>,
    of: &TypeText,
    methods: &Vec<Method<Parsed>>,
) -> Result<(), Memory>
    ensures { OnOk result (list.new.items ≡ list.old.items
        ++ (instance_mentions (generics_said generics.now.items) (name_said name.now) (written of.now)
        ++ flat_map method_mentions (methods_said methods.now.items))) }
{
    push_instance(alloc, list, generics, name, of)?;
    push_methods(alloc, list, methods)
}

/// Puts the names of a declaration.
fn push_mentions(alloc: Global, list: &mut Vec<Mention>, decl: &Decl<Parsed>) -> Result<(), Memory>
    ensures { OnOk result
        (list.new.items ≡ list.old.items ++ mentions (declaration_said decl.now)) }
{
    match decl {
        Decl::Constant(_, name, of) => push_constant(alloc, list, name, of),
        Decl::Opaque(_, name, _, _) => push_declared(alloc, list, Space::Types, name),
        Decl::Record(_, name, _, _, fields) => push_record(alloc, list, name, fields),
        Decl::Union(_, name, _, _, cases) => push_union(alloc, list, name, cases),
        Decl::Function(_, generics, header) | Decl::FunctionBody(_, generics, header, _, _) => {
            push_function(alloc, list, generics, header)
        }
        Decl::Class(_, name, _, methods) => push_class(alloc, list, name, methods),
        Decl::Instance(_, generics, name, of) => push_instance(alloc, list, generics, name, of),
        Decl::ConstantBody(_, name, of, value) => push_constant_body(alloc, list, name, of, value),
        Decl::InstanceBody(_, generics, name, of, methods) => {
            push_instance_body(alloc, list, generics, name, of, methods)
        }
    }
}

/// The names that a declaration declares and those that it writes for types, classes and regions, in the
/// order of the text, outside the bodies of functions and methods. Those in the types that are written in a
/// constant's value are among them.
///
/// # Errors
///
/// Only for want of memory.
pub fn mentions_of(alloc: Global, decl: &Decl<Parsed>) -> Result<Vec<Mention>, Memory>
    ensures { IfOk result (λ found. found.items
        ≡ mentions (plain_declaration parsed.name_bytes (declaration parsed decl.now))) }
{
    let mut list = Vec::new(alloc);
    push_mentions(alloc, &mut list, decl)?;
    Ok(list)
}
