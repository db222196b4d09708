//! Lists what is written in a declaration and may not be well formed.

ghost use Rattle.std.specs.Prelude.{◌≡◌, ◌++◌, ◌∷◌, IfOk, OnOk};
ghost use Rattle.std.specs.List.{flat_map};
ghost use Rattle.au_formed.specs.Said.{name_said, writings_said};
ghost use Rattle.au_formed.specs.Writings as spec;
ghost use Rattle.au_names.specs.Walks as walks;
ghost use Rattle.au_promises.specs.Said.{cases_said, expression_said, fields_said, generics_said};
ghost use Rattle.au_promises.specs.Said.{header_said, headers_said, methods_said};
ghost use Rattle.au_syntax.specs.Views.{written};

use crate::pushing::{
    push_cases, push_class, push_fields, push_generics, push_header, push_headers, push_methods,
    push_type, push_universe,
};
use crate::values::push_value;
use crate::writings::Writing;
use au_base::{Memory, Pos};
use au_syntax::{
    Decl, Expr, Field, Generic, Ident, Method, Parsed, Signature, TypeParameter, TypeText,
    UnionCase, Universe,
};
use std::alloc::Global;

/// Puts a constant with its value.
fn push_constant_body<'a>(
    list: &mut Vec<Writing<'a>>,
    of: &'a TypeText,
    value: &'a Expr<Parsed>,
) -> Result<(), Memory>
    ensures { OnOk result
        (writings_said list.new.items
        ≡ writings_said list.old.items
        ++ spec.a_type (written of.now) ∷ spec.value_writings (expression_said value.now)) }
{
    push_type(list, of)?;
    push_value(list, value)
}

/// Puts a record.
fn push_record<'a>(
    list: &mut Vec<Writing<'a>>,
    at: Pos,
    universe: Universe,
    fields: &'a Vec<Field<Parsed>>,
) -> Result<(), Memory>
    ensures { OnOk result
        (writings_said list.new.items
        ≡ writings_said list.old.items
        ++ spec.a_universe at universe ∷ spec.field_writings (fields_said fields.now.items)) }
{
    push_universe(list, at, universe)?;
    push_fields(list, fields)
}

/// Puts a union.
fn push_union<'a>(
    list: &mut Vec<Writing<'a>>,
    at: Pos,
    universe: Universe,
    cases: &'a Vec<UnionCase<Parsed>>,
) -> Result<(), Memory>
    ensures { OnOk result
        (writings_said list.new.items
        ≡ writings_said list.old.items
        ++ spec.a_universe at universe ∷ flat_map spec.case_writings (cases_said cases.now.items)) }
{
    push_universe(list, at, universe)?;
    push_cases(list, cases)
}

/// Puts a function.
fn push_function<'a>(
    list: &mut Vec<Writing<'a>>,
    generics: &'a Vec<Generic<Parsed>>,
    one: &'a Signature<Parsed>,
) -> Result<(), Memory>
    ensures { OnOk result
        (writings_said list.new.items
        ≡ writings_said list.old.items
        ++ spec.function_writings (generics_said generics.now.items) (header_said one.now)) }
{
    push_generics(list, generics)?;
    push_header(list, one)
}

/// Puts a class. The universe of its type parameter may not be `Region`.
fn push_methods_of<'a>(
    list: &mut Vec<Writing<'a>>,
    one: &TypeParameter<Parsed>,
    methods: &'a Vec<Signature<Parsed>>,
) -> Result<(), Memory>
    ensures { OnOk result
        (writings_said list.new.items
        ≡ writings_said list.old.items
        ++ spec.a_universe one.now.name.at one.now.universe
        ∷ flat_map spec.header_writings (headers_said methods.now.items)) }
{
    push_universe(list, one.name.at, one.universe)?;
    push_headers(list, methods)
}

/// Puts an instance, without its methods.
fn push_instance<'a>(
    list: &mut Vec<Writing<'a>>,
    generics: &'a Vec<Generic<Parsed>>,
    name: &'a Ident<Parsed>,
    of: &'a TypeText,
) -> Result<(), Memory>
    ensures { OnOk result
        (writings_said list.new.items
        ≡ writings_said list.old.items
        ++ spec.instance_writings (generics_said generics.now.items) (name_said name.now) (written of.now)) }
{
    push_generics(list, generics)?;
    push_class(list, name)?;
    push_type(list, of)
}

/// Puts an instance with its methods.
fn push_instance_body<'a>(
    list: &mut Vec<Writing<'a>>,
    generics: &'a Vec<Generic<Parsed>>,
    name: &'a Ident<Parsed>,
    of: &'a TypeText,
    methods: &'a Vec<Method<Parsed>>,
) -> Result<(), Memory>
    ensures { OnOk result
        (writings_said list.new.items
        ≡ writings_said list.old.items
        ++ (spec.instance_writings (generics_said generics.now.items) (name_said name.now) (written of.now)
        ++ flat_map spec.method_writings (methods_said methods.now.items))) }
{
    push_instance(list, generics, name, of)?;
    push_methods(list, methods)
}

/// Puts a declaration.
fn push_declaration<'a>(list: &mut Vec<Writing<'a>>, decl: &'a Decl<Parsed>) -> Result<(), Memory>
    ensures { OnOk result
        (writings_said list.new.items
        ≡ writings_said list.old.items ++ spec.writings (walks.written decl.now)) }
{
    match decl {
        Decl::Constant(_, _, of) => push_type(list, of),
        Decl::Opaque(at, _, _, universe) => push_universe(list, *at, *universe),
        Decl::Record(at, _, _, universe, fields) => push_record(list, *at, *universe, fields),
        Decl::Union(at, _, _, universe, cases) => push_union(list, *at, *universe, cases),
        Decl::Function(_, generics, one) => push_function(list, generics, one),
        Decl::Class(_, _, one, methods) => push_methods_of(list, one, methods),
        Decl::Instance(_, generics, name, of) => push_instance(list, generics, name, of),
        Decl::ConstantBody(_, _, of, value) => push_constant_body(list, of, value),
        Decl::FunctionBody(_, generics, one, _, _) => push_function(list, generics, one),
        Decl::InstanceBody(_, generics, name, of, methods) => {
            push_instance_body(list, generics, name, of, methods)
        }
    }
}

/// What is written in a declaration and may not be well formed, in the order of the text and outside the
/// bodies of functions and methods: types, names that stand for classes, and universes that may not be
/// `Region`. The types that are written in a constant's value are among them.
///
/// # Errors
///
/// Only for want of memory.
pub fn writings_of<'a>(alloc: Global, decl: &'a Decl<Parsed>) -> Result<Vec<Writing<'a>>, Memory>
    ensures { IfOk result (λ found. writings_said found.items ≡ spec.writings (walks.written decl.now)) }
{
    let mut list = Vec::new(alloc);
    push_declaration(&mut list, decl)?;
    Ok(list)
}
