//! Lists the marks of declarations.

ghost use Rattle.std.specs.Prelude.{◌≡◌, ◌++◌, ◌∷◌, [], IfOk, OnOk, map};
ghost use Rattle.std.specs.List.{flat_map};
ghost use Rattle.au_rules.specs.Marks as spec;
ghost use Rattle.au_rules.specs.Marks.{case_marks, enclosed, function_marks, generic_mark, labelled_mark};
ghost use Rattle.au_rules.specs.Marks.{marks, method_body_marks, method_marks, parameter_mark};
ghost use Rattle.au_rules.specs.Said.{block_said};
ghost use Rattle.au_promises.specs.Said.{case_said, cases_said, fields_said, generics_said, header_said};
ghost use Rattle.au_promises.specs.Said.{headers_said, methods_said, parameters_said};
ghost use Rattle.au_rules.specs.Marks.{block_marks};
ghost use Rattle.au_syntax.specs.Plain.{plain_declaration, plain_in_universe, plain_method};
ghost use Rattle.au_syntax.specs.Views.{declaration, in_universe, method_body};
ghost use Rattle.au_syntax.specs.contracts.parsed.ParsedPhase.TheImpl.{ghosts as parsed};

use crate::marks::{Kind, Mark, Role};
use crate::pushing::{
    push_closes, push_declared, push_enclosed, push_fields, push_generics, push_head, push_opens,
    push_parameters,
};
use crate::statements::push_closed;
use au_base::Memory;
use au_syntax::{
    Block, Decl, Field, Generic, Ident, Method, Parsed, Part, Signature, TypeParameter, UnionCase,
};
use std::alloc::Global;

/// How a record or a union is declared in a part.
fn type_role(part: Part) -> Role
    ensures { result ≡ spec.type_role part }
{
    match part {
        Part::Interface => Role::Whole,
        Part::Body => Role::Definition,
    }
}

/// Puts the marks of an opaque type.
fn push_opaque(
    alloc: Global,
    list: &mut Vec<Mark>,
    name: &Ident<Parsed>,
    parameters: &Vec<TypeParameter<Parsed>>,
) -> Result<(), Memory>
    ensures { OnOk result (list.new.items ≡ list.old.items
        ++ Mark.Declares Role.Promise Kind.Types name.now.name name.now.at
        ∷ enclosed (map parameter_mark (parameters_said parameters.now.items))) }
{
    push_declared(alloc, list, Role::Promise, Kind::Types, name)?;
    push_opens(list)?;
    push_parameters(alloc, list, parameters)?;
    push_closes(list)
}

/// Puts the block of a record.
fn push_record_block(
    alloc: Global,
    list: &mut Vec<Mark>,
    parameters: &Vec<TypeParameter<Parsed>>,
    fields: &Vec<Field<Parsed>>,
) -> Result<(), Memory>
    ensures { OnOk result (list.new.items ≡ list.old.items
        ++ enclosed (map parameter_mark (parameters_said parameters.now.items)
        ++ map (labelled_mark Kind.Fields) (fields_said fields.now.items))) }
{
    push_opens(list)?;
    push_parameters(alloc, list, parameters)?;
    push_fields(alloc, list, Kind::Fields, fields)?;
    push_closes(list)
}

/// Puts the marks of a record. Its constructor has the record's name.
fn push_record(
    alloc: Global,
    list: &mut Vec<Mark>,
    part: Part,
    name: &Ident<Parsed>,
    parameters: &Vec<TypeParameter<Parsed>>,
    fields: &Vec<Field<Parsed>>,
) -> Result<(), Memory>
    ensures { OnOk result (list.new.items ≡ list.old.items
        ++ Mark.Declares (spec.type_role part) Kind.Types name.now.name name.now.at
        ∷ Mark.Declares Role.Whole Kind.Callables name.now.name name.now.at
        ∷ enclosed (map parameter_mark (parameters_said parameters.now.items)
        ++ map (labelled_mark Kind.Fields) (fields_said fields.now.items))) }
{
    let role = type_role(part);
    push_declared(alloc, list, role, Kind::Types, name)?;
    push_declared(alloc, list, Role::Whole, Kind::Callables, name)?;
    push_record_block(alloc, list, parameters, fields)
}

/// Puts the marks of the cases of a union.
fn push_cases(
    alloc: Global,
    list: &mut Vec<Mark>,
    cases: &Vec<UnionCase<Parsed>>,
) -> Result<(), Memory>
    ensures { OnOk result (list.new.items ≡ list.old.items
        ++ flat_map case_marks (cases_said cases.now.items)) }
{
    for one in cases {
        push_case(alloc, list, one)?;
    }
    Ok(())
}

/// Puts the marks of a case of a union.
fn push_case(alloc: Global, list: &mut Vec<Mark>, one: &UnionCase<Parsed>) -> Result<(), Memory>
    ensures { OnOk result (list.new.items ≡ list.old.items ++ case_marks (case_said one.now)) }
{
    push_declared(alloc, list, Role::Whole, Kind::Callables, &one.name)?;
    push_enclosed(alloc, list, Kind::Fields, &one.fields)
}

/// Puts the block of a union.
fn push_union_block(
    alloc: Global,
    list: &mut Vec<Mark>,
    parameters: &Vec<TypeParameter<Parsed>>,
    cases: &Vec<UnionCase<Parsed>>,
) -> Result<(), Memory>
    ensures { OnOk result (list.new.items ≡ list.old.items
        ++ enclosed (map parameter_mark (parameters_said parameters.now.items)
        ++ flat_map case_marks (cases_said cases.now.items))) }
{
    push_opens(list)?;
    push_parameters(alloc, list, parameters)?;
    push_cases(alloc, list, cases)?;
    push_closes(list)
}

/// Puts the marks of a union.
fn push_union(
    alloc: Global,
    list: &mut Vec<Mark>,
    part: Part,
    name: &Ident<Parsed>,
    parameters: &Vec<TypeParameter<Parsed>>,
    cases: &Vec<UnionCase<Parsed>>,
) -> Result<(), Memory>
    ensures { OnOk result (list.new.items ≡ list.old.items
        ++ Mark.Declares (spec.type_role part) Kind.Types name.now.name name.now.at
        ∷ enclosed (map parameter_mark (parameters_said parameters.now.items)
        ++ flat_map case_marks (cases_said cases.now.items))) }
{
    let role = type_role(part);
    push_declared(alloc, list, role, Kind::Types, name)?;
    push_union_block(alloc, list, parameters, cases)
}

/// Puts the marks of a function of an interface.
fn push_function(
    alloc: Global,
    list: &mut Vec<Mark>,
    generics: &Vec<Generic<Parsed>>,
    signature: &Signature<Parsed>,
) -> Result<(), Memory>
    ensures { OnOk result (list.new.items ≡ list.old.items
        ++ enclosed (function_marks Role.Promise (generics_said generics.now.items)
        (header_said signature.now))) }
{
    push_head(alloc, list, Role::Promise, generics, signature)?;
    push_closes(list)
}

/// Puts the marks of a function of a body.
fn push_function_body(
    alloc: Global,
    list: &mut Vec<Mark>,
    generics: &Vec<Generic<Parsed>>,
    signature: &Signature<Parsed>,
    body: &Block<Parsed>,
) -> Result<(), Memory>
    ensures { OnOk result (list.new.items ≡ list.old.items
        ++ enclosed (function_marks Role.Definition (generics_said generics.now.items)
        (header_said signature.now) ++ block_marks (block_said body.now))) }
{
    push_head(alloc, list, Role::Definition, generics, signature)?;
    push_closed(alloc, list, body)
}

/// Puts the marks of the methods of a class.
fn push_methods(
    alloc: Global,
    list: &mut Vec<Mark>,
    methods: &Vec<Signature<Parsed>>,
) -> Result<(), Memory>
    ensures { OnOk result (list.new.items ≡ list.old.items
        ++ flat_map method_marks (headers_said methods.now.items)) }
{
    for one in methods {
        push_method(alloc, list, one)?;
    }
    Ok(())
}

/// Puts the marks of a method of a class.
fn push_method(alloc: Global, list: &mut Vec<Mark>, one: &Signature<Parsed>) -> Result<(), Memory>
    ensures { OnOk result (list.new.items ≡ list.old.items ++ method_marks (header_said one.now)) }
{
    push_declared(alloc, list, Role::Whole, Kind::Callables, &one.name)?;
    push_enclosed(alloc, list, Kind::Values, &one.parameters)
}

/// Puts the block of a class.
fn push_class_block(
    alloc: Global,
    list: &mut Vec<Mark>,
    parameter: &TypeParameter<Parsed>,
    methods: &Vec<Signature<Parsed>>,
) -> Result<(), Memory>
    ensures { OnOk result (list.new.items ≡ list.old.items
        ++ enclosed (parameter_mark (plain_in_universe parsed.name_bytes (in_universe parsed parameter.now))
        ∷ flat_map method_marks (headers_said methods.now.items))) }
{
    push_opens(list)?;
    push_declared(alloc, list, Role::Local, Kind::Types, &parameter.name)?;
    push_methods(alloc, list, methods)?;
    push_closes(list)
}

/// Puts the marks of a class.
fn push_class(
    alloc: Global,
    list: &mut Vec<Mark>,
    name: &Ident<Parsed>,
    parameter: &TypeParameter<Parsed>,
    methods: &Vec<Signature<Parsed>>,
) -> Result<(), Memory>
    ensures { OnOk result (list.new.items ≡ list.old.items
        ++ Mark.Declares Role.Whole Kind.Types name.now.name name.now.at
        ∷ enclosed (parameter_mark (plain_in_universe parsed.name_bytes (in_universe parsed parameter.now))
        ∷ flat_map method_marks (headers_said methods.now.items))) }
{
    push_declared(alloc, list, Role::Whole, Kind::Types, name)?;
    push_class_block(alloc, list, parameter, methods)
}

/// Puts the marks of an instance of an interface.
fn push_instance(
    alloc: Global,
    list: &mut Vec<Mark>,
    generics: &Vec<Generic<Parsed>>,
) -> Result<(), Memory>
    ensures { OnOk result (list.new.items ≡ list.old.items
        ++ enclosed (map generic_mark (generics_said generics.now.items))) }
{
    push_opens(list)?;
    push_generics(alloc, list, generics)?;
    push_closes(list)
}

/// Puts the marks of the methods of an instance.
fn push_method_bodies(
    alloc: Global,
    list: &mut Vec<Mark>,
    methods: &Vec<Method<Parsed>>,
) -> Result<(), Memory>
    ensures { OnOk result (list.new.items ≡ list.old.items
        ++ flat_map method_body_marks (methods_said methods.now.items)) }
{
    for one in methods {
        push_method_body(alloc, list, one)?;
    }
    Ok(())
}

/// Puts the marks of a method of an instance.
fn push_method_body(alloc: Global, list: &mut Vec<Mark>, one: &Method<Parsed>) -> Result<(), Memory>
    ensures { OnOk result (list.new.items ≡ list.old.items
        ++ method_body_marks (plain_method parsed.name_bytes (method_body parsed one.now))) }
{
    push_opens(list)?;
    push_fields(alloc, list, Kind::Values, &one.signature.parameters)?;
    push_closed(alloc, list, &one.body)
}

/// Puts the marks of an instance of a body.
fn push_instance_body(
    alloc: Global,
    list: &mut Vec<Mark>,
    generics: &Vec<Generic<Parsed>>,
    methods: &Vec<Method<Parsed>>,
) -> Result<(), Memory>
    ensures { OnOk result (list.new.items ≡ list.old.items
        ++ enclosed (map generic_mark (generics_said generics.now.items)
        ++ flat_map method_body_marks (methods_said methods.now.items))) }
{
    push_opens(list)?;
    push_generics(alloc, list, generics)?;
    push_method_bodies(alloc, list, methods)?;
    push_closes(list)
}

/// Puts the marks of a declaration.
fn push_marks(
    alloc: Global,
    list: &mut Vec<Mark>,
    part: Part,
    decl: &Decl<Parsed>,
) -> Result<(), Memory>
    ensures { OnOk result (list.new.items ≡ list.old.items
        ++ marks part (plain_declaration parsed.name_bytes (declaration parsed decl.now))) }
{
    match decl {
        Decl::Constant(_, name, _) => {
            push_declared(alloc, list, Role::Promise, Kind::Values, name)
        }
        Decl::Opaque(_, name, parameters, _) => push_opaque(alloc, list, name, parameters),
        Decl::Record(_, name, parameters, _, fields) => {
            push_record(alloc, list, part, name, parameters, fields)
        }
        Decl::Union(_, name, parameters, _, cases) => {
            push_union(alloc, list, part, name, parameters, cases)
        }
        Decl::Function(_, generics, signature) => push_function(alloc, list, generics, signature),
        Decl::Class(_, name, parameter, methods) => {
            push_class(alloc, list, name, parameter, methods)
        }
        Decl::Instance(_, generics, _, _) => push_instance(alloc, list, generics),
        Decl::ConstantBody(_, name, _, _) => {
            push_declared(alloc, list, Role::Definition, Kind::Values, name)
        }
        Decl::FunctionBody(_, generics, signature, body, _) => {
            push_function_body(alloc, list, generics, signature, body)
        }
        Decl::InstanceBody(_, generics, _, _, methods) => {
            push_instance_body(alloc, list, generics, methods)
        }
    }
}

/// What the text of a declaration of a part of a module says of names and of their scopes, in order: where
/// blocks begin and end, and which names are declared.
///
/// # Errors
///
/// Only for want of memory.
pub fn marks_of(alloc: Global, part: Part, decl: &Decl<Parsed>) -> Result<Vec<Mark>, Memory>
    ensures { IfOk result (λ found. found.items ≡ marks part
        (plain_declaration parsed.name_bytes (declaration parsed decl.now))) }
{
    let mut list = Vec::new(alloc);
    push_marks(alloc, &mut list, part, decl)?;
    Ok(list)
}
