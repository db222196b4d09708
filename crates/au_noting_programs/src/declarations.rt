//! Declarations with their notes.

ghost use Rattle.std.specs.Prelude.{map};
ghost use Rattle.au_typing.specs.ProgramSearch as spec;
ghost use Rattle.au_judgements.specs.Refusing.{Judges};
ghost use Rattle.au_sights.specs.contracts.noted.NotedPhase.TheImpl.{ghosts as noted};
ghost use Rattle.au_noting_programs.specs.Said.{declarations_said, methods_said};
ghost use Rattle.au_noting_programs.specs.Steps as steps;
ghost use Rattle.au_sights.specs.Sights.{outside_seen};
ghost use Rattle.au_syntax.specs.contracts.parsed.ParsedPhase.TheImpl.{ghosts as parsed};
ghost use Rattle.au_syntax.specs.Modules.{function_body, instance_body};
ghost use Rattle.au_syntax.specs.Views as views;

use crate::bodies::note_body;
use crate::constants::note_constant_body;
use crate::copies::Copied;
use crate::heads::{
    class, constant, copy_function, copy_instance, function, instance, opaque, record_type,
    union_type,
};
use crate::lists::put;
use au_base::Pos;
use au_judgements::Refused;
use au_sights::{Noted, Surroundings};
use au_syntax::{Block, Decl, Generic, Ident, Method, Parsed, Signature, TypeText};
use std::alloc::Global;

/// A function with the notes of its body.
fn note_function(
    alloc: Global,
    outside: &Surroundings,
    at: Pos,
    generics: &Vec<Generic<Parsed>>,
    signature: &Signature<Parsed>,
    body: &Block<Parsed>,
    stop: Pos,
) -> Result<Decl<Noted>, Refused>
    ensures { Judges (views.declaration noted) result (spec.note_declaration (outside_seen outside.now)
        (function_body at (map (views.constrained parsed) generics.now.items)
        (views.header parsed signature.now) (views.block parsed body.now) stop)) }
{
    let body = note_body(alloc, outside, at, generics, signature, body, stop)?;
    let (generics, signature) = copy_function(alloc, generics, signature)?;
    Ok(Decl::FunctionBody(at, generics, signature, body, stop))
}

/// A method of an instance with these type parameters, with the notes of its body.
fn note_method(
    alloc: Global,
    outside: &Surroundings,
    generics: &Vec<Generic<Parsed>>,
    one: &Method<Parsed>,
) -> Result<Method<Noted>, Refused>
    ensures { Judges (views.method_body noted) result (steps.note_method (outside_seen outside.now)
        (map (views.constrained parsed) generics.now.items) (views.method_body parsed one.now)) }
{
    let at = one.signature.name.at;
    let body = note_body(
        alloc,
        outside,
        at,
        generics,
        &one.signature,
        &one.body,
        one.end,
    )?;
    let signature = one.signature.copy(alloc)?;
    Ok(Method {
        signature,
        body,
        end: one.end,
    })
}

/// The methods of an instance with these type parameters, with the notes of their bodies.
fn note_methods(
    alloc: Global,
    outside: &Surroundings,
    generics: &Vec<Generic<Parsed>>,
    methods: &[Method<Parsed>],
) -> Result<Vec<Method<Noted>>, Refused>
    ensures { Judges methods_said result (spec.note_methods (outside_seen outside.now)
        (map (views.constrained parsed) generics.now.items)
        (map (views.method_body parsed) methods.now)) }
{
    let mut all = Vec::new(alloc);
    for one in methods {
        let made = note_method(alloc, outside, generics, one)?;
        put(&mut all, made)?;
    }
    Ok(all)
}

/// An instance with the notes of its methods.
fn note_instance(
    alloc: Global,
    outside: &Surroundings,
    at: Pos,
    generics: &Vec<Generic<Parsed>>,
    name: &Ident<Parsed>,
    of: &TypeText,
    methods: &Vec<Method<Parsed>>,
) -> Result<Decl<Noted>, Refused>
    ensures { Judges (views.declaration noted) result (spec.note_declaration (outside_seen outside.now)
        (instance_body at (map (views.constrained parsed) generics.now.items)
        (views.placed parsed name.now) (views.written of.now)
        (map (views.method_body parsed) methods.now.items))) }
{
    let methods = note_methods(alloc, outside, generics, methods.as_slice())?;
    let (generics, name, of) = copy_instance(alloc, generics, name, of)?;
    Ok(Decl::InstanceBody(at, generics, name, of, methods))
}

/// A declaration with the notes of its expressions.
fn note_declaration(
    alloc: Global,
    outside: &Surroundings,
    decl: &Decl<Parsed>,
) -> Result<Decl<Noted>, Refused>
    ensures { Judges (views.declaration noted) result
        (spec.note_declaration (outside_seen outside.now) (views.declaration parsed decl.now)) }
{
    match decl {
        Decl::Constant(at, name, of) => constant(alloc, *at, name, of),
        Decl::Opaque(at, name, parameters, universe) => {
            opaque(alloc, *at, name, parameters, *universe)
        }
        Decl::Record(at, name, parameters, universe, fields) => {
            record_type(alloc, *at, name, parameters, *universe, fields)
        }
        Decl::Union(at, name, parameters, universe, cases) => {
            union_type(alloc, *at, name, parameters, *universe, cases)
        }
        Decl::Function(at, generics, signature) => function(alloc, *at, generics, signature),
        Decl::Class(at, name, parameter, methods) => class(alloc, *at, name, parameter, methods),
        Decl::Instance(at, generics, name, of) => instance(alloc, *at, generics, name, of),
        Decl::ConstantBody(at, name, of, value) => {
            note_constant_body(alloc, outside, *at, name, of, value)
        }
        Decl::FunctionBody(at, generics, signature, body, stop) => {
            note_function(alloc, outside, *at, generics, signature, body, *stop)
        }
        Decl::InstanceBody(at, generics, name, of, methods) => {
            note_instance(alloc, outside, *at, generics, name, of, methods)
        }
    }
}

/// Declarations with the notes of their expressions, in order.
pub(crate) fn note_declarations(
    alloc: Global,
    outside: &Surroundings,
    declarations: &[Decl<Parsed>],
) -> Result<Vec<Decl<Noted>>, Refused>
    ensures { Judges declarations_said result (spec.note_declarations (outside_seen outside.now)
        (map (views.declaration parsed) declarations.now)) }
{
    let mut all = Vec::new(alloc);
    for one in declarations {
        let made = note_declaration(alloc, outside, one)?;
        put(&mut all, made)?;
    }
    Ok(all)
}
