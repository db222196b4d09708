//! The bodies of functions and methods.

ghost use Rattle.std.specs.Prelude.{◌≡◌, IfOk, find, map};
ghost use Rattle.std.specs.Option.{option_map};
ghost use Rattle.au_closing.specs.Bodies as spec;
ghost use Rattle.au_closed_programs.specs.Defined.{AllDefined, body_said, method_seen};
ghost use Rattle.au_modules.specs.Slots as slots;
ghost use Rattle.au_sights.specs.contracts.noted.NotedPhase.TheImpl.{ghosts as noted};
ghost use Rattle.au_noting_programs.specs.Said.{modules_said};
ghost use Rattle.au_syntax.specs.Views as trees;

use crate::defining::defining;
use au_base::{Memory, Text};
use au_imports::Resolved;
use au_names::Target;
use au_noting_programs::NotedModule;
use au_promises::definitions::Definitions;
use au_sights::Noted;
use au_syntax::{Block, Decl, Generic, Method, Signature};
use std::alloc::Global;

/// A body.
#[derive(Clone, Copy)]
pub struct Body<'a> {
    /// The place of its module.
    pub place: u16,
    /// The type parameters that are in scope.
    pub generics: &'a Vec<Generic<Noted>>,
    /// The name, the parameters and the result of the function or method.
    pub signature: &'a Signature<Noted>,
    /// The block.
    pub block: &'a Block<Noted>,
}

/// The first method of a name, if there is one.
fn method_named<'a>(name: &Text, methods: &'a Vec<Method<Noted>>) -> Option<&'a Method<Noted>>
    ensures { method_seen result
        ≡ find (spec.is_method name.now) (map (trees.method_body noted) methods.now.items) }
{
    for one in methods {
        if name.as_bytes() == one.signature.name.name.as_bytes() {
            return Some(one);
        }
    }
    None
}

/// The body of the first method of a name of an instance of the module at a place, if there is one.
fn method_in<'a>(
    place: u16,
    name: &Text,
    generics: &'a Vec<Generic<Noted>>,
    methods: &'a Vec<Method<Noted>>,
) -> Option<Body<'a>>
    ensures { option_map body_said result
        ≡ option_map (spec.method_body place (map (trees.constrained noted) generics.now.items))
        (find (spec.is_method name.now) (map (trees.method_body noted) methods.now.items)) }
{
    match method_named(name, methods) {
        None => None,
        Some(one) => Some(Body {
            place,
            generics,
            signature: &one.signature,
            block: &one.body,
        }),
    }
}

/// The body that a declaration of the module at a place has under a name: a function's, or that of a method
/// of an instance.
fn body_in<'a>(place: u16, name: &Text, decl: &'a Decl<Noted>) -> Option<Body<'a>>
    ensures { option_map body_said result ≡ spec.body_in place name.now (trees.declaration noted decl.now) }
{
    match decl {
        Decl::Constant(_, _, _) => None,
        Decl::Opaque(_, _, _, _) => None,
        Decl::Record(_, _, _, _, _) => None,
        Decl::Union(_, _, _, _, _) => None,
        Decl::Function(_, _, _) => None,
        Decl::Class(_, _, _, _) => None,
        Decl::Instance(_, _, _, _) => None,
        Decl::ConstantBody(_, _, _, _) => None,
        Decl::FunctionBody(_, generics, signature, block, _) => Some(Body {
            place,
            generics,
            signature,
            block,
        }),
        Decl::InstanceBody(_, generics, _, _, methods) => {
            method_in(place, name, generics, methods)
        }
    }
}

/// The body of a function or method, by its declaration and its name, if it is there. These are the
/// definitions of the bodies of all modules.
///
/// # Errors
///
/// Only for want of memory.
pub fn body_of<'a>(
    alloc: Global,
    program: &Resolved,
    all: &Vec<Definitions>,
    modules: &'a [NotedModule],
    target: &Target,
) -> Result<Option<Body<'a>>, Memory>
    requires { AllDefined (slots.modules program.now) all.now.items }
    ensures { IfOk result (λ found.
        option_map body_said found
        ≡ spec.body_of (slots.modules program.now) (modules_said modules.now) target.now) }
{
    let Some(found) = program.declaration(target.at) else {
        return Ok(None);
    };
    match defining(alloc, program, all, modules, &found)? {
        None => Ok(None),
        Some(decl) => Ok(body_in(found.place, &target.name, decl)),
    }
}
