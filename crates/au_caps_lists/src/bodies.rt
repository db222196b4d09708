//! The functions and methods of a program that have bodies.

ghost use Rattle.std.specs.Prelude.{◌≡◌, ◌++◌, ◌∷◌, [], IfOk, OnOk, map};
ghost use Rattle.std.specs.List.{flat_map};
ghost use Rattle.std.specs.Option.{option_copied};
ghost use Rattle.au_caps_lists.specs.Bodies as spec;
ghost use Rattle.au_caps_lists.specs.Views.{bodies_said, body_said, home_said};
ghost use Rattle.au_noting_programs.specs.Said.{modules_said, part_said};
ghost use Rattle.au_sights.specs.contracts.noted.NotedPhase.TheImpl.{ghosts as noted};
ghost use Rattle.au_syntax.specs.Views.{constrained, declaration, method_body};

use au_base::Memory;
use au_noting_programs::{NotedFile, NotedModule};
use au_sights::Noted;
use au_syntax::{Block, Decl, Generic, Ident, Method, Signature, TypeText};
use std::alloc::Global;

/// The instance that a method is of.
#[derive(Clone, Copy)]
pub struct Home<'a> {
    /// Its class.
    pub class: &'a Ident<Noted>,
    /// The type that it is for.
    pub of: &'a TypeText,
}

/// A function or method with its body.
#[derive(Clone, Copy)]
pub struct Body<'a> {
    /// The place of its module.
    pub place: usize,
    /// The instance that it is a method of, if it is one.
    pub home: Option<Home<'a>>,
    /// Its type parameters, which a method has of its instance.
    pub generics: &'a Vec<Generic<Noted>>,
    /// Its name, parameters and result.
    pub signature: &'a Signature<Noted>,
    /// What it does.
    pub block: &'a Block<Noted>,
}

/// Puts one more.
fn push_body<'a>(made: &mut Vec<Body<'a>>, one: Body<'a>) -> Result<(), Memory>
    ensures { OnOk result (bodies_said made.new.items ≡ bodies_said made.old.items ++ body_said one.entry ∷
        []) }
{
    made.push(one)?;
    Ok(())
}

/// Puts the methods of an instance.
fn push_methods<'a>(
    made: &mut Vec<Body<'a>>,
    place: usize,
    home: Home<'a>,
    generics: &'a Vec<Generic<Noted>>,
    methods: &'a Vec<Method<Noted>>,
) -> Result<(), Memory>
    ensures { OnOk result (bodies_said made.new.items
        ≡ bodies_said made.old.items ++ map
        (spec.method_bodied place (home_said home.entry) (map (constrained noted) generics.now.items))
        (map (method_body noted) methods.now.items)) }
{
    for one in methods {
        let one = Body {
            place,
            home: Some(home),
            generics,
            signature: &one.signature,
            block: &one.body,
        };
        push_body(made, one)?;
    }
    Ok(())
}

/// Puts what a declaration has bodies of.
fn push_declaration<'a>(
    made: &mut Vec<Body<'a>>,
    place: usize,
    decl: &'a Decl<Noted>,
) -> Result<(), Memory>
    ensures { OnOk result (bodies_said made.new.items
        ≡ bodies_said made.old.items ++ spec.bodied_in place (declaration noted decl.now)) }
{
    match decl {
        Decl::Constant(_, _, _) => Ok(()),
        Decl::Opaque(_, _, _, _) => Ok(()),
        Decl::Record(_, _, _, _, _) => Ok(()),
        Decl::Union(_, _, _, _, _) => Ok(()),
        Decl::Function(_, _, _) => Ok(()),
        Decl::Class(_, _, _, _) => Ok(()),
        Decl::Instance(_, _, _, _) => Ok(()),
        Decl::ConstantBody(_, _, _, _) => Ok(()),
        Decl::FunctionBody(_, generics, signature, block, _) => {
            let one = Body {
                place,
                home: None,
                generics,
                signature,
                block,
            };
            push_body(made, one)
        }
        Decl::InstanceBody(_, generics, class, of, methods) => {
            push_methods(made, place, Home { class, of }, generics, methods)
        }
    }
}

/// Puts those of declarations.
fn push_declarations<'a>(
    made: &mut Vec<Body<'a>>,
    place: usize,
    all: &'a Vec<Decl<Noted>>,
) -> Result<(), Memory>
    ensures { OnOk result (bodies_said made.new.items
        ≡ bodies_said made.old.items
        ++ flat_map (spec.bodied_in place) (map (declaration noted) all.now.items)) }
{
    for one in all {
        push_declaration(made, place, one)?;
    }
    Ok(())
}

/// Puts those of a file, if it is there.
fn push_file<'a>(
    made: &mut Vec<Body<'a>>,
    place: usize,
    file: Option<&'a NotedFile>,
) -> Result<(), Memory>
    ensures { OnOk result (bodies_said made.new.items
        ≡ bodies_said made.old.items ++ spec.bodied_of_file place (part_said (option_copied file.entry))) }
{
    match file {
        None => Ok(()),
        Some(file) => push_declarations(made, place, &file.tree.declarations),
    }
}

/// The functions and methods of modules that have bodies: modules by their places, and each in the order of
/// the text.
///
/// # Errors
///
/// Only for want of memory.
pub fn bodies_of(alloc: Global, modules: &[NotedModule]) -> Result<Vec<Body<'_>>, Memory>
    ensures { IfOk result (λ made. bodies_said made.items ≡ spec.all_bodied (modules_said modules.now)) }
{
    let mut made = Vec::new(alloc);
    for (place, one) in modules.iter().enumerate() {
        push_file(&mut made, place, one.body.as_ref())?;
    }
    Ok(made)
}
