//! The types of constants.

ghost use Rattle.std.specs.Prelude.{◌≡◌, [], IfOk};
ghost use Rattle.std.specs.Option.{option_map};
ghost use Rattle.au_modules.specs.Slots as slots;
ghost use Rattle.au_names.specs.Standing.{standing, standing_at};
ghost use Rattle.au_names.specs.Walks as walks;
ghost use Rattle.au_typing.specs.Outsides.{constant_declared, constant_standing};
ghost use Rattle.au_typing.specs.Written.{meant_in};
ghost use Rattle.au_sights.specs.Steps.{Stands};
ghost use Rattle.au_syntax.specs.Views.{written};
ghost use Rattle.au_types.specs.Views.{meaning};

use crate::standing::type_there;
use au_base::Memory;
use au_imports::Resolved;
use au_names::Declared;
use au_syntax::{Decl, TypeText};
use au_types::{DeclAt, Params, Ty};
use std::alloc::Global;

/// What a type means that is written in a declaration without type parameters, if it means anything.
fn closed_type(
    alloc: Global,
    program: &Resolved,
    found: &Declared,
    node: &TypeText,
) -> Result<Option<Ty>, Memory>
    requires { Stands (slots.modules program.now) (standing found.now) }
    ensures { IfOk result (λ of. option_map meaning of
        ≡ meant_in (slots.modules program.now) (standing found.now) [] (written node.now)) }
{
    let none = Params::new(alloc);
    type_there(alloc, program, found, &none, node)
}

/// The type of a declaration, if it is a constant.
fn constant_declared(
    alloc: Global,
    program: &Resolved,
    found: &Declared,
) -> Result<Option<Ty>, Memory>
    requires { Stands (slots.modules program.now) (standing found.now) }
    ensures { IfOk result (λ of. option_map meaning of
        ≡ constant_declared (slots.modules program.now) (standing found.now)
        (walks.written found.now.decl.now)) }
{
    match found.decl {
        Decl::Constant(_, _, of) => closed_type(alloc, program, found, of),
        Decl::Opaque(_, _, _, _) => Ok(None),
        Decl::Record(_, _, _, _, _) => Ok(None),
        Decl::Union(_, _, _, _, _) => Ok(None),
        Decl::Function(_, _, _) => Ok(None),
        Decl::Class(_, _, _, _) => Ok(None),
        Decl::Instance(_, _, _, _) => Ok(None),
        Decl::ConstantBody(_, _, of, _) => closed_type(alloc, program, found, of),
        Decl::FunctionBody(_, _, _, _, _) => Ok(None),
        Decl::InstanceBody(_, _, _, _, _) => Ok(None),
    }
}

/// The type of the declaration with this module and number, if it is a constant.
pub(crate) fn constant_standing(
    alloc: Global,
    program: &Resolved,
    at: DeclAt,
) -> Result<Option<Ty>, Memory>
    ensures { IfOk result (λ of. option_map meaning of
        ≡ constant_standing (slots.modules program.now) (standing_at (slots.modules program.now) at)) }
{
    match program.declaration(at) {
        None => Ok(None),
        Some(found) => constant_declared(alloc, program, &found),
    }
}
