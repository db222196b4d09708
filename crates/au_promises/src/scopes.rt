//! The type parameters of declarations.

ghost use Rattle.std.specs.Prelude.{◌≡◌, ◌∷◌, [], IfOk, map};
ghost use Rattle.au_names.specs.HeadsOf.{parameter};
ghost use Rattle.au_promises.specs.Mentions as spec;
ghost use Rattle.au_promises.specs.Said.{generics_said};
ghost use Rattle.au_syntax.specs.Plain.{plain_declaration, plain_in_universe};
ghost use Rattle.au_syntax.specs.Views.{declaration, in_universe};
ghost use Rattle.au_syntax.specs.contracts.parsed.ParsedPhase.TheImpl.{ghosts as parsed};

use au_base::Memory;
use au_names::parameters::{parameter_of, params_of};
use au_syntax::{Decl, Generic, Parsed, TypeParameter};
use au_types::Params;
use std::alloc::Global;

/// Type parameters behind `generic`.
fn generic_params_of(alloc: Global, list: &Vec<Generic<Parsed>>) -> Result<Params, Memory>
    ensures { IfOk result (λ params. params ≡ map spec.generic_parameter (generics_said list.now.items)) }
{
    let mut params = Params::new(alloc);
    for one in list {
        params.push(parameter_of(alloc, &one.parameter)?)?;
    }
    Ok(params)
}

/// The type parameter of a class, alone.
fn alone(alloc: Global, one: &TypeParameter<Parsed>) -> Result<Params, Memory>
    ensures { IfOk result (λ params. params
        ≡ parameter (plain_in_universe parsed.name_bytes (in_universe parsed one.now)) ∷ []) }
{
    let mut params = Params::new(alloc);
    params.push(parameter_of(alloc, one)?)?;
    Ok(params)
}

/// The type parameters of a declaration, in order. They are in scope in all of it.
///
/// # Errors
///
/// Only for want of memory.
pub fn type_parameters(alloc: Global, decl: &Decl<Parsed>) -> Result<Params, Memory>
    ensures { IfOk result (λ params. params
        ≡ spec.type_parameters (plain_declaration parsed.name_bytes (declaration parsed decl.now))) }
{
    match decl {
        Decl::Opaque(_, _, list, _)
        | Decl::Record(_, _, list, _, _)
        | Decl::Union(_, _, list, _, _) => params_of(alloc, list),
        Decl::Class(_, _, one, _) => alone(alloc, one),
        Decl::Function(_, generics, _)
        | Decl::FunctionBody(_, generics, _, _, _)
        | Decl::Instance(_, generics, _, _)
        | Decl::InstanceBody(_, generics, _, _, _) => generic_params_of(alloc, generics),
        Decl::Constant(_, _, _) | Decl::ConstantBody(_, _, _, _) => Ok(Params::new(alloc)),
    }
}
