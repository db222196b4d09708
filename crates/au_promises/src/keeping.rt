//! Whether what defines a promise agrees with it.

ghost use Rattle.std.specs.Prelude.{◌≡◌, [], IfOk};
ghost use Rattle.au_promises.specs.Agreeing as agreeing;
ghost use Rattle.au_promises.specs.Promises as spec;
ghost use Rattle.au_promises.specs.Written.{declared_of, parameters_of, sight_in};
ghost use Rattle.au_syntax.specs.Views.{written};

use crate::agreeing::{same_function, same_generics, same_parameters, same_type, same_universe};
use crate::sights::Sight;
use au_base::Memory;
use au_syntax::{Decl, Parsed, TypeParameter, TypeText, Universe};
use au_types::Params;
use std::alloc::Global;

/// Whether a written type of the interface and one of the body mean one type without type parameters.
fn same_plain_type(
    alloc: Global,
    sight: &Sight,
    one: &TypeText,
    other: &TypeText,
) -> Result<bool, Memory>
    ensures { IfOk result (λ same. same ≡ agreeing.same_type (sight_in sight.now) []
        (written one.now) [] (written other.now)) }
{
    let none = Params::new(alloc);
    same_type(alloc, sight, &none, one, &none, other)
}

/// Whether type parameters and universes of two types are alike.
fn same_heading(
    list: &Vec<TypeParameter<Parsed>>,
    universe: Universe,
    others: &Vec<TypeParameter<Parsed>>,
    other: Universe,
) -> bool
    ensures { result ≡ spec.same_heading (parameters_of list.now.items) universe
        (parameters_of others.now.items) other }
{
    same_parameters(list, others) && same_universe(universe, other)
}

/// Whether what defines a promise agrees with it.
///
/// # Errors
///
/// Only for want of memory.
pub fn keeps(
    alloc: Global,
    sight: &Sight,
    promise: &Decl<Parsed>,
    decl: &Decl<Parsed>,
) -> Result<bool, Memory>
    ensures { IfOk result (λ kept. kept ≡ spec.keeps (sight_in sight.now) (declared_of promise.now)
        (declared_of decl.now)) }
{
    match (promise, decl) {
        (Decl::Constant(_, _, of), Decl::ConstantBody(_, _, its, _)) => {
            same_plain_type(alloc, sight, of, its)
        }
        (
            Decl::Opaque(_, _, list, universe),
            Decl::Record(_, _, others, other, _) | Decl::Union(_, _, others, other, _),
        ) => Ok(same_heading(list, *universe, others, *other)),
        (Decl::Function(_, list, one), Decl::FunctionBody(_, others, other, ..)) => {
            same_function(alloc, sight, list, one, others, other)
        }
        (Decl::Instance(_, list, ..), Decl::InstanceBody(_, others, ..)) => {
            Ok(same_generics(sight, list, others))
        }
        _ => Ok(false),
    }
}
