//! Whether the methods of an instance are those of its class.

ghost use Rattle.std.specs.Prelude.{◌≡◌, ◌∷◌, [], IfOk};
ghost use Rattle.au_classes.specs.Methods as spec;
ghost use Rattle.au_classes.specs.Signatures.{given, head_for, wanted};
ghost use Rattle.au_classes.specs.Views.{class_said, headers_of};
ghost use Rattle.au_judged_types.specs.Meanings as generics;
ghost use Rattle.au_classes.specs.InstanceViews.{methods_of};
ghost use Rattle.au_promises.specs.Written.{parameter_of};
ghost use Rattle.au_types.specs.Views.{meaning};

use crate::class_texts::ClassText;
use crate::methods::are_defined;
use au_base::Memory;
use au_matching::Substitution;
use au_syntax::{Method, Parsed, TypeParameter};
use au_types::{Arg, DeclAt, Heads, Parameter, Params, Scope, Table, Ty, copy_type};
use std::alloc::Global;

/// The type parameter of a class, as a scope has it.
fn params_of(alloc: Global, one: &TypeParameter<Parsed>) -> Result<Params, Memory>
    ensures { IfOk result (λ params. params ≡ generics.parameter (parameter_of one.now) ∷ []) }
{
    let universe = one.universe;
    let name = one.name.name.copy(alloc)?;
    let mut params = Params::new(alloc);
    params.push(Parameter { name, universe })?;
    Ok(params)
}

/// The head of an instance for the parameter of its class.
fn substitution_of(alloc: Global, class: &ClassText, head: &Ty) -> Result<Substitution, Memory>
    ensures { IfOk result (λ s. s ≡ head_for (class_said class.now) (meaning head.now)) }
{
    let head = copy_type(alloc, head)?;
    let name = class.parameter.name.name.copy(alloc)?;
    let mut s = Substitution::new(alloc);
    s.put(name, Arg::Of(head))?;
    Ok(s)
}

/// Whether methods are exactly those of a class, in any order: none is missing, none is added, and each has
/// the signature, names of parameters included, that the class's method has with the head of the instance
/// in the place of the class's parameter. Types are compared by what they mean, those of the instance with
/// its type parameters where these names are seen.
///
/// # Errors
///
/// Only for want of memory.
pub fn are_methods(
    alloc: Global,
    heads: &Heads,
    class: &ClassText,
    head: &Ty,
    names: &Table<DeclAt>,
    params: &Params,
    methods: &Vec<Method<Parsed>>,
) -> Result<bool, Memory>
    ensures { IfOk result (λ are. are
        ≡ spec.are_methods (wanted heads.now (class_said class.now) (meaning head.now))
        (given heads.now names.now params.now)
        (headers_of class.now.methods.now.items) (methods_of methods.now.items)) }
{
    let parameter = params_of(alloc, class.parameter)?;
    let s = substitution_of(alloc, class, head)?;
    let scope = Scope {
        regions: &[],
        params: &parameter,
        names: class.visible,
        heads,
    };
    let own = Scope {
        regions: &[],
        params,
        names,
        heads,
    };
    are_defined(alloc, &scope, &s, &own, class.methods, methods)
}
