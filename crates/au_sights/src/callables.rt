//! What is called.

ghost use Rattle.std.specs.Prelude.{◌≡◌, ◌∷◌, [], IfOk, Some, find, map};
ghost use Rattle.std.specs.Option.{option_copied, option_map};
ghost use Rattle.au_judged_types.specs.Meanings.{generics_meant, parameter};
ghost use Rattle.au_modules.specs.Slots as slots;
ghost use Rattle.au_names.specs.HeadsOf.{heads_of};
ghost use Rattle.au_names.specs.Methods.{methods_in};
ghost use Rattle.au_names.specs.Standing.{standing, standing_at, whole_name};
ghost use Rattle.au_names.specs.Walks.{written, written_parameter, written_parameters};
ghost use Rattle.au_typing.specs.Called as spec;
ghost use Rattle.au_typing.specs.Written.{types_at};
ghost use Rattle.au_promises.specs.Written.{generics_of, header_of};
ghost use Rattle.au_sights.specs.Sights.{callable_said};
ghost use Rattle.au_sights.specs.Steps.{Stands, variant_seen, variants_of};

use crate::called::Callable;
use crate::makers::{callable, maker, unconstrained};
use crate::standing::{type_there, types_seen};
use crate::typing::all_typed;
use au_base::{Memory, Name, Text};
use au_imports::Resolved;
use au_judged_types::{Generics, Meant, generics_of};
use au_names::parameters::parameter_of;
use au_names::{Declared, Target};
use au_syntax::{Decl, Generic, Parsed, Signature, TypeParameter, UnionCase};
use au_types::{DeclAt, Params};
use std::alloc::Global;

/// What has the parameters and the result of a header, over these type parameters, if they mean something.
fn by_header(
    alloc: Global,
    program: &Resolved,
    found: &Declared,
    generics: Generics,
    class: Option<(Name, DeclAt)>,
    one: &Signature<Parsed>,
) -> Result<Option<Callable>, Memory>
    requires { Stands (slots.modules program.now) (standing found.now) }
    ensures { IfOk result (λ made. option_map callable_said made
        ≡ spec.by_header (slots.modules program.now) (standing found.now) generics class
        (header_of one.now)) }
{
    let parameters = all_typed(alloc, program, found, generics.params(), &one.parameters)?;
    let gives = type_there(alloc, program, found, generics.params(), &one.result)?;
    Ok(callable(generics, class, parameters, gives))
}

/// A function, by what its type parameters mean.
fn by_generics(
    alloc: Global,
    program: &Resolved,
    found: &Declared,
    meant: Meant,
    one: &Signature<Parsed>,
) -> Result<Option<Callable>, Memory>
    requires { Stands (slots.modules program.now) (standing found.now) }
    ensures { IfOk result (λ made. option_map callable_said made
        ≡ spec.function_called (slots.modules program.now) (standing found.now) (header_of one.now) meant) }
{
    match meant {
        Meant::Are(generics) => by_header(alloc, program, found, generics, None, one),
        Meant::Fails(_) => Ok(None),
    }
}

/// A function with these type parameters, as they are written.
fn function_called(
    alloc: Global,
    program: &Resolved,
    found: &Declared,
    generics: &Vec<Generic<Parsed>>,
    one: &Signature<Parsed>,
) -> Result<Option<Callable>, Memory>
    requires { Stands (slots.modules program.now) (standing found.now) }
    ensures { IfOk result (λ made. option_map callable_said made
        ≡ spec.function_called (slots.modules program.now) (standing found.now) (header_of one.now)
        (generics_meant (types_at (slots.modules program.now) found.now.place found.now.part)
        (heads_of (slots.modules program.now)) (generics_of generics.now.items))) }
{
    let visible = types_seen(program, found);
    let meant = generics_of(alloc, visible, program.heads_ref(), generics)?;
    by_generics(alloc, program, found, meant, one)
}

/// The type parameter of a class, which no class constrains.
fn class_generics(alloc: Global, one: &TypeParameter<Parsed>) -> Result<Generics, Memory>
    ensures { IfOk result (λ made. made ≡ spec.unconstrained (parameter (written_parameter one.now)) ∷ []) }
{
    let param = parameter_of(alloc, one)?;
    let mut params = Params::new(alloc);
    params.push(param)?;
    unconstrained(alloc, params)
}

/// A method of the class with this number and this type parameter.
fn method_of(
    alloc: Global,
    program: &Resolved,
    found: &Declared,
    at: DeclAt,
    param: &TypeParameter<Parsed>,
    one: &Signature<Parsed>,
) -> Result<Option<Callable>, Memory>
    requires { Stands (slots.modules program.now) (standing found.now) }
    ensures { IfOk result (λ made. option_map callable_said made
        ≡ spec.method_called (slots.modules program.now) (standing found.now) at
        (parameter (written_parameter param.now)) (Some (header_of one.now))) }
{
    let name = param.name.name.copy(alloc)?;
    let generics = class_generics(alloc, param)?;
    by_header(alloc, program, found, generics, Some((name, at)), one)
}

/// A method of a class by its name, if there is one. It is found without a walk through the class.
fn method_called(
    alloc: Global,
    program: &Resolved,
    found: &Declared,
    target: &Target,
    param: &TypeParameter<Parsed>,
) -> Result<Option<Callable>, Memory>
    requires { standing_at (slots.modules program.now) target.now.at ≡ Some (standing found.now) }
    ensures { IfOk result (λ made. option_map callable_said made
        ≡ spec.method_called (slots.modules program.now) (standing found.now) target.now.at
        (parameter (written_parameter param.now))
        (find (spec.is_method target.now.name) (methods_in (written found.now.decl.now)))) }
{
    match program.method(target.at, &target.name) {
        None => Ok(None),
        Some(one) => method_of(alloc, program, found, target.at, param, one),
    }
}

/// The first case of a name, if there is one.
fn case_named<'a>(name: &Text, cases: &'a Vec<UnionCase<Parsed>>) -> Option<&'a UnionCase<Parsed>>
    ensures { variant_seen result ≡ find (spec.is_case name.now) (variants_of cases.now.items) }
{
    for one in cases {
        if name.as_bytes() == one.name.name.as_bytes() {
            return Some(one);
        }
    }
    None
}

/// A case of a union by its name, if there is one.
fn case_called(
    alloc: Global,
    program: &Resolved,
    found: &Declared,
    target: &Target,
    name: &Name,
    params: &Vec<TypeParameter<Parsed>>,
    cases: &Vec<UnionCase<Parsed>>,
) -> Result<Option<Callable>, Memory>
    requires stands { Stands (slots.modules program.now) (standing found.now) }
    requires named { whole_name (standing found.now).says ≡ Some name.now }
    ensures { IfOk result (λ made. option_map callable_said made
        ≡ spec.case_called (slots.modules program.now) (standing found.now) name.now
        (map parameter (written_parameters params.now.items))
        (find (spec.is_case target.now.name) (variants_of cases.now.items))) }
{
    match case_named(&target.name, cases) {
        None => Ok(None),
        Some(one) => maker(alloc, program, found, name, params, &one.fields),
    }
}

/// What a declaration declares under the name that means it, if that is called.
fn declared_callable(
    alloc: Global,
    program: &Resolved,
    found: &Declared,
    target: &Target,
) -> Result<Option<Callable>, Memory>
    requires { standing_at (slots.modules program.now) target.now.at ≡ Some (standing found.now) }
    ensures { IfOk result (λ made. option_map callable_said made
        ≡ spec.declared_callable (slots.modules program.now) (standing found.now) target.now.at
        target.now.name (written found.now.decl.now)) }
{
    match found.decl {
        Decl::Constant(_, _, _) => Ok(None),
        Decl::Opaque(_, _, _, _) => Ok(None),
        Decl::Record(_, name, params, _, fields) => {
            maker(alloc, program, found, &name.name, params, fields)
        }
        Decl::Union(_, name, params, _, cases) => {
            case_called(alloc, program, found, target, &name.name, params, cases)
        }
        Decl::Function(_, generics, one) => function_called(alloc, program, found, generics, one),
        Decl::Class(_, _, param, _) => method_called(alloc, program, found, target, param),
        Decl::Instance(_, _, _, _) => Ok(None),
        Decl::ConstantBody(_, _, _, _) => Ok(None),
        Decl::FunctionBody(_, generics, one, _, _) => {
            function_called(alloc, program, found, generics, one)
        }
        Decl::InstanceBody(_, _, _, _, _) => Ok(None),
    }
}

/// What is called that a name means, if its declaration is there.
pub(crate) fn callable_at(
    alloc: Global,
    program: &Resolved,
    target: &Target,
) -> Result<Option<Callable>, Memory>
    ensures { IfOk result (λ made. option_map callable_said made
        ≡ spec.callable_at (slots.modules program.now) (Some target.now)) }
{
    match program.declaration(target.at) {
        None => Ok(None),
        Some(found) => declared_callable(alloc, program, &found, target),
    }
}
