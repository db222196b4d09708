//! The fields of records and the cases of unions, as far as they are known in a module.

ghost use Rattle.std.specs.Prelude.{◌≡◌, IfOk, is_none, map};
ghost use Rattle.std.specs.Option.{option_map};
ghost use Rattle.au_modules.specs.Slots as slots;
ghost use Rattle.au_names.specs.Owned.{target};
ghost use Rattle.au_names.specs.Standing.{opaque_name, standing, standing_seen};
ghost use Rattle.au_names.specs.Walks.{written, written_parameters};
ghost use Rattle.au_judged_types.specs.Meanings.{parameter};
ghost use Rattle.au_typing.specs.Insides as spec;
ghost use Rattle.au_promises.specs.Written.{labels_of};
ghost use Rattle.au_sights.specs.Sights.{case_said};
ghost use Rattle.au_sights.specs.Steps as steps;
ghost use Rattle.au_sights.specs.Steps.{Stands, all_said, cases_said, variant_of, variants_of};
ghost use Rattle.au_types.specs.Views.{argument_all, meaning};

use crate::arguments::with_arguments;
use crate::called::{Case, Typed};
use crate::standing::number_of;
use crate::typing::fields_by;
use au_base::{Memory, Name, Text};
use au_imports::Resolved;
use au_matching::Substitution;
use au_names::parameters::params_of;
use au_names::{Declared, Target};
use au_syntax::{Decl, Field, Parsed, TypeParameter, UnionCase};
use au_types::{Arg, DeclAt, Params, Ty};
use std::alloc::Global;

/// Whether a declaration is no opaque type.
fn is_open(decl: &Decl<Parsed>) -> bool
    ensures { result ≡ is_none (opaque_name (written decl.now)) }
{
    match decl {
        Decl::Constant(_, _, _) => true,
        Decl::Opaque(_, _, _, _) => false,
        Decl::Record(_, _, _, _, _) => true,
        Decl::Union(_, _, _, _, _) => true,
        Decl::Function(_, _, _) => true,
        Decl::Class(_, _, _, _) => true,
        Decl::Instance(_, _, _, _) => true,
        Decl::ConstantBody(_, _, _, _) => true,
        Decl::FunctionBody(_, _, _, _, _) => true,
        Decl::InstanceBody(_, _, _, _, _) => true,
    }
}

/// The definition of a type that is known in the module at a place, if it is there.
fn known_definition(program: &Resolved, place: u16, at: DeclAt) -> Option<Declared<'_>>
    ensures { standing_seen result ≡ spec.known_definition (slots.modules program.now) place at }
{
    match program.declaration(at) {
        None => None,
        Some(found) => {
            if is_open(found.decl) || place == found.place {
                program.definition(at)
            } else {
                None
            }
        }
    }
}

/// The fields of a record with these type parameters, where they have these arguments, if all types of
/// fields mean something.
fn fields_under(
    alloc: Global,
    program: &Resolved,
    found: &Declared,
    parameters: &Vec<TypeParameter<Parsed>>,
    args: &Vec<Arg>,
    fields: &Vec<Field<Parsed>>,
) -> Result<Option<Vec<Typed>>, Memory>
    requires { Stands (slots.modules program.now) (standing found.now) }
    ensures { IfOk result (λ made. all_said made
        ≡ spec.fields_under (slots.modules program.now) (standing found.now)
        (map parameter (written_parameters parameters.now.items)) (argument_all args.now.items)
        (labels_of fields.now.items)) }
{
    let params = params_of(alloc, parameters)?;
    let s = with_arguments(alloc, &params, args)?;
    fields_by(alloc, program, found, &params, &s, fields)
}

/// The fields of a declaration with these arguments, if it is a record.
fn record_fields(
    alloc: Global,
    program: &Resolved,
    found: &Declared,
    args: &Vec<Arg>,
) -> Result<Option<Vec<Typed>>, Memory>
    requires { Stands (slots.modules program.now) (standing found.now) }
    ensures { IfOk result (λ made. all_said made
        ≡ spec.record_fields (slots.modules program.now) (standing found.now) (argument_all args.now.items)
        (written found.now.decl.now)) }
{
    match found.decl {
        Decl::Constant(_, _, _) => Ok(None),
        Decl::Opaque(_, _, _, _) => Ok(None),
        Decl::Record(_, _, params, _, fields) => {
            fields_under(alloc, program, found, params, args, fields)
        }
        Decl::Union(_, _, _, _, _) => Ok(None),
        Decl::Function(_, _, _) => Ok(None),
        Decl::Class(_, _, _, _) => Ok(None),
        Decl::Instance(_, _, _, _) => Ok(None),
        Decl::ConstantBody(_, _, _, _) => Ok(None),
        Decl::FunctionBody(_, _, _, _, _) => Ok(None),
        Decl::InstanceBody(_, _, _, _, _) => Ok(None),
    }
}

/// The fields of the type of this number with these arguments, if it is a record that is known in the module
/// at a place.
fn fields_defined(
    alloc: Global,
    program: &Resolved,
    place: u16,
    at: DeclAt,
    args: &Vec<Arg>,
) -> Result<Option<Vec<Typed>>, Memory>
    ensures { IfOk result (λ made. all_said made
        ≡ spec.fields_defined (slots.modules program.now) (argument_all args.now.items)
        (spec.known_definition (slots.modules program.now) place at)) }
{
    match known_definition(program, place, at) {
        None => Ok(None),
        Some(found) => record_fields(alloc, program, &found, args),
    }
}

/// The fields of a type, if it is a record that is known in the module at a place.
#[tactic(auto, using(au_types::proofs::TypeLemmas::type_steps))]
pub(crate) fn fields_of(
    alloc: Global,
    program: &Resolved,
    place: u16,
    of: &Ty,
) -> Result<Option<Vec<Typed>>, Memory>
    ensures { IfOk result (λ made. all_said made
        ≡ spec.fields_of (slots.modules program.now) place (meaning of.now)) }
{
    match of {
        Ty::Unit => Ok(None),
        Ty::Bool => Ok(None),
        Ty::Int(_) => Ok(None),
        Ty::Text => Ok(None),
        Ty::Param(_) => Ok(None),
        Ty::Named { of, args } => fields_defined(alloc, program, place, *of, args),
        Ty::Read { to: _, region: _ } => Ok(None),
        Ty::Write { to: _, region: _ } => Ok(None),
    }
}

/// What a name means that is declared in the declaration of this number.
fn target_of(alloc: Global, at: DeclAt, name: &Name) -> Result<Target, Memory>
    ensures { IfOk result (λ made. made ≡ target at.«module» name.now at.decl) }
{
    let name = Text::copy_of(alloc, name.as_bytes())?;
    Ok(Target { at, name })
}

/// A case of the union of this number under a substitution, if all types of its fields mean something.
fn case_by(
    alloc: Global,
    program: &Resolved,
    found: &Declared,
    params: &Params,
    s: &Substitution,
    at: DeclAt,
    one: &UnionCase<Parsed>,
) -> Result<Option<Case>, Memory>
    requires { Stands (slots.modules program.now) (standing found.now) }
    ensures { IfOk result (λ made. option_map case_said made
        ≡ steps.case_by (slots.modules program.now) (standing found.now) params.now s.now at
        (variant_of one.now)) }
{
    match fields_by(alloc, program, found, params, s, &one.fields)? {
        None => Ok(None),
        Some(fields) => {
            let target = target_of(alloc, at, &one.name.name)?;
            Ok(Some(Case { target, fields }))
        }
    }
}

/// Cases of the union of this number under a substitution, if all types of their fields mean something.
fn cases_by(
    alloc: Global,
    program: &Resolved,
    found: &Declared,
    params: &Params,
    s: &Substitution,
    at: DeclAt,
    cases: &Vec<UnionCase<Parsed>>,
) -> Result<Option<Vec<Case>>, Memory>
    requires { Stands (slots.modules program.now) (standing found.now) }
    ensures { IfOk result (λ made. cases_said made
        ≡ steps.cases_by (slots.modules program.now) (standing found.now) params.now s.now at
        (variants_of cases.now.items)) }
{
    let mut all = Vec::new(alloc);
    for one in cases {
        match case_by(alloc, program, found, params, s, at, one)? {
            None => return Ok(None),
            Some(made) => all.push(made)?,
        }
    }
    Ok(Some(all))
}

/// The cases of a union with these type parameters, where they have these arguments, if all types of fields
/// mean something.
fn cases_under(
    alloc: Global,
    program: &Resolved,
    found: &Declared,
    parameters: &Vec<TypeParameter<Parsed>>,
    args: &Vec<Arg>,
    cases: &Vec<UnionCase<Parsed>>,
) -> Result<Option<Vec<Case>>, Memory>
    requires { Stands (slots.modules program.now) (standing found.now) }
    ensures { IfOk result (λ made. cases_said made
        ≡ spec.cases_under (slots.modules program.now) (standing found.now)
        (map parameter (written_parameters parameters.now.items)) (argument_all args.now.items)
        (variants_of cases.now.items)) }
{
    let params = params_of(alloc, parameters)?;
    let s = with_arguments(alloc, &params, args)?;
    let at = DeclAt {
        module: found.place,
        decl: number_of(program, found),
    };
    cases_by(alloc, program, found, &params, &s, at, cases)
}

/// The cases of a declaration with these arguments, if it is a union.
fn union_cases(
    alloc: Global,
    program: &Resolved,
    found: &Declared,
    args: &Vec<Arg>,
) -> Result<Option<Vec<Case>>, Memory>
    requires { Stands (slots.modules program.now) (standing found.now) }
    ensures { IfOk result (λ made. cases_said made
        ≡ spec.union_cases (slots.modules program.now) (standing found.now) (argument_all args.now.items)
        (written found.now.decl.now)) }
{
    match found.decl {
        Decl::Constant(_, _, _) => Ok(None),
        Decl::Opaque(_, _, _, _) => Ok(None),
        Decl::Record(_, _, _, _, _) => Ok(None),
        Decl::Union(_, _, params, _, cases) => cases_under(
            alloc, program, found, params, args, cases,
        ),
        Decl::Function(_, _, _) => Ok(None),
        Decl::Class(_, _, _, _) => Ok(None),
        Decl::Instance(_, _, _, _) => Ok(None),
        Decl::ConstantBody(_, _, _, _) => Ok(None),
        Decl::FunctionBody(_, _, _, _, _) => Ok(None),
        Decl::InstanceBody(_, _, _, _, _) => Ok(None),
    }
}

/// The cases of the type of this number with these arguments, if it is a union that is known in the module at
/// a place.
fn cases_defined(
    alloc: Global,
    program: &Resolved,
    place: u16,
    at: DeclAt,
    args: &Vec<Arg>,
) -> Result<Option<Vec<Case>>, Memory>
    ensures { IfOk result (λ made. cases_said made
        ≡ spec.cases_defined (slots.modules program.now) (argument_all args.now.items)
        (spec.known_definition (slots.modules program.now) place at)) }
{
    match known_definition(program, place, at) {
        None => Ok(None),
        Some(found) => union_cases(alloc, program, &found, args),
    }
}

/// The cases of a type, if it is a union that is known in the module at a place.
#[tactic(auto, using(au_types::proofs::TypeLemmas::type_steps))]
pub(crate) fn cases_of(
    alloc: Global,
    program: &Resolved,
    place: u16,
    of: &Ty,
) -> Result<Option<Vec<Case>>, Memory>
    ensures { IfOk result (λ made. cases_said made
        ≡ spec.cases_of (slots.modules program.now) place (meaning of.now)) }
{
    match of {
        Ty::Unit => Ok(None),
        Ty::Bool => Ok(None),
        Ty::Int(_) => Ok(None),
        Ty::Text => Ok(None),
        Ty::Param(_) => Ok(None),
        Ty::Named { of, args } => cases_defined(alloc, program, place, *of, args),
        Ty::Read { to: _, region: _ } => Ok(None),
        Ty::Write { to: _, region: _ } => Ok(None),
    }
}
