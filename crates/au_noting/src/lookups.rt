//! What names, parts and written types mean in a scope.

ghost use Rattle.std.specs.Prelude.{◌≡◌, Some, IfOk};
ghost use Rattle.std.specs.Option.{option_map, option_copied};
ghost use Rattle.au_noting.specs.Giving.{Gives};
ghost use Rattle.au_noting.specs.Said.{all_typed, fields_said};
ghost use Rattle.au_noting.specs.Scopes.{scope_said};
ghost use Rattle.au_noting.specs.Variables.{variable_said};
ghost use Rattle.au_sights.specs.Sights.{callable_said};
ghost use Rattle.au_syntax.specs.Views.{written};
ghost use Rattle.au_types.specs.Views.{meaning};
ghost use Rattle.au_typing.specs.Faults as faults;
ghost use Rattle.au_typing.specs.Lookups as spec;

use crate::faults::{Fault, ill_formed, other_form, unknown};
use crate::scopes::Scope;
use au_base::{Memory, Name};
use au_judged_types::{Judged, judge_type};
use au_matching::{takes, universe_of};
use au_sights::surroundings::{callable, constant, fields};
use au_sights::{Callable, Form, Typed};
use au_syntax::{Ident, Parsed, TypeText, Universe};
use au_types::{Ty, copy_type};
use au_typing::Variable;
use std::alloc::Global;

/// The innermost variable of a name, if there is one.
pub fn variable_of<'s>(scope: &'s Scope, name: &Name) -> Option<&'s Variable>
    ensures { option_map variable_said (option_copied result)
        ≡ spec.variable_of (scope_said scope.now) name.now }
{
    scope.variables.get(name)
}

/// The type of a variable, if there is one of the name.
pub fn variable_type<'s>(scope: &'s Scope, name: &Name) -> Option<&'s Ty>
    ensures { option_map meaning (option_copied result)
        ≡ spec.variable_type (scope_said scope.now) name.now }
{
    match variable_of(scope, name) {
        Some(one) => Some(&one.of),
        None => None,
    }
}

/// The type of a variable.
///
/// # Errors
///
/// That no variable has the name.
pub fn known_variable<'s>(alloc: Global, scope: &'s Scope, name: &Name) -> Result<&'s Ty, Fault>
    ensures { Gives (λ of. meaning of.now) result
        (faults.known_or (faults.unknown name.now) (spec.variable_type (scope_said scope.now) name.now)) }
{
    match variable_type(scope, name) {
        Some(of) => Ok(of),
        None => Err(unknown(alloc, name)),
    }
}

/// The type of what a name means among values, if it means anything there: of a variable, and else of a
/// constant.
///
/// # Errors
///
/// Only for want of memory.
pub fn value_type(alloc: Global, scope: &Scope, name: &Name) -> Result<Option<Ty>, Memory>
    ensures { IfOk result (λ found. option_map meaning found
        ≡ spec.value_type (scope_said scope.now) name.now) }
{
    match variable_type(scope, name) {
        Some(of) => Ok(Some(copy_type(alloc, of)?)),
        None => constant(alloc, &scope.outside, name),
    }
}

/// The type of what a name means among values.
///
/// # Errors
///
/// That the name means nothing there.
pub fn known_value(alloc: Global, scope: &Scope, name: &Name) -> Result<Ty, Fault>
    ensures { Gives meaning result
        (faults.known_or (faults.unknown name.now) (spec.value_type (scope_said scope.now) name.now)) }
{
    match value_type(alloc, scope, name)? {
        Some(of) => Ok(of),
        None => Err(unknown(alloc, name)),
    }
}

/// What a name means that is called.
///
/// # Errors
///
/// That the name means nothing there.
pub fn called(alloc: Global, scope: &Scope, name: &Name) -> Result<Callable, Fault>
    ensures { Gives callable_said result
        (faults.known_or (faults.unknown name.now) ((scope_said scope.now).outside.callable name.now)) }
{
    match callable(alloc, &scope.outside, name)? {
        Some(one) => Ok(one),
        None => Err(unknown(alloc, name)),
    }
}

/// Whether a type is Free in a scope.
pub fn is_free_in(scope: &Scope, of: &Ty) -> bool
    ensures { result ≡ spec.is_free_in (scope_said scope.now) (meaning of.now) }
{
    let heads = scope.outside.program.heads_ref();
    takes(
        Universe::Free,
        universe_of(heads, scope.bounds.params(), of),
    )
}

/// The type of what has a name among fields or parameters, if one has it.
pub fn type_of_name<'t>(name: &Name, all: &'t [Typed]) -> Option<&'t Ty>
    ensures { option_map meaning (option_copied result) ≡ spec.type_of_name name.now (all_typed all.now) }
{
    for one in all {
        if one.name.as_bytes() == name.as_bytes() {
            return Some(&one.of);
        }
    }
    None
}

/// The type of a field of a type, if it has the field.
///
/// # Errors
///
/// Only for want of memory.
pub fn field_type(alloc: Global, scope: &Scope, of: &Ty, name: &Name) -> Result<Option<Ty>, Memory>
    ensures { IfOk result (λ found. option_map meaning found
        ≡ spec.field_type (scope_said scope.now) (meaning of.now) name.now) }
{
    match fields(alloc, &scope.outside, of)? {
        Some(all) => copy_found(alloc, type_of_name(name, all.as_slice())),
        None => Ok(None),
    }
}

/// A type that means the same, if there is one.
pub(crate) fn copy_found(alloc: Global, found: Option<&Ty>) -> Result<Option<Ty>, Memory>
    ensures { IfOk result (λ copy. option_map meaning copy ≡ option_map meaning (option_copied found.entry)) }
{
    match found {
        Some(of) => Ok(Some(copy_type(alloc, of)?)),
        None => Ok(None),
    }
}

/// The type of a field of a type.
///
/// # Errors
///
/// That the type has no such field.
fn known_field(alloc: Global, scope: &Scope, of: &Ty, name: &Name) -> Result<Ty, Fault>
    ensures { Gives meaning result (faults.known_or (faults.unknown name.now)
        (spec.field_type (scope_said scope.now) (meaning of.now) name.now)) }
{
    match field_type(alloc, scope, of, name)? {
        Some(next) => Ok(next),
        None => Err(unknown(alloc, name)),
    }
}

/// The type of a part of a type.
///
/// # Errors
///
/// The first name that is no field.
fn part_type(alloc: Global, scope: &Scope, of: Ty, path: &[Ident<Parsed>]) -> Result<Ty, Fault>
    ensures { Gives meaning result
        (spec.part_type (scope_said scope.now) (meaning of) (fields_said path.now)) }
{
    let mut part = of;
    for field in path {
        part = known_field(alloc, scope, &part, &field.name)?;
    }
    Ok(part)
}

/// The type of a part of a record.
///
/// # Errors
///
/// That the type is no record that is known there, or the first name that is no field.
pub fn record_part(
    alloc: Global,
    scope: &Scope,
    of: &Ty,
    path: &[Ident<Parsed>],
) -> Result<Ty, Fault>
    ensures { Gives meaning result
        (spec.record_part (scope_said scope.now) (meaning of.now) (fields_said path.now)) }
{
    match fields(alloc, &scope.outside, of)? {
        Some(all) => part_within(alloc, scope, of, all.as_slice(), path),
        None => Err(other_form(Form::Record)),
    }
}

/// The type of a part of a record with these fields.
///
/// # Errors
///
/// The first name that is no field.
fn part_within(
    alloc: Global,
    scope: &Scope,
    of: &Ty,
    all: &[Typed],
    path: &[Ident<Parsed>],
) -> Result<Ty, Fault>
    requires { (scope_said scope.now).outside.fields (meaning of.now) ≡ Some (all_typed all.now) }
    ensures { Gives meaning result
        (spec.part_type (scope_said scope.now) (meaning of.now) (fields_said path.now)) }
{
    match path.split_first() {
        Some((first, rest)) => {
            let next = known_among(alloc, all, &first.name)?;
            part_type(alloc, scope, next, rest)
        }
        None => Ok(copy_type(alloc, of)?),
    }
}

/// The type of what has a name among fields.
///
/// # Errors
///
/// That nothing has the name.
fn known_among(alloc: Global, all: &[Typed], name: &Name) -> Result<Ty, Fault>
    ensures { Gives meaning result
        (faults.known_or (faults.unknown name.now) (spec.type_of_name name.now (all_typed all.now))) }
{
    match type_of_name(name, all) {
        Some(of) => Ok(copy_type(alloc, of)?),
        None => Err(unknown(alloc, name)),
    }
}

/// The type behind a reference, if the type is one.
#[tactic(auto, using(au_types::proofs::TypeLemmas::type_steps))]
pub fn target_behind(of: &Ty) -> Option<&Ty>
    ensures { option_map meaning (option_copied result) ≡ spec.target_behind (meaning of.now) }
{
    match of {
        Ty::Read { to, .. } => Some(to),
        Ty::Write { to, .. } => Some(to),
        Ty::Unit => None,
        Ty::Bool => None,
        Ty::Int(_) => None,
        Ty::Text => None,
        Ty::Param(_) => None,
        Ty::Named { .. } => None,
    }
}

/// The type behind a reference.
///
/// # Errors
///
/// That a reference is wanted.
pub fn known_behind(of: &Ty) -> Result<&Ty, Fault>
    ensures { Gives (λ target. meaning target.now) result
        (faults.known_or (faults.shape faults.reference_wanted) (spec.target_behind (meaning of.now))) }
{
    match target_behind(of) {
        Some(target) => Ok(target),
        None => Err(other_form(Form::Reference)),
    }
}

/// The type that a written type means in a scope.
///
/// # Errors
///
/// Why it isn't well formed.
pub fn written_type(alloc: Global, scope: &Scope, text: &TypeText) -> Result<Ty, Fault>
    ensures { Gives meaning result (spec.written_type (scope_said scope.now) (written text.now)) }
{
    match judge_type(alloc, &scope.written(), text)? {
        Judged::Means(of) => Ok(of),
        Judged::Fails(why) => Err(ill_formed(why)),
    }
}
