//! What may be assigned to.

ghost use Rattle.std.specs.Prelude.{◌≡◌};
ghost use Rattle.std.specs.Option.{option_copied, option_map};
ghost use Rattle.au_typing.specs.DerivationSearch as spec;
ghost use Rattle.au_judgements.specs.Steps as steps;
ghost use Rattle.au_noting.specs.Giving.{Gives, Lets, Tells};
ghost use Rattle.au_noting.specs.Said.{fields_said};
ghost use Rattle.au_noting.specs.Scopes.{scope_said};
ghost use Rattle.au_noting.specs.Variables.{variable_said};
ghost use Rattle.au_types.specs.Views.{meaning};
ghost use Rattle.au_typing.specs.Faults as faults;
ghost use Rattle.au_typing.specs.Lookups as lookups;

use au_base::Name;
use au_noting::faults::{not_free, other_form, unknown};
use au_noting::lookups::{is_free_in, record_part, value_type, variable_of};
use au_noting::{Fault, Scope, Variable};
use au_sights::Form;
use au_syntax::{Ident, Parsed};
use au_types::{Ty, copy_type};
use std::alloc::Global;

/// The type of a place that is assigned to: of a variable, or of a part of a record.
///
/// # Errors
///
/// That the type is no record that is known there, or the first name that is no field.
pub fn place_type(
    alloc: Global,
    scope: &Scope,
    of: &Ty,
    path: &[Ident<Parsed>],
) -> Result<Ty, Fault>
    ensures { Gives meaning result
        (spec.place_type (scope_said scope.now) (meaning of.now) (fields_said path.now)) }
{
    if path.is_empty() {
        Ok(copy_type(alloc, of)?)
    } else {
        record_part(alloc, scope, of, path)
    }
}

/// That a type is Free in a scope.
///
/// # Errors
///
/// That it isn't.
pub fn judge_free(alloc: Global, scope: &Scope, of: &Ty) -> Result<(), Fault>
    ensures { Lets result (lookups.is_free_in (scope_said scope.now) (meaning of.now))
        (faults.not_free (meaning of.now)) }
{
    if is_free_in(scope, of) {
        Ok(())
    } else {
        Err(not_free(alloc, of))
    }
}

/// What stands at a place that is free: the type, where it is Free in the scope.
///
/// # Errors
///
/// That the type isn't Free.
pub fn free_place(alloc: Global, scope: &Scope, of: Ty) -> Result<Ty, Fault>
    ensures { Gives meaning result (spec.free_place (scope_said scope.now) (meaning of)) }
{
    if is_free_in(scope, &of) {
        Ok(of)
    } else {
        Err(not_free(alloc, &of))
    }
}

/// The type behind a write reference, if the type is one.
#[tactic(auto, using(au_types::proofs::TypeLemmas::type_steps))]
pub fn written_through(of: &Ty) -> Option<&Ty>
    ensures { option_map meaning (option_copied result) ≡ spec.written_through (meaning of.now) }
{
    match of {
        Ty::Write { to, .. } => Some(to),
        Ty::Unit => None,
        Ty::Bool => None,
        Ty::Int(_) => None,
        Ty::Text => None,
        Ty::Param(_) => None,
        Ty::Named { .. } => None,
        Ty::Read { .. } => None,
    }
}

/// The type of a variable, or of a part of one, that is assigned to.
///
/// # Errors
///
/// The clause that fails: that the name is no variable, that the variable may not be assigned to, that the
/// part isn't there, or that its type isn't Free.
pub fn judge_assigned(
    alloc: Global,
    scope: &Scope,
    name: &Name,
    path: &[Ident<Parsed>],
) -> Result<Ty, Fault>
    ensures { Gives meaning result
        (spec.judge_assigned (scope_said scope.now) name.now (fields_said path.now)) }
{
    match variable_of(scope, name) {
        Some(one) => assigned_place(alloc, scope, one, path),
        None => Err(not_assignable(alloc, scope, name)),
    }
}

/// The type of a place of a variable, where it may be assigned to.
fn assigned_place(
    alloc: Global,
    scope: &Scope,
    one: &Variable,
    path: &[Ident<Parsed>],
) -> Result<Ty, Fault>
    ensures { Gives meaning result
        (steps.assigned_place (scope_said scope.now) (variable_said one.now) (fields_said path.now)) }
{
    if !one.assignable {
        return Err(other_form(Form::Assignable));
    }
    let of = place_type(alloc, scope, &one.of, path)?;
    free_place(alloc, scope, of)
}

/// Why what isn't a variable isn't assigned to.
fn not_assignable(alloc: Global, scope: &Scope, name: &Name) -> Fault
    ensures { Tells (spec.not_assignable name.now
        (lookups.value_type (scope_said scope.now) name.now)) result }
{
    match value_type(alloc, scope, name) {
        Ok(found) => assignable_wanted(alloc, name, found),
        Err(_) => Fault::Memory,
    }
}

/// Why what has this type, if any, isn't assigned to.
fn assignable_wanted(alloc: Global, name: &Name, found: Option<Ty>) -> Fault
    ensures { Tells (spec.not_assignable name.now (option_map meaning found)) result }
{
    match found {
        None => unknown(alloc, name),
        Some(_) => other_form(Form::Assignable),
    }
}

/// The type of a part behind a write reference that is assigned to.
///
/// # Errors
///
/// The clause that fails: that the name is no variable, that the variable is no write reference, that the
/// part isn't there, or that its type isn't Free.
pub fn judge_put(
    alloc: Global,
    scope: &Scope,
    name: &Name,
    path: &[Ident<Parsed>],
) -> Result<Ty, Fault>
    ensures { Gives meaning result
        (spec.judge_put (scope_said scope.now) name.now (fields_said path.now)) }
{
    match variable_of(scope, name) {
        Some(one) => put_place(alloc, scope, &one.of, path),
        None => Err(not_writing(alloc, scope, name)),
    }
}

/// The type of a part behind a variable of a type, where it may be assigned to.
fn put_place(alloc: Global, scope: &Scope, of: &Ty, path: &[Ident<Parsed>]) -> Result<Ty, Fault>
    ensures { Gives meaning result
        (steps.put_place (scope_said scope.now) (meaning of.now) (fields_said path.now)) }
{
    match written_through(of) {
        Some(to) => {
            let part = record_part(alloc, scope, to, path)?;
            free_place(alloc, scope, part)
        }
        None => Err(other_form(Form::WriteReference)),
    }
}

/// Why what isn't a variable is no write reference.
fn not_writing(alloc: Global, scope: &Scope, name: &Name) -> Fault
    ensures { Tells (spec.not_writing name.now
        (lookups.value_type (scope_said scope.now) name.now)) result }
{
    match value_type(alloc, scope, name) {
        Ok(found) => write_reference_wanted(alloc, name, found),
        Err(_) => Fault::Memory,
    }
}

/// Why what has this type, if any, is no write reference.
fn write_reference_wanted(alloc: Global, name: &Name, found: Option<Ty>) -> Fault
    ensures { Tells (spec.not_writing name.now (option_map meaning found)) result }
{
    match found {
        None => unknown(alloc, name),
        Some(_) => other_form(Form::WriteReference),
    }
}
