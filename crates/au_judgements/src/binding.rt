//! Fields that are bound to variables.
//!
//! Whether each field is bound exactly once is counted field by field: fields times bound fields, of which a
//! record has at most 64 (a greater one is refused where programs are gathered).

ghost use Rattle.std.specs.Prelude.{◌≡◌, ◌==◌};
ghost use Rattle.std.specs.List.{count_by, list_all, list_any};
ghost use Rattle.std.specs.Str.{bytes_eq};
ghost use Rattle.au_typing.specs.Parts as parts;
ghost use Rattle.au_typing.specs.DerivationSearch as spec;
ghost use Rattle.au_judgements.specs.Said.{bind_said, binds_said, fields_bound, fields_named};
ghost use Rattle.au_judgements.specs.Steps as steps;
ghost use Rattle.au_noting.specs.Giving.{Gives};
ghost use Rattle.au_noting.specs.Said.{all_typed};
ghost use Rattle.au_noting.specs.Scopes.{scope_said};
ghost use Rattle.au_syntax.specs.Views.{written};
ghost use Rattle.au_types.specs.Views.{meaning};

use au_base::Name;
use au_noting::faults::{different, other_form};
use au_noting::lookups::{type_of_name, written_type};
use au_noting::{Fault, Scope};
use au_sights::{Form, Typed};
use au_syntax::{Bind, Parsed, TypeText};
use au_types::{Ty, is_same};
use std::alloc::Global;

/// The type that is written with a field that is bound: the field is there, and it is the field's type.
///
/// # Errors
///
/// The clause that fails: that other labels are wanted, why the written type isn't well formed, or that it is
/// another one than the field's.
pub fn judge_bound(
    alloc: Global,
    scope: &Scope,
    fields: &[Typed],
    bind: &Bind<Parsed>,
) -> Result<Ty, Fault>
    ensures { Gives meaning result
        (spec.judge_bound (scope_said scope.now) (all_typed fields.now) (bind_said bind.now)) }
{
    match type_of_name(&bind.name.name.name, fields) {
        Some(field) => bound_type(alloc, scope, field, &bind.of),
        None => Err(other_form(Form::Labels)),
    }
}

/// The type that is written with a field of this type, where it is the same.
fn bound_type(alloc: Global, scope: &Scope, field: &Ty, text: &TypeText) -> Result<Ty, Fault>
    ensures { Gives meaning result
        (steps.bound_type (scope_said scope.now) (meaning field.now) (written text.now)) }
{
    let of = written_type(alloc, scope, text)?;
    if is_same(field, &of) {
        Ok(of)
    } else {
        Err(different(alloc, field, &of))
    }
}

/// That the types that are written with fields that are bound are those of the fields, from left to right.
///
/// # Errors
///
/// The first clause that fails.
pub fn judge_all_bound(
    alloc: Global,
    scope: &Scope,
    fields: &[Typed],
    binds: &[Bind<Parsed>],
) -> Result<(), Fault>
    ensures { Gives (λ _. tt) result
        (spec.judge_all_bound (scope_said scope.now) (all_typed fields.now) (binds_said binds.now)) }
{
    for bind in binds {
        judge_one(alloc, scope, fields, bind)?;
    }
    Ok(())
}

/// That the type that is written with a field that is bound is that of the field.
fn judge_one(
    alloc: Global,
    scope: &Scope,
    fields: &[Typed],
    bind: &Bind<Parsed>,
) -> Result<(), Fault>
    ensures { Gives (λ _. tt) result
        (steps.judge_one (scope_said scope.now) (all_typed fields.now) (bind_said bind.now)) }
{
    match judge_bound(alloc, scope, fields, bind) {
        Ok(_) => Ok(()),
        Err(fault) => Err(fault),
    }
}

/// That each field is bound exactly once and nothing besides, and that the types that are written with them
/// are those of the fields. All labels are judged before the written types.
///
/// # Errors
///
/// The first clause that fails.
pub fn judge_binds(
    alloc: Global,
    scope: &Scope,
    fields: &[Typed],
    binds: &[Bind<Parsed>],
) -> Result<(), Fault>
    ensures { Gives (λ _. tt) result
        (spec.judge_binds (scope_said scope.now) (all_typed fields.now) (binds_said binds.now)) }
{
    if binds_each(fields, binds) {
        judge_all_bound(alloc, scope, fields, binds)
    } else {
        Err(other_form(Form::Labels))
    }
}

/// Whether each field is bound exactly once, and nothing besides.
pub fn binds_each(fields: &[Typed], binds: &[Bind<Parsed>]) -> bool
    ensures { result ≡ parts.binds_each (all_typed fields.now) (binds_said binds.now) }
{
    each_is_bound_once(fields, binds) && each_names_field(fields, binds)
}

/// How often a name is bound.
fn times_bound(name: &Name, binds: &[Bind<Parsed>]) -> usize
    ensures { result ≡ count_by (bytes_eq name.now) (fields_bound (binds_said binds.now)) }
{
    let mut count = 0;
    for bind in binds {
        if name.as_bytes() == bind.name.name.name.as_bytes() {
            count += 1;
        }
    }
    count
}

/// Whether a field is bound exactly once.
fn is_bound_once(one: &Typed, binds: &[Bind<Parsed>]) -> bool
    ensures { result ≡ (count_by (bytes_eq one.now.name) (fields_bound (binds_said binds.now)) == 1) }
{
    times_bound(&one.name, binds) == 1
}

/// Whether each field is bound exactly once.
fn each_is_bound_once(fields: &[Typed], binds: &[Bind<Parsed>]) -> bool
    ensures { result ≡ list_all (λ name. count_by (bytes_eq name) (fields_bound (binds_said binds.now)) == 1)
        (fields_named (all_typed fields.now)) }
{
    for one in fields {
        if !is_bound_once(one, binds) {
            return false;
        }
    }
    true
}

/// Whether a name is that of a field.
fn is_field(name: &Name, fields: &[Typed]) -> bool
    ensures { result ≡ list_any (bytes_eq name.now) (fields_named (all_typed fields.now)) }
{
    for one in fields {
        if name.as_bytes() == one.name.as_bytes() {
            return true;
        }
    }
    false
}

/// Whether each name that is bound is that of a field.
fn each_names_field(fields: &[Typed], binds: &[Bind<Parsed>]) -> bool
    ensures { result ≡ list_all (λ other. list_any (bytes_eq other) (fields_named (all_typed fields.now)))
        (fields_bound (binds_said binds.now)) }
{
    for bind in binds {
        if !is_field(&bind.name.name.name, fields) {
            return false;
        }
    }
    true
}
