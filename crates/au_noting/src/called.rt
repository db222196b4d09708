//! The note of a call, where the rules after those on its arguments hold.

ghost use Rattle.std.specs.Prelude.{◌≡◌, ◌++◌, IfOk, OnOk, Ok, Some, not, option_to_list};
ghost use Rattle.std.specs.Option.{option_copied, option_map};
ghost use Rattle.au_instances.specs.Pairs.{told};
ghost use Rattle.au_matching.specs.Bindings.{value_of};
ghost use Rattle.au_matching.specs.Fixed.{is_a_region, is_a_type};
ghost use Rattle.au_sights.specs.Views.{note};
ghost use Rattle.au_noting.specs.Giving.{Gives, Tells};
ghost use Rattle.au_noting.specs.Modes.{wanted};
ghost use Rattle.au_noting.specs.Nodes as node;
ghost use Rattle.au_noting.specs.Nodes.{type_in};
ghost use Rattle.au_noting.specs.Said.{meanings};
ghost use Rattle.au_noting.specs.Scopes.{scope_said};
ghost use Rattle.au_sights.specs.Sights.{callable_said};
ghost use Rattle.au_syntax.specs.declared.declarations.Universe.TheVariants as universes;
ghost use Rattle.au_types.specs.Views.{argument, meaning};
ghost use Rattle.au_typing.specs.Calls as spec;
ghost use Rattle.au_typing.specs.SearchCalls as search;

use crate::faults::{Fault, not_free, other_form, unfixed};
use crate::rules::{full_note, limit_among};
use crate::scopes::{Scope, constraints};
use au_base::{Memory, Name};
use au_instances::ClassAt;
use au_matching::{Substitution, fits, substitute};
use au_sights::{Callable, Form, Notes, Why};
use au_syntax::Universe;
use au_types::{Arg, Parameter, Params, Ty, copy_type};
use std::alloc::Global;

/// Whether a type parameter is fixed: it stands for something of its kind.
fn is_fixed(s: &Substitution, one: &Parameter) -> bool
    ensures { result ≡ spec.is_fixed s.now one.now }
{
    match one.universe {
        Universe::Region => stands_for_region(s, &one.name),
        Universe::Free => stands_for_type(s, &one.name),
        Universe::Linear => stands_for_type(s, &one.name),
        Universe::AnyType => stands_for_type(s, &one.name),
    }
}

/// Whether a name stands for a region.
fn stands_for_region(s: &Substitution, name: &Name) -> bool
    ensures { result ≡ is_a_region (value_of name.now s.now) }
{
    match s.value_of(name) {
        Some(value) => is_region(value),
        None => false,
    }
}

/// Whether a name stands for a type.
fn stands_for_type(s: &Substitution, name: &Name) -> bool
    ensures { result ≡ is_a_type (value_of name.now s.now) }
{
    match s.value_of(name) {
        Some(value) => !is_region(value),
        None => false,
    }
}

/// Whether a value is a region.
#[tactic(auto, using(au_types::proofs::TypeLemmas::type_steps))]
fn is_region(value: &Arg) -> bool
    ensures region { result ≡ is_a_region (Some (argument value.now)) }
    ensures other { not result ≡ is_a_type (Some (argument value.now)) }
{
    match value {
        Arg::Of(_) => false,
        Arg::In(_) => true,
    }
}

/// The type that a name stands for, if it stands for one.
fn type_given<'s>(s: &'s Substitution, name: &Name) -> Option<&'s Ty>
    ensures { option_map meaning (option_copied result) ≡ type_in (value_of name.now s.now) }
{
    match s.value_of(name) {
        Some(value) => type_of_value(value),
        None => None,
    }
}

/// The type that a value is, if it is one.
#[tactic(auto, using(au_types::proofs::TypeLemmas::type_steps))]
fn type_of_value(value: &Arg) -> Option<&Ty>
    ensures { option_map meaning (option_copied result) ≡ type_in (Some (argument value.now)) }
{
    match value {
        Arg::Of(of) => Some(of),
        Arg::In(_) => None,
    }
}

/// The first type parameter in declared order that is unfixed, if one is.
pub fn first_unfixed<'p>(s: &Substitution, params: &'p Params) -> Option<&'p Name>
    ensures { option_copied result ≡ spec.first_unfixed s.now params.now }
{
    for index in 0..params.len() {
        let one = params.at(index);
        if !is_fixed(s, one) {
            return Some(&one.name);
        }
    }
    None
}

/// Whether what a type parameter stands for, if it does, fits its universe.
fn value_fits(scope: &Scope, s: &Substitution, one: &Parameter) -> bool
    ensures { result ≡ spec.value_fits (scope_said scope.now) one.now.universe (value_of one.now.name s.now) }
{
    match s.value_of(&one.name) {
        Some(value) => fits(
            scope.outside.program.heads_ref(),
            scope.bounds.params(),
            one.universe,
            value,
        ),
        None => true,
    }
}

/// The first type parameter in declared order whose value doesn't fit its universe, if there is one.
pub fn first_misfit<'p>(
    scope: &Scope,
    s: &Substitution,
    params: &'p Params,
) -> Option<&'p Parameter>
    ensures { option_copied result ≡ spec.first_misfit (scope_said scope.now) s.now params.now }
{
    for index in 0..params.len() {
        let one = params.at(index);
        if !value_fits(scope, s, one) {
            return Some(one);
        }
    }
    None
}

/// Why what a type parameter stands for doesn't fit it.
pub fn misfit(alloc: Global, s: &Substitution, one: &Parameter) -> Fault
    ensures { Tells (search.misfit s.now one.now) result }
{
    match one.universe {
        Universe::Free => misfit_free(alloc, s, one),
        Universe::Linear => other_form(Form::Linear),
        Universe::Region => other_form(Form::Region),
        Universe::AnyType => unfixed(alloc, &one.name),
    }
}

/// Why what a type parameter stands for isn't a Free type.
fn misfit_free(alloc: Global, s: &Substitution, one: &Parameter) -> Fault
    ensures { Tells (search.misfit_in one.now universes.Free (value_of one.now.name s.now)) result }
{
    match type_given(s, &one.name) {
        Some(of) => not_free(alloc, of),
        None => unfixed(alloc, &one.name),
    }
}

/// The constraints of what is called in declared order, and then the class of a method.
///
/// # Errors
///
/// Only for want of memory.
pub fn wanted_of(alloc: Global, called: &Callable) -> Result<Vec<(Name, ClassAt)>, Memory>
    ensures { IfOk result (λ pairs. pairs.items ≡ spec.wanted_of (callable_said called.now)) }
{
    let mut pairs = constraints(alloc, &called.generics)?;
    if let Some((name, class)) = &called.class {
        pairs.push((name.copy(alloc)?, *class))?;
    }
    Ok(pairs)
}

/// What is lacking first of a class at what a name stands for, if something is.
fn lacking_at(
    alloc: Global,
    scope: &Scope,
    s: &Substitution,
    name: &Name,
    class: ClassAt,
) -> Result<Option<(ClassAt, Ty)>, Memory>
    ensures { IfOk result (λ found. option_map told found
        ≡ spec.lacking_at (scope_said scope.now) class (value_of name.now s.now)) }
{
    match type_given(s, name) {
        Some(of) => scope.outside.instances.lacking(
            alloc,
            scope.outside.program.heads_ref(),
            scope.bounds.params(),
            scope.bounds.known(),
            class,
            of,
        ),
        None => Ok(None),
    }
}

/// The first pair of a class and a type that is lacking, if one is.
///
/// # Errors
///
/// Only for want of memory.
pub fn first_lacking(
    alloc: Global,
    scope: &Scope,
    s: &Substitution,
    pairs: &[(Name, ClassAt)],
) -> Result<Option<(ClassAt, Ty)>, Memory>
    ensures { IfOk result (λ found. option_map told found
        ≡ spec.first_lacking (scope_said scope.now) s.now pairs.now) }
{
    for one in pairs {
        if let Some(found) = lacking_at(alloc, scope, s, &one.0, one.1)? {
            return Ok(Some(found));
        }
    }
    Ok(None)
}

/// The types that type parameters stand for, in declared order.
///
/// # Errors
///
/// Only for want of memory.
pub fn type_values(alloc: Global, s: &Substitution, params: &Params) -> Result<Vec<Ty>, Memory>
    ensures { IfOk result (λ types. meanings types.items ≡ spec.type_values s.now params.now) }
{
    let mut types = Vec::new(alloc);
    for index in 0..params.len() {
        add_type(alloc, &mut types, s, &params.at(index).name)?;
    }
    Ok(types)
}

/// Adds the type that a name stands for, if it stands for one.
fn add_type(alloc: Global, types: &mut Vec<Ty>, s: &Substitution, name: &Name) -> Result<(), Memory>
    ensures { OnOk result (meanings types.new.items
        ≡ meanings types.old.items ++ option_to_list (type_in (value_of name.now s.now))) }
{
    if let Some(of) = type_given(s, name) {
        types.push(copy_type(alloc, of)?)?;
    }
    Ok(())
}

/// The note of a call, where the rules after those on its arguments hold.
///
/// # Errors
///
/// The limit or the clause that fails.
pub fn called_note(
    alloc: Global,
    scope: &Scope,
    mode: Option<&Ty>,
    one: &Callable,
    s: Substitution,
) -> Result<Notes, Fault>
    ensures { Gives note result
        (search.called_note (scope_said scope.now) (wanted mode.entry) (callable_said one.now) s) }
{
    match first_unfixed(&s, one.generics.params()) {
        Some(name) => Err(unfixed(alloc, name)),
        None => limited_note(alloc, scope, mode, one, s),
    }
}

/// The note of a call whose type parameters are all fixed.
fn limited_note(
    alloc: Global,
    scope: &Scope,
    mode: Option<&Ty>,
    one: &Callable,
    s: Substitution,
) -> Result<Notes, Fault>
    ensures { Gives note result
        (node.limited_note (scope_said scope.now) (wanted mode.entry) (callable_said one.now) s) }
{
    let of = substitute(alloc, &one.result, &s)?;
    let values = type_values(alloc, &s, one.generics.params())?;
    match limit_among(mode, &of, values.as_slice()) {
        Some(limit) => Err(Fault::Limit(limit)),
        None => fitting_note(alloc, scope, mode, one, s),
    }
}

/// The note of a call whose types pass no limit.
fn fitting_note(
    alloc: Global,
    scope: &Scope,
    mode: Option<&Ty>,
    one: &Callable,
    s: Substitution,
) -> Result<Notes, Fault>
    ensures { Gives note result
        (node.fitting_note (scope_said scope.now) (wanted mode.entry) (callable_said one.now) s) }
{
    match first_misfit(scope, &s, one.generics.params()) {
        Some(param) => Err(misfit(alloc, &s, param)),
        None => held_note(alloc, scope, mode, one, s),
    }
}

/// The note of a call whose type arguments fit.
fn held_note(
    alloc: Global,
    scope: &Scope,
    mode: Option<&Ty>,
    one: &Callable,
    s: Substitution,
) -> Result<Notes, Fault>
    ensures { Gives note result
        (node.held_note (scope_said scope.now) (wanted mode.entry) (callable_said one.now) s) }
{
    match lacking_of(alloc, scope, one, &s)? {
        Some((class, of)) => Err(Fault::Why(Why::NoInstance { class, of })),
        None => call_note(alloc, mode, one, s),
    }
}

/// The first pair that a call lacks, if it lacks one.
fn lacking_of(
    alloc: Global,
    scope: &Scope,
    one: &Callable,
    s: &Substitution,
) -> Result<Option<(ClassAt, Ty)>, Memory>
    ensures { IfOk result (λ found. option_map told found
        ≡ spec.first_lacking (scope_said scope.now) s.now (spec.wanted_of (callable_said one.now))) }
{
    let pairs = wanted_of(alloc, one)?;
    first_lacking(alloc, scope, s, pairs.as_slice())
}

/// The note of a call for which all rules hold.
fn call_note(
    alloc: Global,
    mode: Option<&Ty>,
    one: &Callable,
    s: Substitution,
) -> Result<Notes, Fault>
    ensures { Gives note result (Ok (search.call_note (wanted mode.entry) (callable_said one.now) s)) }
{
    let of = substitute(alloc, &one.result, &s)?;
    Ok(full_note(alloc, mode, &of, Some(s))?)
}
