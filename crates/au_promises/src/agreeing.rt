//! Whether what is written in the two parts of a module agrees.

ghost use Rattle.std.specs.Prelude.{◌≡◌, [], IfOk};
ghost use Rattle.std.specs.Option.{option_map};
ghost use Rattle.au_promises.specs.Agreeing as spec;
ghost use Rattle.au_promises.specs.Written.{generic_of, generics_of, header_of, labelled_of, labels_of};
ghost use Rattle.au_promises.specs.Written.{name_of, names_of, parameter_of, parameters_of, sight_in};
ghost use Rattle.au_syntax.specs.Views.{written};
ghost use Rattle.au_types.specs.Views.{meaning};
ghost use Rattle.au_types.specs.Meant.{meant};

use crate::sights::Sight;
use au_base::{Memory, Name};
use au_syntax::{Field, Generic, Ident, Parsed, Signature, TypeParameter, TypeText, Universe};
use au_types::{DeclAt, Heads, Parameter, Params, Scope, Table, Ty, is_same, type_meant};
use std::alloc::Global;

/// Whether two universes are one.
pub fn same_universe(one: Universe, other: Universe) -> bool
    ensures { result ≡ spec.same_universe one other }
{
    one == other
}

/// Whether two names are written alike.
fn same_name(one: &Ident<Parsed>, other: &Ident<Parsed>) -> bool
    ensures { result ≡ spec.same_name (name_of one.now) (name_of other.now) }
{
    one.name.as_bytes() == other.name.as_bytes()
}

/// Whether two type parameters are alike.
fn same_parameter(one: &TypeParameter<Parsed>, other: &TypeParameter<Parsed>) -> bool
    ensures { result ≡ spec.same_parameter (parameter_of one.now) (parameter_of other.now) }
{
    same_name(&one.name, &other.name) && same_universe(one.universe, other.universe)
}

/// Whether type parameters are alike, each with that in its place.
pub fn same_parameters(
    list: &Vec<TypeParameter<Parsed>>,
    others: &Vec<TypeParameter<Parsed>>,
) -> bool
    ensures { result ≡ spec.all_agree spec.same_parameter (parameters_of list.now.items)
        (parameters_of others.now.items) }
{
    if list.len() != others.len() {
        return false;
    }
    for (index, one) in list.iter().enumerate() {
        if !same_parameter(one, &others[index]) {
            return false;
        }
    }
    true
}

/// Whether two declarations that names mean, if they mean any, are one, and else whether the names are
/// written alike.
pub fn same_declaration(name: &Name, other: &Name, one: Option<DeclAt>, its: Option<DeclAt>) -> bool
    ensures { result ≡ spec.same_declaration name.now other.now one its }
{
    match (one, its) {
        (Some(at), Some(by)) => at == by,
        (None, None) => name.as_bytes() == other.as_bytes(),
        _ => false,
    }
}

/// Whether a name of the interface and one of the body are of one class.
pub fn same_class(sight: &Sight, one: &Ident<Parsed>, other: &Ident<Parsed>) -> bool
    ensures { result ≡ spec.same_class (sight_in sight.now) (name_of one.now) (name_of other.now) }
{
    let at = sight.interface.get(one.name.as_bytes()).copied();
    let by = sight.body.get(other.name.as_bytes()).copied();
    same_declaration(&one.name, &other.name, at, by)
}

/// Whether names of classes of the interface and of the body are of the same classes, each with that in
/// its place.
fn same_classes(sight: &Sight, list: &Vec<Ident<Parsed>>, others: &Vec<Ident<Parsed>>) -> bool
    ensures { result ≡ spec.all_agree (spec.same_class (sight_in sight.now))
        (names_of list.now.items) (names_of others.now.items) }
{
    if list.len() != others.len() {
        return false;
    }
    for (index, one) in list.iter().enumerate() {
        if !same_class(sight, one, &others[index]) {
            return false;
        }
    }
    true
}

/// Whether two type parameters behind `generic` are alike.
fn same_generic(sight: &Sight, one: &Generic<Parsed>, other: &Generic<Parsed>) -> bool
    ensures { result ≡ spec.same_generic (sight_in sight.now) (generic_of one.now) (generic_of other.now) }
{
    same_parameter(&one.parameter, &other.parameter)
        && same_classes(sight, &one.classes, &other.classes)
}

/// Whether type parameters behind `generic` are alike, each with that in its place.
pub fn same_generics(
    sight: &Sight,
    list: &Vec<Generic<Parsed>>,
    others: &Vec<Generic<Parsed>>,
) -> bool
    ensures { result ≡ spec.all_agree (spec.same_generic (sight_in sight.now))
        (generics_of list.now.items) (generics_of others.now.items) }
{
    if list.len() != others.len() {
        return false;
    }
    for (index, one) in list.iter().enumerate() {
        if !same_generic(sight, one, &others[index]) {
            return false;
        }
    }
    true
}

/// Whether two types that are meant, if any are, are one.
fn same_meaning(one: &Option<Ty>, other: &Option<Ty>) -> bool
    ensures { result ≡ spec.same_meaning (option_map meaning one.now) (option_map meaning other.now) }
{
    match (one, other) {
        (Some(of), Some(its)) => is_same(of, its),
        (None, None) => true,
        _ => false,
    }
}

/// The type that a written type means among these type parameters, names and rows, if it means one.
///
/// # Errors
///
/// Only for want of memory.
pub fn meant_with(
    alloc: Global,
    params: &Params,
    names: &Table<DeclAt>,
    heads: &Heads,
    node: &TypeText,
) -> Result<Option<Ty>, Memory>
    ensures { IfOk result (λ found. option_map meaning found ≡ meant [] params.now names.now heads.now
        (written node.now)) }
{
    let scope = Scope {
        regions: &[],
        params,
        names,
        heads,
    };
    type_meant(alloc, &scope, node)
}

/// Whether a written type means this type, if any, among these type parameters, names and rows.
fn means_this(
    alloc: Global,
    of: &Option<Ty>,
    params: &Params,
    names: &Table<DeclAt>,
    heads: &Heads,
    node: &TypeText,
) -> Result<bool, Memory>
    ensures { IfOk result (λ same. same ≡ spec.same_meaning (option_map meaning of.now)
        (meant [] params.now names.now heads.now (written node.now))) }
{
    let its = meant_with(alloc, params, names, heads, node)?;
    Ok(same_meaning(of, &its))
}

/// Whether a written type of the interface and one of the body, each with its type parameters, mean one
/// type.
///
/// # Errors
///
/// Only for want of memory.
pub fn same_type(
    alloc: Global,
    sight: &Sight,
    scope: &Params,
    one: &TypeText,
    outer: &Params,
    other: &TypeText,
) -> Result<bool, Memory>
    ensures { IfOk result (λ same. same ≡ spec.same_type (sight_in sight.now) scope.now
        (written one.now) outer.now (written other.now)) }
{
    let of = meant_with(alloc, scope, sight.interface, sight.heads, one)?;
    means_this(alloc, &of, outer, sight.body, sight.heads, other)
}

/// The type parameters behind `generic`, as those of a scope.
///
/// # Errors
///
/// Only for want of memory.
pub fn scope_of(alloc: Global, list: &Vec<Generic<Parsed>>) -> Result<Params, Memory>
    ensures { IfOk result (λ params. params ≡ spec.scope_of (generics_of list.now.items)) }
{
    let mut params = Params::new(alloc);
    for one in list {
        let universe = one.parameter.universe;
        let name = one.parameter.name.name.copy(alloc)?;
        params.push(Parameter { name, universe })?;
    }
    Ok(params)
}

/// Whether two parameters of functions are alike.
fn same_labelled(
    alloc: Global,
    sight: &Sight,
    scope: &Params,
    one: &Field<Parsed>,
    outer: &Params,
    other: &Field<Parsed>,
) -> Result<bool, Memory>
    ensures { IfOk result (λ same. same ≡ spec.same_labelled (sight_in sight.now) scope.now outer.now
        (labelled_of one.now) (labelled_of other.now)) }
{
    if same_name(&one.name, &other.name) {
        same_type(alloc, sight, scope, &one.of, outer, &other.of)
    } else {
        Ok(false)
    }
}

/// Whether parameters of functions are alike, each with that in its place.
fn same_labels(
    alloc: Global,
    sight: &Sight,
    scope: &Params,
    list: &Vec<Field<Parsed>>,
    outer: &Params,
    others: &Vec<Field<Parsed>>,
) -> Result<bool, Memory>
    ensures { IfOk result (λ same. same ≡ spec.all_agree
        (spec.same_labelled (sight_in sight.now) scope.now outer.now) (labels_of list.now.items)
        (labels_of others.now.items)) }
{
    if list.len() != others.len() {
        return Ok(false);
    }
    for (index, one) in list.iter().enumerate() {
        if !same_labelled(alloc, sight, scope, one, outer, &others[index])? {
            return Ok(false);
        }
    }
    Ok(true)
}

/// Whether the parameters and the results of two functions are alike, given their type parameters.
fn same_signature(
    alloc: Global,
    sight: &Sight,
    scope: &Params,
    one: &Signature<Parsed>,
    outer: &Params,
    other: &Signature<Parsed>,
) -> Result<bool, Memory>
    ensures { IfOk result (λ same. same ≡ spec.same_signature (sight_in sight.now) scope.now
        (header_of one.now) outer.now (header_of other.now)) }
{
    if same_labels(
        alloc,
        sight,
        scope,
        &one.parameters,
        outer,
        &other.parameters,
    )? {
        same_type(alloc, sight, scope, &one.result, outer, &other.result)
    } else {
        Ok(false)
    }
}

/// Whether a function of the interface and one of the body have the same type parameters, parameters and
/// result.
///
/// # Errors
///
/// Only for want of memory.
pub fn same_function(
    alloc: Global,
    sight: &Sight,
    list: &Vec<Generic<Parsed>>,
    one: &Signature<Parsed>,
    others: &Vec<Generic<Parsed>>,
    other: &Signature<Parsed>,
) -> Result<bool, Memory>
    ensures { IfOk result (λ same. same ≡ spec.same_function (sight_in sight.now)
        (generics_of list.now.items) (header_of one.now)
        (generics_of others.now.items) (header_of other.now)) }
{
    if same_generics(sight, list, others) {
        let scope = scope_of(alloc, list)?;
        let outer = scope_of(alloc, others)?;
        same_signature(alloc, sight, &scope, one, &outer, other)
    } else {
        Ok(false)
    }
}
