//! Whether the methods of an instance are those of its class.

ghost use Rattle.std.specs.Prelude.{◌≡◌, false, true, IfOk, MatchOption, find};
ghost use Rattle.std.specs.List.{list_all};
ghost use Rattle.au_classes.specs.Methods as spec;
ghost use Rattle.au_classes.specs.Views.{called_by, headers_of, method_of, method_seen};
ghost use Rattle.au_classes.specs.Views.{named_by, wanted_in};
ghost use Rattle.au_classes.specs.Indices.{FindsFirst};
ghost use Rattle.au_classes.specs.InstanceViews.{methods_of};
ghost use Rattle.au_promises.specs.Written.{header_of};
ghost use Rattle.au_types.specs.WrittenViews.{meant_in};

use crate::comparing::same_signature;
use au_base::{Memory, Name};
use au_matching::Substitution;
use au_syntax::{Method, Parsed, Signature};
use au_types::{Scope, Table};
use std::alloc::Global;

/// The methods of an instance by their names, each by its index, and `None` where two have one name.
fn methods_by_name(
    alloc: Global,
    methods: &Vec<Method<Parsed>>,
) -> Result<Option<Table<usize>>, Memory>
    ensures { IfOk result (λ found. MatchOption found (spec.is_doubled (methods_of methods.now.items) ≡ true)
        (λ table. (spec.is_doubled (methods_of methods.now.items) ≡ false)
        × FindsFirst named_by (methods_of methods.now.items) table)) }
{
    let mut table = Table::new(alloc);
    for (index, one) in methods.iter().enumerate() {
        let is_new = table.put(one.signature.name.name.as_bytes(), index)?;
        if !is_new {
            return Ok(None);
        }
    }
    Ok(Some(table))
}

/// The methods of a class by their names, the first of each name by its index.
fn signatures_by_name(alloc: Global, class: &Vec<Signature<Parsed>>) -> Result<Table<usize>, Memory>
    ensures { IfOk result (λ table. FindsFirst called_by (headers_of class.now.items) table) }
{
    let mut table = Table::new(alloc);
    for (index, one) in class.iter().enumerate() {
        table.put(one.name.name.as_bytes(), index)?;
    }
    Ok(table)
}

/// Whether a method that is found, if one is, has the signature of one of the class.
fn has_signature(
    alloc: Global,
    class: &Scope,
    s: &Substitution,
    own: &Scope,
    one: &Signature<Parsed>,
    found: Option<&Method<Parsed>>,
) -> Result<bool, Memory>
    ensures { IfOk result (λ has. has
        ≡ spec.has_signature (wanted_in class.now s.now) (meant_in own.now) (header_of one.now)
        (method_seen found.entry)) }
{
    match found {
        None => Ok(false),
        Some(method) => same_signature(alloc, class, s, one, own, &method.signature),
    }
}

/// The first method of a name, if there is one.
fn method_named<'a>(
    methods: &'a Vec<Method<Parsed>>,
    by_name: &Table<usize>,
    name: &Name,
) -> Option<&'a Method<Parsed>>
    requires { FindsFirst named_by (methods_of methods.now.items) by_name.now }
    ensures { method_seen result ≡ find (spec.is_named name.now) (methods_of methods.now.items) }
{
    match by_name.get(name.as_bytes()) {
        None => None,
        Some(index) => methods.get(*index),
    }
}

/// Whether each method of the class is defined by a method of its name.
fn all_defined(
    alloc: Global,
    class: &Scope,
    s: &Substitution,
    own: &Scope,
    list: &Vec<Signature<Parsed>>,
    methods: &Vec<Method<Parsed>>,
    by_name: &Table<usize>,
) -> Result<bool, Memory>
    requires named { FindsFirst named_by (methods_of methods.now.items) by_name.now }
    ensures { IfOk result (λ all. all
        ≡ list_all (spec.is_defined (wanted_in class.now s.now) (meant_in own.now)
        (methods_of methods.now.items)) (headers_of list.now.items)) }
{
    for one in list {
        let found = method_named(methods, by_name, &one.name.name);
        if !has_signature(alloc, class, s, own, one, found)? {
            return Ok(false);
        }
    }
    Ok(true)
}

/// Whether a name is that of a method of the class.
fn is_declared(list: &Vec<Signature<Parsed>>, by_name: &Table<usize>, one: &Method<Parsed>) -> bool
    requires { FindsFirst called_by (headers_of list.now.items) by_name.now }
    ensures { result ≡ spec.is_declared (headers_of list.now.items) (method_of one.now) }
{
    by_name.get(one.signature.name.name.as_bytes()).is_some()
}

/// Whether each method of an instance has the name of a method of the class.
fn all_declared(
    list: &Vec<Signature<Parsed>>,
    by_name: &Table<usize>,
    methods: &Vec<Method<Parsed>>,
) -> bool
    requires { FindsFirst called_by (headers_of list.now.items) by_name.now }
    ensures { result ≡ list_all (spec.is_declared (headers_of list.now.items))
        (methods_of methods.now.items) }
{
    for one in methods {
        if !is_declared(list, by_name, one) {
            return false;
        }
    }
    true
}

/// Whether each method of an instance is one of the class.
fn none_added(
    alloc: Global,
    list: &Vec<Signature<Parsed>>,
    methods: &Vec<Method<Parsed>>,
) -> Result<bool, Memory>
    ensures { IfOk result (λ none. none
        ≡ list_all (spec.is_declared (headers_of list.now.items)) (methods_of methods.now.items)) }
{
    let by_name = signatures_by_name(alloc, list)?;
    Ok(all_declared(list, &by_name, methods))
}

/// Whether the methods of an instance are exactly those of its class, in any order, with what a substitution
/// puts into the types of the class.
///
/// # Errors
///
/// Only for want of memory.
pub(crate) fn are_defined(
    alloc: Global,
    class: &Scope,
    s: &Substitution,
    own: &Scope,
    list: &Vec<Signature<Parsed>>,
    methods: &Vec<Method<Parsed>>,
) -> Result<bool, Memory>
    ensures { IfOk result (λ are. are
        ≡ spec.are_methods (wanted_in class.now s.now) (meant_in own.now) (headers_of list.now.items)
        (methods_of methods.now.items)) }
{
    let Some(by_name) = methods_by_name(alloc, methods)? else {
        return Ok(false);
    };
    if all_defined(alloc, class, s, own, list, methods, &by_name)? {
        none_added(alloc, list, methods)
    } else {
        Ok(false)
    }
}
