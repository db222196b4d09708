//! Whether a method of an instance has the signature of a method of its class.

ghost use Rattle.std.specs.Prelude.{◌≡◌, IfOk};
ghost use Rattle.std.specs.Option.{option_map};
ghost use Rattle.au_classes.specs.Methods as spec;
ghost use Rattle.au_classes.specs.Views.{wanted_in};
ghost use Rattle.au_promises.specs.Agreeing as agreeing;
ghost use Rattle.au_promises.specs.Written.{header_of, labelled_of, labels_of, name_of};
ghost use Rattle.au_syntax.specs.Views.{written};
ghost use Rattle.au_types.specs.Views.{meaning};
ghost use Rattle.au_types.specs.WrittenViews.{meant_in};

use au_base::Memory;
use au_matching::{Substitution, substitute};
use au_syntax::{Field, Ident, Parsed, Signature, TypeText};
use au_types::{Scope, Ty, is_same, type_meant};
use std::alloc::Global;

/// What a type that is written in a class means, if it means one, with what a substitution puts into it.
fn wanted(
    alloc: Global,
    class: &Scope,
    s: &Substitution,
    node: &TypeText,
) -> Result<Option<Ty>, Memory>
    ensures { IfOk result (λ found. option_map meaning found ≡ wanted_in class.now s.now (written node.now)) }
{
    match type_meant(alloc, class, node)? {
        None => Ok(None),
        Some(of) => {
            let whole = substitute(alloc, &of, s)?;
            Ok(Some(whole))
        }
    }
}

/// Whether two types that are meant, if any are, are one.
fn same_meaning(one: &Option<Ty>, other: &Option<Ty>) -> bool
    ensures { result ≡ agreeing.same_meaning (option_map meaning one.now) (option_map meaning other.now) }
{
    match one {
        None => match other {
            None => true,
            Some(_) => false,
        },
        Some(of) => match other {
            None => false,
            Some(its) => is_same(of, its),
        },
    }
}

/// Whether two names are written alike.
fn same_name(one: &Ident<Parsed>, other: &Ident<Parsed>) -> bool
    ensures { result ≡ agreeing.same_name (name_of one.now) (name_of other.now) }
{
    one.name.as_bytes() == other.name.as_bytes()
}

/// Whether a type of the class means, with what a substitution puts into it, what one of the instance does.
fn same_type(
    alloc: Global,
    class: &Scope,
    s: &Substitution,
    one: &TypeText,
    own: &Scope,
    other: &TypeText,
) -> Result<bool, Memory>
    ensures { IfOk result (λ same. same
        ≡ spec.same_type (wanted_in class.now s.now) (meant_in own.now) (written one.now)
        (written other.now)) }
{
    let of = wanted(alloc, class, s, one)?;
    let its = type_meant(alloc, own, other)?;
    Ok(same_meaning(&of, &its))
}

/// Whether two parameters have one name and one type.
fn same_labelled(
    alloc: Global,
    class: &Scope,
    s: &Substitution,
    one: &Field<Parsed>,
    own: &Scope,
    other: &Field<Parsed>,
) -> Result<bool, Memory>
    ensures { IfOk result (λ same. same
        ≡ spec.same_labelled (wanted_in class.now s.now) (meant_in own.now) (labelled_of one.now)
        (labelled_of other.now)) }
{
    if same_name(&one.name, &other.name) {
        same_type(alloc, class, s, &one.of, own, &other.of)
    } else {
        Ok(false)
    }
}

/// Whether parameters have the same names and types, each with that in its place.
fn same_labels(
    alloc: Global,
    class: &Scope,
    s: &Substitution,
    list: &Vec<Field<Parsed>>,
    own: &Scope,
    others: &Vec<Field<Parsed>>,
) -> Result<bool, Memory>
    ensures { IfOk result (λ same. same
        ≡ agreeing.all_agree (spec.same_labelled (wanted_in class.now s.now) (meant_in own.now))
        (labels_of list.now.items) (labels_of others.now.items)) }
{
    if list.len() != others.len() {
        return Ok(false);
    }
    for (index, one) in list.iter().enumerate() {
        if !same_labelled(alloc, class, s, one, own, &others[index])? {
            return Ok(false);
        }
    }
    Ok(true)
}

/// Whether a method of the class and one of the instance have the same parameters in order and the same
/// result, with what a substitution puts into the types of the class.
///
/// # Errors
///
/// Only for want of memory.
pub(crate) fn same_signature(
    alloc: Global,
    class: &Scope,
    s: &Substitution,
    one: &Signature<Parsed>,
    own: &Scope,
    other: &Signature<Parsed>,
) -> Result<bool, Memory>
    ensures { IfOk result (λ same. same
        ≡ spec.same_signature (wanted_in class.now s.now) (meant_in own.now) (header_of one.now)
        (header_of other.now)) }
{
    if same_labels(alloc, class, s, &one.parameters, own, &other.parameters)? {
        same_type(alloc, class, s, &one.result, own, &other.result)
    } else {
        Ok(false)
    }
}
