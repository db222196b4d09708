//! The first promise of a program that isn't kept.

ghost use Rattle.std.specs.Prelude.{◌≡◌, ◌<◌, List, IfOk, Some, find, length, position, slice_get};
ghost use Rattle.std.specs.Option.{option_copied};
ghost use Rattle.au_modules.specs.Programs.{ModuleParts};
ghost use Rattle.au_modules.specs.Seen.{tree_seen};
ghost use Rattle.au_modules.specs.Slots as slots;
ghost use Rattle.au_promises.specs.Defining as defining;
ghost use Rattle.au_promises.specs.Defining.{AreDefinitions};
ghost use Rattle.au_promises.specs.Keys as keys;
ghost use Rattle.au_promises.specs.Promises as spec;
ghost use Rattle.au_promises.specs.Written.{declarations_of, declared_of, declared_seen, generics_of};
ghost use Rattle.au_promises.specs.Written.{name_of, sight_in};
ghost use Rattle.au_syntax.specs.Plain.{PlainDeclaration};
ghost use Rattle.au_syntax.specs.Views.{written};
ghost use Rattle.au_types.specs.Tables as tables;

use crate::agreeing::scope_of;
use crate::definitions::{Definitions, Sort, declared_at, found_by};
use crate::faults::PromiseFault;
use crate::keeping::keeps;
use crate::keys::{class_key, instance_key};
use crate::sights::Sight;
use crate::wording::is_meaningless;
use au_base::{Memory, Name, Pos};
use au_names::NamedModules as Resolved;
use au_syntax::{Decl, Generic, Ident, Parsed, Part, TypeText, Whole};
use au_types::Params;
use std::alloc::Global;

/// The place of a declaration's first token.
fn declaration_place(decl: &Decl<Parsed>) -> Pos
    ensures { result ≡ spec.declaration_place (declared_of decl.now) }
{
    match decl {
        Decl::Constant(at, ..)
        | Decl::Opaque(at, ..)
        | Decl::Record(at, ..)
        | Decl::Union(at, ..)
        | Decl::Function(at, ..)
        | Decl::Class(at, ..)
        | Decl::Instance(at, ..)
        | Decl::ConstantBody(at, ..)
        | Decl::FunctionBody(at, ..)
        | Decl::InstanceBody(at, ..) => *at,
    }
}

/// What is promised, if a declaration of an interface promises anything.
fn promised(decl: &Decl<Parsed>) -> Option<&Name>
    ensures { option_copied result ≡ spec.promised (declared_of decl.now) }
{
    match decl {
        Decl::Constant(_, name, _) | Decl::Opaque(_, name, ..) | Decl::Instance(_, _, name, _) => {
            Some(&name.name)
        }
        Decl::Function(_, _, signature) => Some(&signature.name.name),
        _ => None,
    }
}

/// The earlier of two indices, if there are any.
fn earlier(one: Option<usize>, other: Option<usize>) -> Option<usize>
    ensures { result ≡ defining.earlier one other }
{
    match (one, other) {
        (Some(index), Some(its)) => Some(index.min(its)),
        (None, _) => other,
        (_, None) => one,
    }
}

/// The index of the first instance of a body of this class for this type word for word, if there is one.
fn first_worded(
    alloc: Global,
    sight: &Sight,
    scope: &Params,
    name: &Ident<Parsed>,
    of: &TypeText,
    definitions: &Definitions,
) -> Result<Option<usize>, Memory>
    ensures { IfOk result (λ index. index ≡ tables.find
        (keys.instance_key scope.now (sight_in sight.now).interface (sight_in sight.now).rows
        (name_of name.now) (written of.now)) definitions.now.worded) }
{
    let key = instance_key(alloc, scope, sight.interface, sight.heads, name, of)?;
    Ok(definitions.worded.get(key.as_slice()).copied())
}

/// The index of the first instance of a body of this class whose type means nothing, if there is one.
fn first_meaningless(
    alloc: Global,
    sight: &Sight,
    name: &Ident<Parsed>,
    definitions: &Definitions,
) -> Result<Option<usize>, Memory>
    ensures { IfOk result (λ index. index ≡ tables.find
        (keys.class_key (sight_in sight.now).interface (name_of name.now)) definitions.now.meaningless) }
{
    let key = class_key(alloc, sight.interface, name)?;
    Ok(definitions.meaningless.get(key.as_slice()).copied())
}

/// The index of the first declaration of a body that defines an instance of this class for this type, if
/// there is one: of the same type word for word, or where both mean nothing.
///
/// # Errors
///
/// Only for want of memory.
pub fn instance_index(
    alloc: Global,
    sight: &Sight,
    scope: &Params,
    name: &Ident<Parsed>,
    of: &TypeText,
    definitions: &Definitions,
) -> Result<Option<usize>, Memory>
    ensures { (all : List PlainDeclaration) → AreDefinitions (sight_in sight.now) all definitions.now
        → IfOk result (λ index. index ≡ position (spec.instance_defined (sight_in sight.now) scope.now
        (name_of name.now) (written of.now)) all) }
{
    let worded = first_worded(alloc, sight, scope, name, of, definitions)?;
    let nothing = is_meaningless(alloc, scope, sight.interface, sight.heads, of)?;
    if !nothing {
        return Ok(worded);
    }
    let meaningless = first_meaningless(alloc, sight, name, definitions)?;
    Ok(earlier(worded, meaningless))
}

/// The first declaration of a body that defines an instance of this class for this type, if there is one.
fn instance_found<'a>(
    alloc: Global,
    sight: &Sight,
    list: &Vec<Generic<Parsed>>,
    name: &Ident<Parsed>,
    of: &TypeText,
    decls: &'a Vec<Decl<Parsed>>,
    definitions: &Definitions,
) -> Result<Option<&'a Decl<Parsed>>, Memory>
    requires { AreDefinitions (sight_in sight.now) (declarations_of decls.now.items) definitions.now }
    ensures { IfOk result (λ found. declared_seen found
        ≡ defining.instance_among (sight_in sight.now) (generics_of list.now.items) (name_of name.now)
        (written of.now) (declarations_of decls.now.items)) }
{
    let scope = scope_of(alloc, list)?;
    let index = instance_index(alloc, sight, &scope, name, of, definitions)?;
    match index {
        None => Ok(None),
        Some(at) => Ok(declared_at(decls, at)),
    }
}

/// The first declaration of a body that defines a promise, if there is one.
fn definition_of<'a>(
    alloc: Global,
    sight: &Sight,
    decls: &'a Vec<Decl<Parsed>>,
    definitions: &Definitions,
    promise: &Decl<Parsed>,
) -> Result<Option<&'a Decl<Parsed>>, Memory>
    requires { AreDefinitions (sight_in sight.now) (declarations_of decls.now.items) definitions.now }
    ensures { IfOk result (λ found. declared_seen found
        ≡ find (spec.defines (sight_in sight.now) (declared_of promise.now))
        (declarations_of decls.now.items)) }
{
    let names = &definitions.names;
    match promise {
        Decl::Constant(_, name, _) => Ok(found_by(decls, names, Sort::Constants, &name.name)),
        Decl::Opaque(_, name, ..) => Ok(found_by(decls, names, Sort::Types, &name.name)),
        Decl::Function(_, _, signature) => {
            Ok(found_by(decls, names, Sort::Functions, &signature.name.name))
        }
        Decl::Instance(_, list, name, of) => {
            instance_found(alloc, sight, list, name, of, decls, definitions)
        }
        _ => Ok(None),
    }
}

/// What is refused where a promise of this name has this definition, if it has one.
fn fault_by(
    alloc: Global,
    sight: &Sight,
    name: &Name,
    promise: &Decl<Parsed>,
    found: Option<&Decl<Parsed>>,
) -> Result<Option<PromiseFault>, Memory>
    ensures { IfOk result (λ fault. fault ≡ spec.kept_by (sight_in sight.now) name.now
        (declared_of promise.now) (declared_seen found.entry)) }
{
    let at = declaration_place(promise);
    match found {
        None => Ok(Some(PromiseFault::NotDefined(at, name.copy(alloc)?))),
        Some(decl) => {
            if keeps(alloc, sight, promise, decl)? {
                Ok(None)
            } else {
                let by = declaration_place(decl);
                Ok(Some(PromiseFault::Differs(at, by, name.copy(alloc)?)))
            }
        }
    }
}

/// What is refused of a declaration of the interface, given the definitions of the body.
fn fault_of(
    alloc: Global,
    sight: &Sight,
    decls: &Vec<Decl<Parsed>>,
    definitions: &Definitions,
    promise: &Decl<Parsed>,
) -> Result<Option<PromiseFault>, Memory>
    requires { AreDefinitions (sight_in sight.now) (declarations_of decls.now.items) definitions.now }
    ensures { IfOk result (λ fault. fault ≡ spec.promise_fault_of (sight_in sight.now)
        (declarations_of decls.now.items) (declared_of promise.now)) }
{
    match promised(promise) {
        None => Ok(None),
        Some(name) => {
            let found = definition_of(alloc, sight, decls, definitions, promise)?;
            fault_by(alloc, sight, name, promise, found)
        }
    }
}

/// The first of these declarations of the interface that isn't kept, given the definitions of the body.
fn unkept(
    alloc: Global,
    sight: &Sight,
    decls: &Vec<Decl<Parsed>>,
    definitions: &Definitions,
    promises: &Vec<Decl<Parsed>>,
) -> Result<Option<PromiseFault>, Memory>
    requires { AreDefinitions (sight_in sight.now) (declarations_of decls.now.items) definitions.now }
    ensures { IfOk result (λ fault. fault ≡ spec.unkept (sight_in sight.now)
        (declarations_of decls.now.items) (declarations_of promises.now.items)) }
{
    for promise in promises {
        let fault = fault_of(alloc, sight, decls, definitions, promise)?;
        if fault.is_some() {
            return Ok(fault);
        }
    }
    Ok(None)
}

/// The first of the declarations of an interface that the declarations of its body don't keep.
fn body_fault(
    alloc: Global,
    sight: &Sight,
    decls: &Vec<Decl<Parsed>>,
    promises: &Vec<Decl<Parsed>>,
) -> Result<Option<PromiseFault>, Memory>
    ensures { IfOk result (λ fault. fault ≡ spec.unkept (sight_in sight.now)
        (declarations_of decls.now.items) (declarations_of promises.now.items)) }
{
    let definitions = Definitions::of(alloc, sight, decls.as_slice())?;
    unkept(alloc, sight, decls, &definitions, promises)
}

/// What is refused of the two parts of a module, where it has both.
fn parts_fault(
    alloc: Global,
    sight: &Sight,
    interface: Option<&Whole<Parsed>>,
    body: Option<&Whole<Parsed>>,
) -> Result<Option<PromiseFault>, Memory>
    ensures { IfOk result (λ fault. fault ≡ spec.parts_fault (sight_in sight.now)
        (tree_seen interface.entry) (tree_seen body.entry)) }
{
    match (interface, body) {
        (Some(promises), Some(file)) => {
            let decls = &file.tree().declarations;
            body_fault(alloc, sight, decls, &promises.tree().declarations)
        }
        _ => Ok(None),
    }
}

/// What is refused of the module at a place.
fn module_fault(
    alloc: Global,
    resolved: &Resolved,
    place: usize,
) -> Result<Option<PromiseFault>, Memory>
    requires { place < length (slots.modules resolved.now) }
    ensures { (m : ModuleParts) → slice_get (slots.modules resolved.now) place ≡ Some m
        → IfOk result (λ fault. fault ≡ spec.module_fault (slots.modules resolved.now) place m) }
{
    let modules = resolved.modules();
    let sight = Sight {
        interface: &resolved.names(place, Part::Interface).types,
        body: &resolved.names(place, Part::Body).types,
        heads: resolved.heads_ref(),
    };
    let interface = modules.interface(place);
    let body = modules.body(place);
    parts_fault(alloc, &sight, interface, body)
}

/// The first promise of the interfaces of a program that isn't kept: modules by their places, the
/// declarations of each interface in the order of the text.
///
/// # Errors
///
/// Only for want of memory.
pub fn promise_fault(alloc: Global, resolved: &Resolved) -> Result<Option<PromiseFault>, Memory>
    ensures { IfOk result (λ found. found ≡ spec.promise_fault (slots.modules resolved.now)) }
{
    for place in 0..resolved.modules().len() {
        let fault = module_fault(alloc, resolved, place)?;
        if fault.is_some() {
            return Ok(fault);
        }
    }
    Ok(None)
}
