//! The instances of a program in the order of the text.

ghost use Rattle.std.specs.Prelude.{◌≡◌, ◌+◌, ◌<◌, ◌++◌, [], IfOk, OnOk, None, Some, length, slice_get};
ghost use Rattle.std.specs.Prelude.{unwrap_or};
ghost use Rattle.std.specs.Option.{option_map};
ghost use Rattle.au_names.specs.Exporting as exporting;
ghost use Rattle.au_names.specs.HeadsOf as heads;
ghost use Rattle.au_classes.specs.Texts as spec;
ghost use Rattle.au_classes.specs.InstanceViews.{text_said, texts_said};
ghost use Rattle.au_modules.specs.Programs.{ModuleParts};
ghost use Rattle.au_modules.specs.Seen.{tree_seen};
ghost use Rattle.au_modules.specs.Slots as slots;
ghost use Rattle.au_promises.specs.Written.{declarations_of, sight_in};

use crate::definitions::definition_indices;
use crate::instance_texts::{InstanceText, defined, methods_at, promised};
use crate::marks::{is_marked, marks_of};
use au_base::Memory;
use au_imports::Resolved;
use au_promises::sights::Sight;
use au_syntax::{Decl, Parsed, Part, Whole};
use au_types::DeclAt;
use std::alloc::Global;

/// The declaration of a number in the module at a place, and `Memory` where the number is too great.
fn declared_at(place: u16, number: usize) -> Result<DeclAt, Memory>
    ensures { IfOk result (λ at. at ≡ spec.declared_at place number) }
{
    if number > u32::MAX as usize {
        return Err(Memory);
    }
    Ok(DeclAt {
        module: place,
        decl: number as u32,
    })
}

/// The declaration of an index behind so many others.
fn declared_behind(place: u16, before: usize, index: usize) -> Result<DeclAt, Memory>
    ensures { IfOk result (λ at. at ≡ spec.declared_at place (before + index)) }
{
    match before.checked_add(index) {
        None => Err(Memory),
        Some(number) => declared_at(place, number),
    }
}

/// A place as it stands in a number, and `Memory` where it is too great.
fn place_in(place: usize) -> Result<u16, Memory>
    ensures { IfOk result (λ same. same ≡ place) }
{
    if place > u16::MAX as usize {
        return Err(Memory);
    }
    Ok(place as u16)
}

/// The index of the definition of the declaration of a number, if it has one.
fn definition_at(definitions: &Vec<Option<usize>>, number: usize) -> Option<usize>
    ensures { result ≡ spec.definition_at definitions.now.items number }
{
    match definitions.get(number) {
        None => None,
        Some(found) => *found,
    }
}

/// Puts an instance behind others, if there is one.
fn push_text<'a>(
    list: &mut Vec<InstanceText<'a>>,
    one: Option<InstanceText<'a>>,
) -> Result<(), Memory>
    ensures { OnOk result (texts_said list.new.items
        ≡ texts_said list.old.items ++ spec.put_before (option_map text_said one.entry) []) }
{
    match one {
        None => Ok(()),
        Some(text) => {
            list.push(text)?;
            Ok(())
        }
    }
}

/// Puts the instances of an interface behind others, given the indices of their definitions in the body.
fn push_promised<'a>(
    place: u16,
    interface: &'a [Decl<Parsed>],
    body: &'a [Decl<Parsed>],
    definitions: &Vec<Option<usize>>,
    list: &mut Vec<InstanceText<'a>>,
) -> Result<(), Memory>
    ensures { OnOk result (texts_said list.new.items
        ≡ texts_said list.old.items ++ spec.promised_from (declarations_of body.now) definitions.now.items
        place 0
        (declarations_of interface.now)) }
{
    for (number, one) in interface.iter().enumerate() {
        let at = declared_at(place, number)?;
        let methods = methods_at(body, definition_at(definitions, number));
        push_text(list, promised(at, methods, one))?;
    }
    Ok(())
}

/// An instance of a body, unless it is the definition of one of the interface.
fn unless_promised<'a>(
    is_definition: bool,
    one: Option<InstanceText<'a>>,
) -> Option<InstanceText<'a>>
    ensures { option_map text_said result ≡ spec.unless_promised is_definition
        (option_map text_said one.entry) }
{
    if is_definition { None } else { one }
}

/// Puts the instances of a body behind others, but for the definitions of what its interface declares, of
/// which these are the indices.
fn push_defined<'a>(
    alloc: Global,
    place: u16,
    before: usize,
    body: &'a [Decl<Parsed>],
    definitions: &Vec<Option<usize>>,
    list: &mut Vec<InstanceText<'a>>,
) -> Result<(), Memory>
    ensures { OnOk result (texts_said list.new.items
        ≡ texts_said list.old.items ++ spec.defined_from definitions.now.items place before 0
        (declarations_of body.now)) }
{
    let marks = marks_of(alloc, body.len(), definitions)?;
    for (index, one) in body.iter().enumerate() {
        let at = declared_behind(place, before, index)?;
        push_text(
            list,
            unless_promised(is_marked(&marks, index), defined(at, one)),
        )?;
    }
    Ok(())
}

/// Puts the instances of the two parts of a module behind others.
fn push_parts<'a>(
    alloc: Global,
    sight: &Sight,
    place: u16,
    interface: &'a [Decl<Parsed>],
    body: &'a [Decl<Parsed>],
    list: &mut Vec<InstanceText<'a>>,
) -> Result<(), Memory>
    ensures { OnOk result (texts_said list.new.items
        ≡ texts_said list.old.items ++ spec.instances_in (sight_in sight.now) place
        (declarations_of interface.now)
        (declarations_of body.now)) }
{
    let definitions = definition_indices(alloc, sight, interface, body)?;
    push_promised(place, interface, body, &definitions, list)?;
    push_defined(alloc, place, interface.len(), body, &definitions, list)
}

/// The declarations of a part of a module, of which there are none where it isn't there.
fn declarations_in<'a>(part: Option<&'a Whole<Parsed>>) -> &'a [Decl<Parsed>]
    ensures { declarations_of result.now ≡ exporting.declarations_seen (tree_seen part.entry) }
{
    match part {
        None => &[],
        Some(file) => file.tree().declarations.as_slice(),
    }
}

/// Puts the instances of the module at a place behind others.
fn push_module<'a>(
    alloc: Global,
    program: &'a Resolved,
    place: usize,
    list: &mut Vec<InstanceText<'a>>,
) -> Result<(), Memory>
    requires { place < length (slots.modules program.now) }
    ensures { (m : ModuleParts) → slice_get (slots.modules program.now) place ≡ Some m
        → OnOk result (texts_said list.new.items
        ≡ texts_said list.old.items ++ spec.module_instances (slots.modules program.now) place m) }
{
    let modules = program.modules();
    let sight = Sight {
        interface: &program.names(place, Part::Interface).types,
        body: &program.names(place, Part::Body).types,
        heads: program.heads_ref(),
    };
    let interface = declarations_in(modules.interface(place));
    let body = declarations_in(modules.body(place));
    push_parts(alloc, &sight, place_in(place)?, interface, body, list)
}

/// The instances of a program in the order of the text: modules by their places, in each the instances of its
/// interface before those of its body. An instance that an interface declares is one with its definition in
/// the body.
///
/// # Errors
///
/// Only for want of memory. It is also what is answered where a place or a number is too great.
pub fn instances_of<'a>(
    alloc: Global,
    program: &'a Resolved,
) -> Result<Vec<InstanceText<'a>>, Memory>
    ensures { IfOk result (λ all. texts_said all.items ≡ spec.instances_of (slots.modules program.now)) }
{
    let mut list = Vec::new(alloc);
    for place in 0..program.modules().len() {
        push_module(alloc, program, place, &mut list)?;
    }
    Ok(list)
}
