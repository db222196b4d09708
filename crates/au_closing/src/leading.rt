//! What calls lead to.

ghost use Rattle.std.specs.Prelude.{◌≡◌, IfOk, Some, find, position};
ghost use Rattle.std.specs.Option.{option_map};
ghost use Rattle.au_closing.specs.Leading as spec;
ghost use Rattle.au_closing.specs.ClosingViews.{lead_said};
ghost use Rattle.au_type_texts.specs.GivenViews.{given_said};
ghost use Rattle.au_modules.specs.Slots as slots;
ghost use Rattle.au_names.specs.Walks.{written, written_parameter};
ghost use Rattle.au_sights.specs.Views.{note as note_said};
ghost use Rattle.au_typing.specs.Called.{is_case, is_method};
ghost use Rattle.au_promises.specs.Written.{header_of};
ghost use Rattle.au_sights.specs.Steps.{method_seen, methods_of, variants_of};
ghost use Rattle.au_syntax.specs.contracts.parsed.ParsedPhase.TheImpl.{ghosts as parsed};
ghost use Rattle.au_syntax.specs.Plain.{plain_variant};
ghost use Rattle.au_syntax.specs.Views.{variant};
ghost use Rattle.au_types.specs.Tables as tables;

use crate::classes::class_leads;
use crate::functions::function_leads;
use crate::instances::Lead;
use au_base::{Memory, Name, Text};
use au_imports::Resolved;
use au_instances::Instances;
use au_names::{PartNames, Target};
use au_sights::Notes;
use au_syntax::{Decl, Parsed, Signature, TypeParameter, UnionCase};
use au_type_texts::{GivenType, closed_under, value_under};
use std::alloc::Global;

/// What is seen in the body of a module.
#[derive(Clone, Copy)]
pub struct Sight<'a> {
    /// The program.
    pub program: &'a Resolved,
    /// The instances of its classes.
    pub instances: &'a Instances,
    /// What names mean in the body.
    pub names: &'a PartNames,
}

/// The first method of a name, if there is one.
fn method_named<'a>(
    name: &Text,
    methods: &'a Vec<Signature<Parsed>>,
) -> Option<&'a Signature<Parsed>>
    ensures { method_seen result ≡ find (is_method name.now) (methods_of methods.now.items) }
{
    for one in methods {
        if name.as_bytes() == one.name.name.as_bytes() {
            return Some(one);
        }
    }
    None
}

/// The place of the first case of a name, if there is one.
fn case_place(name: &Text, cases: &Vec<UnionCase<Parsed>>) -> Option<usize>
    ensures { result
        ≡ position (λ one. is_case name.now (plain_variant parsed.name_bytes (variant parsed one)))
        cases.now.items }
{
    cases
        .iter()
        .position(|one| name.as_bytes() == one.name.name.as_bytes())
}

/// The constructor of the type of a call's expression, for the case at a place.
fn maker_leads(
    alloc: Global,
    given: &[GivenType],
    note: &Notes,
    place: usize,
) -> Result<Lead, Memory>
    ensures { IfOk result (λ lead.
        lead_said lead ≡ spec.maker_leads (given_said given.now) (note_said note.now) place) }
{
    if place > u32::MAX as usize {
        return Err(Memory);
    }
    let of = closed_under(alloc, given, &note.of)?;
    Ok(Lead::Constructor {
        of,
        tag: place as u32,
    })
}

/// What a call of a method of this signature leads to, of the class with this parameter.
fn signature_leads(
    alloc: Global,
    sight: &Sight,
    given: &[GivenType],
    note: &Notes,
    target: &Target,
    param: &TypeParameter<Parsed>,
    one: &Signature<Parsed>,
) -> Result<Lead, Memory>
    ensures { IfOk result (λ lead.
        lead_said lead
        ≡ spec.called_leads (slots.modules sight.now.program.now) sight.now.instances.now
        (given_said given.now) (note_said note.now) target.now
        (Some (spec.method_called (written_parameter param.now).name.name (header_of one.now)))) }
{
    let of = value_under(alloc, given, &note.call, &param.name.name)?;
    class_leads(
        alloc,
        sight.program,
        sight.instances,
        target.at,
        &one.name.name,
        &of,
    )
}

/// What a call leads to of what this declaration has under the name that means it.
fn declared_leads(
    alloc: Global,
    sight: &Sight,
    given: &[GivenType],
    note: &Notes,
    target: &Target,
    decl: &Decl<Parsed>,
) -> Result<Lead, Memory>
    ensures { IfOk result (λ lead.
        lead_said lead
        ≡ spec.called_leads (slots.modules sight.now.program.now) sight.now.instances.now
        (given_said given.now) (note_said note.now) target.now
        (spec.called_of target.now.name (written decl.now))) }
{
    match decl {
        Decl::Constant(_, _, _) => Ok(Lead::Nowhere),
        Decl::Opaque(_, _, _, _) => Ok(Lead::Nowhere),
        Decl::Record(_, _, _, _, _) => maker_leads(alloc, given, note, 0),
        Decl::Union(_, _, _, _, cases) => case_leads(alloc, given, note, target, cases),
        Decl::Function(_, generics, one) => {
            function_leads(
                alloc,
                sight.program,
                given,
                &note.call,
                target,
                &one.name.name,
                generics,
            )
        }
        Decl::Class(_, _, param, methods) => {
            method_leads(alloc, sight, given, note, target, param, methods)
        }
        Decl::Instance(_, _, _, _) => Ok(Lead::Nowhere),
        Decl::ConstantBody(_, _, _, _) => Ok(Lead::Nowhere),
        Decl::FunctionBody(_, generics, one, _, _) => {
            function_leads(
                alloc,
                sight.program,
                given,
                &note.call,
                target,
                &one.name.name,
                generics,
            )
        }
        Decl::InstanceBody(_, _, _, _, _) => Ok(Lead::Nowhere),
    }
}

/// What a call of a case of a union leads to.
fn case_leads(
    alloc: Global,
    given: &[GivenType],
    note: &Notes,
    target: &Target,
    cases: &Vec<UnionCase<Parsed>>,
) -> Result<Lead, Memory>
    ensures { IfOk result (λ lead.
        lead_said lead
        ≡ spec.case_leads (given_said given.now) (note_said note.now)
        (position (is_case target.now.name) (variants_of cases.now.items))) }
{
    match case_place(&target.name, cases) {
        None => Ok(Lead::Nowhere),
        Some(place) => maker_leads(alloc, given, note, place),
    }
}

/// What a call of a method of a class leads to.
fn method_leads(
    alloc: Global,
    sight: &Sight,
    given: &[GivenType],
    note: &Notes,
    target: &Target,
    param: &TypeParameter<Parsed>,
    methods: &Vec<Signature<Parsed>>,
) -> Result<Lead, Memory>
    ensures { IfOk result (λ lead.
        lead_said lead
        ≡ spec.called_leads (slots.modules sight.now.program.now) sight.now.instances.now
        (given_said given.now) (note_said note.now) target.now
        (option_map (spec.method_called (written_parameter param.now).name.name)
        (find (is_method target.now.name) (methods_of methods.now.items)))) }
{
    match method_named(&target.name, methods) {
        None => Ok(Lead::Nowhere),
        Some(one) => signature_leads(alloc, sight, given, note, target, param, one),
    }
}

/// What a call leads to of what this name means.
fn target_leads(
    alloc: Global,
    sight: &Sight,
    given: &[GivenType],
    note: &Notes,
    target: &Target,
) -> Result<Lead, Memory>
    ensures { IfOk result (λ lead.
        lead_said lead
        ≡ spec.target_leads (slots.modules sight.now.program.now) sight.now.instances.now
        (given_said given.now) (note_said note.now) (Some target.now)) }
{
    match sight.program.declaration(target.at) {
        None => Ok(Lead::Nowhere),
        Some(found) => declared_leads(alloc, sight, given, note, target, found.decl),
    }
}

/// What a call of a name leads to where this is seen and this is given for the type parameters, by the note
/// of the call's expression.
///
/// # Errors
///
/// Only for want of memory. It is also what is answered where the place of a case is too great.
pub fn call_leads(
    alloc: Global,
    sight: &Sight,
    given: &[GivenType],
    note: &Notes,
    name: &Name,
) -> Result<Lead, Memory>
    ensures { IfOk result (λ lead.
        lead_said lead
        ≡ spec.target_leads (slots.modules sight.now.program.now) sight.now.instances.now
        (given_said given.now) (note_said note.now)
        (tables.find name.now sight.now.names.now.callables)) }
{
    match sight.names.callables.get(name.as_bytes()) {
        None => Ok(Lead::Nowhere),
        Some(target) => target_leads(alloc, sight, given, note, target),
    }
}
