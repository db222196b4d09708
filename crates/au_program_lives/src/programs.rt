//! Whether every variable of a program has a good life.

ghost use Rattle.std.specs.Prelude.{◌≡◌, ◌⊎◌, ◌<◌, Err, IfOk, None, OnOk, Some, length};
ghost use Rattle.au_formed.specs.Said.{spot_said, spots_said};
ghost use Rattle.au_formed.specs.Text as texts;
ghost use Rattle.au_modules.specs.Slots as slots;
ghost use Rattle.au_imports.specs.Choices.{first_of};
ghost use Rattle.au_names.specs.Walks as walks;
ghost use Rattle.au_program_lives.specs.Good.{AllLivesAreGood};
ghost use Rattle.au_program_lives.specs.LinearFaults as spec;
ghost use Rattle.au_program_lives.specs.ProgramSaid.{scope_of};

use crate::faults::LinearFault;
use crate::functions::{function_fault, methods_fault};
use au_base::Memory;
use au_formed::{Spot, Visible, all_declarations, visible_at};
use au_imports::Resolved;
use au_promises::type_parameters;
use au_syntax::{Decl, Parsed};
use au_types::Params;
use std::alloc::Global;

/// What is told of a declaration with these type parameters, where this is visible.
fn declared_fault(
    alloc: Global,
    visible: &Visible,
    params: &Params,
    decl: &Decl<Parsed>,
) -> Result<Option<LinearFault>, Memory>
    ensures { IfOk result (λ found. found
        ≡ spec.declared_fault (walks.written decl.now) (scope_of params.now visible.now)) }
{
    match decl {
        Decl::FunctionBody(_, _, signature, body, _) => {
            function_fault(alloc, visible, params, signature, body)
        }
        Decl::InstanceBody(_, _, _, _, methods) => methods_fault(alloc, visible, params, methods),
        Decl::Constant(_, _, _) => Ok(None),
        Decl::Opaque(_, _, _, _) => Ok(None),
        Decl::Record(_, _, _, _, _) => Ok(None),
        Decl::Union(_, _, _, _, _) => Ok(None),
        Decl::Function(_, _, _) => Ok(None),
        Decl::Class(_, _, _, _) => Ok(None),
        Decl::Instance(_, _, _, _) => Ok(None),
        Decl::ConstantBody(_, _, _, _) => Ok(None),
    }
}

/// What is told of a declaration of a program.
fn spot_fault(
    alloc: Global,
    resolved: &Resolved,
    spot: &Spot,
) -> Result<Option<LinearFault>, Memory>
    requires { spot.now.at.«module» < length (slots.modules resolved.now) }
    ensures { IfOk result (λ found. found
        ≡ spec.declaration_fault (slots.modules resolved.now) (spot_said spot.now)) }
{
    let visible = visible_at(resolved, spot);
    let params = type_parameters(alloc, spot.decl)?;
    declared_fault(alloc, &visible, &params, spot.decl)
}

/// What is told of the first declaration of a program that is refused, given its declarations.
fn first_fault(
    alloc: Global,
    resolved: &Resolved,
    all: &Vec<Spot>,
) -> Result<Option<LinearFault>, Memory>
    requires { spots_said all.now.items ≡ texts.text (slots.modules resolved.now) }
    ensures { IfOk result (λ found. found ≡ spec.linear_fault (slots.modules resolved.now)) }
{
    for one in all {
        match spot_fault(alloc, resolved, one)? {
            Some(fault) => return Ok(Some(fault)),
            None => {}
        }
    }
    Ok(None)
}

/// What is told of a program that is refused.
fn linear_fault(alloc: Global, resolved: &Resolved) -> Result<Option<LinearFault>, Memory>
    ensures { IfOk result (λ found. found ≡ spec.linear_fault (slots.modules resolved.now)) }
{
    let all = all_declarations(alloc, resolved.modules())?;
    first_fault(alloc, resolved, &all)
}

/// Whether every variable of a program has a good life.
///
/// # Errors
///
/// What is wrong with the first variable that has none: modules by their places, functions and methods and
/// the variables of each in the order of the text, parameters first. Where it is consumed in a loop, the
/// first such place (`LinearFault::InLoop`); else where it is consumed in a part of an expression that may be
/// left out, the first such place (`LinearFault::InPart`); else a path that breaks its life, and how
/// (`LinearFault::Life`). `LinearFault::Memory` where no memory was found, in place of any other answer.
pub fn check_linear(alloc: Global, resolved: &Resolved) -> Result<(), LinearFault>
    // It holds where every variable has a good life, and only there.
    ensures good { OnOk result (AllLivesAreGood (slots.modules resolved.now)) }
    ensures accepted { OnOk result (spec.linear_fault (slots.modules resolved.now) ≡ None) }
    // What is refused is refused for this, or memory ran out.
    ensures refused { (e : LinearFault) → result ≡ Err e
        → (e ≡ LinearFault.Memory) ⊎ (spec.linear_fault (slots.modules resolved.now) ≡ Some e) }
{
    match linear_fault(alloc, resolved)? {
        Some(fault) => Err(fault),
        None => Ok(()),
    }
}
