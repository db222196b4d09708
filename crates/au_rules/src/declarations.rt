//! Whether the declarations of a program are good.

ghost use Rattle.std.specs.Prelude.{◌≡◌, ◌⊎◌, ◌<◌, Err, IfOk, None, OnOk, Some, length};
ghost use Rattle.std.specs.Option.{option_map, option_or};
ghost use Rattle.au_rules.specs.Doubles as doubling;
ghost use Rattle.au_formed.specs.Forms as forms;
ghost use Rattle.au_formed.specs.Infinite as infinite;
ghost use Rattle.au_formed.specs.Naming as naming;
ghost use Rattle.au_formed.specs.Said.{spot_said, spots_said};
ghost use Rattle.au_formed.specs.Text as texts;
ghost use Rattle.au_names.specs.Walks as walks;
ghost use Rattle.au_modules.specs.Slots as slots;
ghost use Rattle.au_imports.specs.Choices.{first_of};
ghost use Rattle.au_promises.specs.Promises as places;
ghost use Rattle.au_rules.specs.DeclFaults as spec;
ghost use Rattle.au_rules.specs.Good.{AllDeclarationsAreGood};
ghost use Rattle.au_rules.specs.Tests as tests;
ghost use Rattle.au_types.specs.declared.types.DeclAt.{DeclAt};

use crate::Doubles;
use crate::faults::DeclFault;
use au_base::{Memory, Pos};
use au_formed::{
    FormFault, Spot, Visible, all_declarations, first_infinite, form_fault, namings_of, type_of,
    visible_at,
};
use au_imports::Resolved;
use au_syntax::{Decl, Parsed};
use au_types::DeclAt;
use std::alloc::Global;

/// The place of a declaration: that of its first token.
fn declaration_place(decl: &Decl<Parsed>) -> Pos
    ensures { result ≡ places.declaration_place (walks.written decl.now) }
{
    match decl {
        Decl::Constant(at, _, _) => *at,
        Decl::Opaque(at, _, _, _) => *at,
        Decl::Record(at, _, _, _, _) => *at,
        Decl::Union(at, _, _, _, _) => *at,
        Decl::Function(at, _, _) => *at,
        Decl::Class(at, _, _, _) => *at,
        Decl::Instance(at, _, _, _) => *at,
        Decl::ConstantBody(at, _, _, _) => *at,
        Decl::FunctionBody(at, _, _, _, _) => *at,
        Decl::InstanceBody(at, _, _, _, _) => *at,
    }
}

/// What is wrong with the form of a declaration, as a fault.
fn of_form(found: FormFault) -> DeclFault
    ensures { result ≡ spec.of_form found }
{
    match found {
        FormFault::Malformed(at) => DeclFault::Malformed(at),
        FormFault::EmptyUnion(at) => DeclFault::EmptyUnion(at),
        FormFault::UniverseBelow(at) => DeclFault::UniverseBelow(at),
    }
}

/// The first name of a declaration that is declared again, as a fault.
fn again(alloc: Global, doubles: &Doubles, at: DeclAt) -> Result<Option<DeclFault>, Memory>
    ensures { IfOk result (λ found. found ≡ option_map spec.of_double (doubling.double_at doubles.now at)) }
{
    match doubles.first(at) {
        None => Ok(None),
        Some(double) => {
            let name = double.name.copy(alloc)?;
            Ok(Some(DeclFault::Again(double.at, name)))
        }
    }
}

/// Whether a type is this one.
fn is_this(first: Option<DeclAt>, at: DeclAt) -> bool
    ensures { result ≡ tests.is_this first at }
{
    match first {
        None => false,
        Some(other) => at == other,
    }
}

/// What is refused of a declaration of this type, if it declares one, where this one is infinite.
fn type_fault(first: Option<DeclAt>, decl: &Decl<Parsed>, of: Option<DeclAt>) -> Option<DeclFault>
    ensures { result ≡ spec.type_fault (tests.is_this first) (walks.written decl.now) of }
{
    match of {
        None => None,
        Some(at) => {
            if is_this(first, at) {
                Some(DeclFault::Infinite(declaration_place(decl)))
            } else {
                None
            }
        }
    }
}

/// What a declaration is refused for beside its names, where this type is infinite.
fn made_fault(
    alloc: Global,
    visible: &Visible,
    first: Option<DeclAt>,
    decl: &Decl<Parsed>,
) -> Result<Option<DeclFault>, Memory>
    ensures { IfOk result
        (λ found. found ≡ option_or
        (option_map spec.of_form
        (forms.form_fault visible.now.names.now visible.now.heads.now (walks.written decl.now)))
        (spec.type_fault (tests.is_this first) (walks.written decl.now)
        (naming.type_of visible.now.names.now (walks.written decl.now)))) }
{
    match form_fault(alloc, visible, decl)? {
        Some(found) => Ok(Some(of_form(found))),
        None => Ok(type_fault(first, decl, type_of(visible, decl))),
    }
}

/// What a declaration of a program is refused for, where this type is infinite.
fn spot_fault(
    alloc: Global,
    resolved: &Resolved,
    doubles: &Doubles,
    first: Option<DeclAt>,
    spot: &Spot,
) -> Result<Option<DeclFault>, Memory>
    requires within { spot.now.at.«module» < length (slots.modules resolved.now) }
    requires made { (at : DeclAt)
        → doubling.double_at doubles.now at ≡ doubling.first_double (slots.modules resolved.now) at }
    ensures { IfOk result
        (λ found. found ≡ spec.fault_by (tests.is_this first) (slots.modules resolved.now)
        (spot_said spot.now)) }
{
    match again(alloc, doubles, spot.at)? {
        Some(fault) => Ok(Some(fault)),
        None => {
            let visible = visible_at(resolved, spot);
            made_fault(alloc, &visible, first, spot.decl)
        }
    }
}

/// The first that one of the declarations of a program is refused for, where this type is infinite.
fn first_fault(
    alloc: Global,
    resolved: &Resolved,
    doubles: &Doubles,
    first: Option<DeclAt>,
    all: &Vec<Spot>,
) -> Result<Option<DeclFault>, Memory>
    requires text { spots_said all.now.items ≡ texts.text (slots.modules resolved.now) }
    requires made { (at : DeclAt)
        → doubling.double_at doubles.now at ≡ doubling.first_double (slots.modules resolved.now) at }
    ensures { IfOk result
        (λ found. found ≡ first_of (spec.fault_by (tests.is_this first) (slots.modules resolved.now))
        (texts.text (slots.modules resolved.now))) }
{
    for one in all {
        match spot_fault(alloc, resolved, doubles, first, one)? {
            Some(fault) => return Ok(Some(fault)),
            None => {}
        }
    }
    Ok(None)
}

/// The first type of a program that is infinite, given its declarations in the order of the text.
fn first_type(alloc: Global, resolved: &Resolved, all: &Vec<Spot>) -> Result<Option<DeclAt>, Memory>
    requires { spots_said all.now.items ≡ texts.text (slots.modules resolved.now) }
    ensures { IfOk result
        (λ first. first ≡ infinite.first_infinite (naming.namings (slots.modules resolved.now))) }
{
    let list = namings_of(alloc, resolved, all)?;
    first_infinite(alloc, &list)
}

/// What the declarations of a program are refused for, the first in the order of the text.
fn decl_fault(alloc: Global, resolved: &Resolved) -> Result<Option<DeclFault>, Memory>
    ensures { IfOk result (λ found. found ≡ spec.decl_fault (slots.modules resolved.now)) }
{
    let all = all_declarations(alloc, resolved.modules())?;
    let doubles = Doubles::of(alloc, resolved)?;
    let first = first_type(alloc, resolved, &all)?;
    first_fault(alloc, resolved, &doubles, first, &all)
}

/// Whether the declarations of a program are good.
///
/// # Errors
///
/// What the first declaration is refused for that isn't good: modules by their places, the interface of each
/// before its body, in the order of the text. Of one declaration its first name that is declared again
/// (`DeclFault::Again`); else the first that is written in it and isn't well formed (`DeclFault::Malformed`),
/// at the first token of a type, at a name that stands for a class, at the name of a type parameter and at
/// the first token of a declared type; else, at its first token, that it is a union without a case
/// (`DeclFault::EmptyUnion`); else its first field that is above its universe, at its name
/// (`DeclFault::UniverseBelow`); else, at its first token, that its type is infinite (`DeclFault::Infinite`).
/// `DeclFault::Memory` where no memory was found, in place of any other answer.
pub fn declarations_hold(alloc: Global, resolved: &Resolved) -> Result<(), DeclFault>
    // Declarations hold where all are good, and only there.
    ensures good { OnOk result (AllDeclarationsAreGood (slots.modules resolved.now)) }
    ensures accepted { OnOk result (spec.decl_fault (slots.modules resolved.now) ≡ None) }
    // What is refused is refused for this, or memory ran out.
    ensures refused { (e : DeclFault) → result ≡ Err e
        → (e ≡ DeclFault.Memory) ⊎ (spec.decl_fault (slots.modules resolved.now) ≡ Some e) }
{
    match decl_fault(alloc, resolved)? {
        Some(fault) => Err(fault),
        None => Ok(()),
    }
}
