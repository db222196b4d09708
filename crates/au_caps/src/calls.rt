//! What the calls in a body lead to.

ghost use Rattle.std.specs.Prelude.{◌≡◌, ◌++◌, ◌∷◌, [], None, OnOk, Some, map, option_copied};
ghost use Rattle.std.specs.Option.{option_and_then, option_map};
ghost use Rattle.au_caps.specs.Calls as spec;
ghost use Rattle.au_caps.specs.Views.{callee_said, leads_seen};
ghost use Rattle.au_caps.specs.Calls.{module_name};
ghost use Rattle.au_instances.specs.Constructors.{constructor_of};
ghost use Rattle.au_modules.specs.Slots as slots;
ghost use Rattle.au_names.specs.Walks.{written};
ghost use Rattle.au_shipped.specs.Calls.{prim_of};
ghost use Rattle.au_sights.specs.Views.{note as note_said};
ghost use Rattle.au_types.specs.Views.{meaning};

use crate::callees::Callee;
use au_base::{Memory, Name};
use au_closed_trees::changes::Finder;
use au_imports::Resolved;
use au_instances::{Constructor, constructor_of};
use au_names::{PartNames, Target};
use au_shipped::{ShippedCall, prim_of};
use au_sights::Notes;
use au_syntax::{Decl, Parsed, TypeParameter};
use au_types::{Arg, DeclAt, Ty};
use std::alloc::Global;

/// What is seen of what is called.
#[derive(Clone, Copy)]
pub(crate) struct Sight<'a> {
    /// The program.
    pub program: &'a Resolved,
    /// What names mean in the part.
    pub names: &'a PartNames,
}

/// Puts that a value of a declared type is born.
fn add_born(at: DeclAt, found: &mut Vec<Callee>) -> Result<(), Memory>
    ensures { OnOk result (map callee_said found.new.items ≡ map callee_said found.old.items ++ spec.a_birth
        at ∷ []) }
{
    found.push(Callee::Birth(at))?;
    Ok(())
}

/// Puts that the function is called that a name means.
fn add_called(alloc: Global, target: &Target, found: &mut Vec<Callee>) -> Result<(), Memory>
    ensures { OnOk result (map callee_said found.new.items
        ≡ map callee_said found.old.items ++ spec.a_function target.now.at.«module» target.now.name ∷ []) }
{
    let name = target.name.copy(alloc)?;
    found.push(Callee::Function(target.at.module, name))?;
    Ok(())
}

/// Puts that the method that a name means is called of all instances.
fn add_every(alloc: Global, target: &Target, found: &mut Vec<Callee>) -> Result<(), Memory>
    ensures { OnOk result (map callee_said found.new.items
        ≡ map callee_said found.old.items ++ spec.a_method target.now.at target.now.name ∷ []) }
{
    let name = target.name.copy(alloc)?;
    found.push(Callee::Method(target.at, name))?;
    Ok(())
}

/// Puts that the methods of the instance of a class are called whose head has a constructor.
fn add_instance(class: DeclAt, one: Constructor, found: &mut Vec<Callee>) -> Result<(), Memory>
    ensures { OnOk result (map callee_said found.new.items
        ≡ map callee_said found.old.items ++ spec.an_instance class one ∷ []) }
{
    found.push(Callee::Instance(class, one))?;
    Ok(())
}

/// Puts the birth of a value of a type, if it is a declared one.
fn add_birth(of: &Ty, found: &mut Vec<Callee>) -> Result<(), Memory>
    ensures { OnOk result (map callee_said found.new.items
        ≡ map callee_said found.old.items ++ spec.birth_of (meaning of.now)) }
{
    match of {
        Ty::Unit => Ok(()),
        Ty::Bool => Ok(()),
        Ty::Int(_) => Ok(()),
        Ty::Text => Ok(()),
        Ty::Param(_) => Ok(()),
        Ty::Named { of, .. } => add_born(*of, found),
        Ty::Read { .. } => Ok(()),
        Ty::Write { .. } => Ok(()),
    }
}

/// Whether a shipped call gives birth to what it answers.
fn gives_birth(call: ShippedCall) -> bool
    ensures { result ≡ spec.gives_birth (Some call) }
{
    match call {
        ShippedCall::PrintText => false,
        ShippedCall::PrintInt => false,
        ShippedCall::PrintBool => false,
        ShippedCall::PrintLnText => false,
        ShippedCall::PrintLnInt => false,
        ShippedCall::PrintLnBool => false,
        ShippedCall::Wrap(_, _) => false,
        ShippedCall::Convert(_) => false,
        ShippedCall::SurrenderRoot => false,
        ShippedCall::Abort => false,
        ShippedCall::SpanLength => false,
        ShippedCall::Swap => false,
        ShippedCall::MakeBox => true,
        ShippedCall::Unbox => false,
        ShippedCall::BoxGet => false,
        ShippedCall::BoxGetMut => false,
        ShippedCall::MakeEmpty => true,
        ShippedCall::DestroyEmpty => false,
        ShippedCall::Length => false,
        ShippedCall::InsertBack => false,
        ShippedCall::RemoveBack => false,
        ShippedCall::Nth => false,
        ShippedCall::ReplaceNth => false,
        ShippedCall::AcquireTerminal => true,
        ShippedCall::ReadByte => false,
        ShippedCall::WriteByte => false,
        ShippedCall::ReleaseTerminal => false,
    }
}

/// The shipped function of a name in the module at a place, if there is one.
fn shipped_function(program: &Resolved, place: u16, name: &Name) -> Option<ShippedCall>
    ensures { result ≡ prim_of (module_name (slots.modules program.now) place) name.now None }
{
    let modules = program.modules();
    if (place as usize) < modules.len() {
        prim_of(modules.name(place as usize), name, None)
    } else {
        None
    }
}

/// Whether the function of a name in the module at a place is a shipped one that gives birth.
fn is_birth(program: &Resolved, place: u16, name: &Name) -> bool
    ensures { result
        ≡ spec.gives_birth (prim_of (module_name (slots.modules program.now) place) name.now None) }
{
    match shipped_function(program, place, name) {
        None => false,
        Some(call) => gives_birth(call),
    }
}

/// Puts what a call of a function of a name leads to.
fn add_function(
    alloc: Global,
    program: &Resolved,
    of: &Notes,
    target: &Target,
    name: &Name,
    found: &mut Vec<Callee>,
) -> Result<(), Memory>
    ensures { OnOk result (map callee_said found.new.items
        ≡ map callee_said found.old.items ++ spec.function_leads
        (spec.gives_birth (prim_of (module_name (slots.modules program.now) target.now.at.«module») name.now
        None))
        (note_said of.now) target.now) }
{
    if is_birth(program, target.at.module, name) {
        return add_birth(&of.of, found);
    }
    add_called(alloc, target, found)
}

/// What the type parameter of a class stands for at a call, if that is a type.
fn value_at<'a>(of: &'a Notes, param: &Name) -> Option<&'a Ty>
    ensures { option_map meaning (option_copied result) ≡ spec.type_at (note_said of.now) param.now }
{
    match &of.call {
        None => None,
        Some(call) => match call.value_of(param) {
            Some(Arg::Of(of)) => Some(of),
            Some(Arg::In(_)) => None,
            None => None,
        },
    }
}

/// The constructor of the type for which the type parameter of a class stands at a call, if it has one.
fn constructor_at(of: &Notes, param: &Name) -> Option<Constructor>
    ensures { result ≡ option_and_then constructor_of (spec.type_at (note_said of.now) param.now) }
{
    match value_at(of, param) {
        None => None,
        Some(at) => constructor_of(at),
    }
}

/// Puts what a call of a method leads to.
fn add_method(
    alloc: Global,
    of: &Notes,
    target: &Target,
    param: &TypeParameter<Parsed>,
    found: &mut Vec<Callee>,
) -> Result<(), Memory>
    ensures { OnOk result (map callee_said found.new.items
        ≡ map callee_said found.old.items ++ spec.method_leads target.now
        (option_and_then constructor_of (spec.type_at (note_said of.now) param.now.name.name))) }
{
    match constructor_at(of, &param.name.name) {
        None => add_every(alloc, target, found),
        Some(one) => add_instance(target.at, one, found),
    }
}

/// Puts what a call of what a declaration declares leads to.
fn add_declared(
    alloc: Global,
    program: &Resolved,
    of: &Notes,
    target: &Target,
    decl: &Decl<Parsed>,
    found: &mut Vec<Callee>,
) -> Result<(), Memory>
    ensures { OnOk result (map callee_said found.new.items
        ≡ map callee_said found.old.items ++ spec.declared_leads (slots.modules program.now)
        (note_said of.now) target.now (written decl.now)) }
{
    match decl {
        Decl::Constant(_, _, _) => Ok(()),
        Decl::Opaque(_, _, _, _) => Ok(()),
        Decl::Record(_, _, _, _, _) => add_birth(&of.of, found),
        Decl::Union(_, _, _, _, _) => add_birth(&of.of, found),
        Decl::Function(_, _, one) => {
            add_function(alloc, program, of, target, &one.name.name, found)
        }
        Decl::Class(_, _, param, _) => add_method(alloc, of, target, param, found),
        Decl::Instance(_, _, _, _) => Ok(()),
        Decl::ConstantBody(_, _, _, _) => Ok(()),
        Decl::FunctionBody(_, _, one, _, _) => {
            add_function(alloc, program, of, target, &one.name.name, found)
        }
        Decl::InstanceBody(_, _, _, _, _) => Ok(()),
    }
}

/// Puts what a call of what this name means leads to.
fn add_target(
    alloc: Global,
    program: &Resolved,
    of: &Notes,
    target: &Target,
    found: &mut Vec<Callee>,
) -> Result<(), Memory>
    ensures { OnOk result (map callee_said found.new.items
        ≡ map callee_said found.old.items ++ spec.target_leads (slots.modules program.now)
        (note_said of.now) (Some target.now)) }
{
    match program.declaration(target.at) {
        None => Ok(()),
        Some(declared) => add_declared(alloc, program, of, target, declared.decl, found),
    }
}

/// Puts what a call of a name leads to, by what it means, if it means something.
fn add_found(
    alloc: Global,
    program: &Resolved,
    of: &Notes,
    target: Option<&Target>,
    found: &mut Vec<Callee>,
) -> Result<(), Memory>
    ensures { OnOk result (map callee_said found.new.items
        ≡ map callee_said found.old.items ++ spec.target_leads (slots.modules program.now)
        (note_said of.now) (option_copied target.entry)) }
{
    match target {
        None => Ok(()),
        Some(target) => add_target(alloc, program, of, target, found),
    }
}

impl<'a> Finder for Sight<'a> {
    type Found = Callee;

    ghost Seen = { spec.Callee };

    ghost see = { λ one. callee_said one };

    ghost leads = { λ sight. leads_seen sight };

    fn add(
        &self,
        alloc: Global,
        of: &Notes,
        name: &Name,
        found: &mut Vec<Callee>,
    ) -> Result<(), Memory> {
        let target = self.names.callables.get(name.as_bytes());
        add_found(alloc, self.program, of, target, found)
    }
}
