//! From files to modules.

ghost use Rattle.std.specs.Prelude.{◌≡◌, ◌++◌, ◌⊎◌, IfOk, IsTrue, OnOk, Some, None, map, position};
ghost use Rattle.au_modules.specs.Counts.{are_few};
ghost use Rattle.au_modules.specs.Programs as spec;
ghost use Rattle.au_modules.specs.Programs.{entry, refusal_of, modules_of};
ghost use Rattle.au_modules.specs.Slots.{all_slots, modules, shipped_slots, body_slots, body_slot};
ghost use Rattle.au_modules.specs.Slots.{gives_interface};

use crate::faults::ModuleFault;
use crate::modules::{Modules, Slot};
use crate::parts::{Given, given_by};
use crate::rounds::{first_again, first_bodiless, first_fault, is_interface};
use au_base::Memory;
use au_syntax::FileTree;
use std::alloc::Global;

/// What each file gives.
fn given_all(alloc: Global, files: &Vec<FileTree>) -> Result<Vec<Given>, Memory>
    ensures { IfOk result (λ givens. givens.items ≡ map spec.given (map entry files.now.items)) }
{
    let mut givens = Vec::new(alloc);
    for one in files {
        let next = given_by(alloc, one)?;
        givens.push(next)?;
    }
    Ok(givens)
}

/// The index of the interface of the module of a name.
fn interface_at(givens: &Vec<Given>, name: &[u8]) -> Option<usize>
    ensures { result ≡ position (gives_interface name.now) givens.now.items }
{
    givens.iter().position(|one| is_interface(one.part) && name == one.name.as_bytes())
}

/// A body with the interface of its module.
fn slot_of_body(
    alloc: Global,
    givens: &Vec<Given>,
    index: usize,
    one: &Given,
) -> Result<Slot, Memory>
    ensures { IfOk result (λ slot. slot ≡ body_slot givens.now.items index one.now) }
{
    let interface = interface_at(givens, one.name.as_bytes());
    let name = one.name.copy(alloc)?;
    Ok(Slot {
        name,
        interface,
        body: Some(index),
    })
}

/// Puts the shipped modules behind others.
fn push_shipped(alloc: Global, givens: &Vec<Given>, slots: &mut Vec<Slot>) -> Result<(), Memory>
    ensures { OnOk result (slots.new.items ≡ slots.old.items ++ shipped_slots 0 givens.now.items) }
{
    for (index, one) in givens.iter().enumerate() {
        if one.shipped {
            let name = one.name.copy(alloc)?;
            slots.push(Slot {
                name,
                interface: Some(index),
                body: None,
            })?;
        }
    }
    Ok(())
}

/// Puts the modules of the user behind others.
fn push_bodies(alloc: Global, givens: &Vec<Given>, slots: &mut Vec<Slot>) -> Result<(), Memory>
    ensures { OnOk result
        (slots.new.items ≡ slots.old.items ++ body_slots givens.now.items 0 givens.now.items) }
{
    for (index, one) in givens.iter().enumerate() {
        if !one.shipped && !is_interface(one.part) {
            let slot = slot_of_body(alloc, givens, index, one)?;
            slots.push(slot)?;
        }
    }
    Ok(())
}

/// Where the parts of the modules lie.
fn slots_of(alloc: Global, givens: &Vec<Given>) -> Result<Vec<Slot>, Memory>
    ensures { IfOk result (λ slots. slots.items ≡ all_slots givens.now.items) }
{
    let mut slots = Vec::new(alloc);
    push_shipped(alloc, givens, &mut slots)?;
    push_bodies(alloc, givens, &mut slots)?;
    Ok(slots)
}

/// The modules that these files are. The shipped files come first.
///
/// # Errors
///
/// What the files are refused for, the first that three rounds over the files in order find: a limit
/// that a declaration passes (`ModuleFault::Limit`) or a pragma (`ModuleFault::Unsafe`), whichever
/// stands first in the text; then a part that is given twice (`ModuleFault::TwiceGiven`); then an
/// interface without a body (`ModuleFault::NoBody`). `ModuleFault::Memory` where no memory was found,
/// in place of any other answer.
pub fn gather(alloc: Global, files: Vec<FileTree>) -> Result<Modules, ModuleFault>
    requires { IsTrue (are_few (map entry files.items)) }
    // The modules are those of the files by their places.
    ensures modules { IfOk result (λ m. modules m ≡ modules_of (map entry files.items)) }
    // Nothing is refused where they are given.
    ensures accepted { IfOk result (λ m. refusal_of (map entry files.items) ≡ None) }
    // What is refused is refused for this, or memory ran out.
    ensures refused { (e : ModuleFault) → result ≡ Err e
        → (e ≡ ModuleFault.Memory) ⊎ (refusal_of (map entry files.items) ≡ Some e) }
{
    if let Some(fault) = first_fault(&files) {
        return Err(fault);
    }
    let givens = given_all(alloc, &files)?;
    if let Some(fault) = first_again(alloc, &givens)? {
        return Err(fault);
    }
    if let Some(fault) = first_bodiless(alloc, &givens)? {
        return Err(fault);
    }
    let slots = slots_of(alloc, &givens)?;
    Ok(Modules { files, slots })
}
