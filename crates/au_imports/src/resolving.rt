//! From modules to a program of which every name is known.

ghost use Rattle.std.specs.Prelude.{◌≡◌, ◌⊎◌, IfOk, Some, None, Err};
ghost use Rattle.au_imports.specs.Importing.{refusal_of};
ghost use Rattle.au_modules.specs.Slots.{modules};

use crate::faults::ImportFault;
use crate::finding::name_fault;
use crate::programs::Resolved;
use au_base::Memory;
use au_modules::Modules;
use au_names::NamedModules;
use au_promises::promise_fault;
use std::alloc::Global;

/// What a program is refused for, if it is refused: for a name, or else for a promise.
fn refusal(alloc: Global, resolved: &NamedModules) -> Result<Option<ImportFault>, Memory>
    ensures { IfOk result (λ found. found ≡ refusal_of (modules resolved.now)) }
{
    if let Some(found) = name_fault(alloc, resolved)? {
        return Ok(Some(ImportFault::from(found)));
    }
    match promise_fault(alloc, resolved)? {
        Some(found) => Ok(Some(ImportFault::from(found))),
        None => Ok(None),
    }
}

/// The program of these modules, where every name means one thing and every promise of an interface is kept:
/// of each that is given this is known.
///
/// # Errors
///
/// What the modules are refused for, the first: of names, modules by their places, the interface of each
/// before its body, in the order of the text (`ImportFault::NoModule`, `ImportFault::Late`,
/// `ImportFault::NotVisible`, `ImportFault::NameTwice`); then of promises, modules by their places, the
/// declarations of each interface in the order of the text (`ImportFault::NotDefined`,
/// `ImportFault::Differs`). `ImportFault::Memory` where no memory was found, in place of any other answer.
pub fn resolve(alloc: Global, program: Modules) -> Result<Resolved, ImportFault>
    // The modules are kept, with all that is known of their names and types.
    ensures kept { IfOk result (λ resolved. resolved ≡ program) }
    // Nothing is refused where they are.
    ensures accepted { IfOk result (λ resolved. refusal_of (modules program) ≡ None) }
    // What is refused is refused for this, or memory ran out.
    ensures refused { (e : ImportFault) → result ≡ Err e
        → (e ≡ ImportFault.Memory) ⊎ (refusal_of (modules program) ≡ Some e) }
{
    let named = NamedModules::of(alloc, program)?;
    match refusal(alloc, &named)? {
        Some(fault) => Err(fault),
        None => Ok(Resolved::accepted(named)),
    }
}
