//! Why files are refused: three rounds over the files in order.

ghost use Rattle.std.specs.Prelude.{◌≡◌, [], IfOk, map};
ghost use Rattle.std.specs.List.{list_any};
ghost use Rattle.au_modules.specs.Programs as spec;
ghost use Rattle.au_modules.specs.Programs.{entry};

use crate::faults::ModuleFault;
use crate::limits::limit_in;
use crate::parts::{FIRST_SHIPPED, Given};
use au_base::Memory;
use au_syntax::{FileTree, Part};
use std::alloc::Global;

/// What is refused in a file for itself.
pub fn fault_in(file: &FileTree) -> Option<ModuleFault>
    ensures { result ≡ spec.fault_in (entry file.now) }
{
    let tree = file.tree.tree();
    if file.file < FIRST_SHIPPED
        && let Some(at) = tree.pragma
    {
        return Some(ModuleFault::Unsafe(at));
    }
    match limit_in(&tree.declarations) {
        Some(limit) => Some(ModuleFault::Limit(limit)),
        None => None,
    }
}

/// The first round: what is refused in a file for itself, in the first such file.
pub fn first_fault(files: &Vec<FileTree>) -> Option<ModuleFault>
    ensures { result ≡ spec.first_fault (map entry files.now.items) }
{
    for one in files {
        if let Some(fault) = fault_in(one) {
            return Some(fault);
        }
    }
    None
}

/// Whether a part is an interface.
pub fn is_interface(part: Part) -> bool
    ensures { result ≡ spec.is_interface part }
{
    match part {
        Part::Interface => true,
        Part::Body => false,
    }
}

/// Whether a file gives what an earlier one gave, or has the name of a shipped one.
fn clashes(later: &Given, earlier: &Given) -> bool
    ensures { result ≡ spec.clashes later.now earlier.now }
{
    let same = is_interface(later.part) == is_interface(earlier.part);
    later.name.as_bytes() == earlier.name.as_bytes() && (earlier.shipped || same)
}

/// Whether a file of the user's gives what one of these gave.
fn is_again(before: &[Given], one: &Given) -> bool
    ensures { result ≡ spec.is_again before.now one.now }
{
    if one.shipped {
        return false;
    }
    for earlier in before {
        if clashes(one, earlier) {
            return true;
        }
    }
    false
}

/// The second round: the first file that gives what one before it gave.
pub fn first_again(alloc: Global, givens: &Vec<Given>) -> Result<Option<ModuleFault>, Memory>
    ensures { IfOk result (λ fault. fault ≡ spec.first_again [] givens.now.items) }
{
    for (index, one) in givens.iter().enumerate() {
        if is_again(&givens[..index], one) {
            let name = one.name.copy(alloc)?;
            return Ok(Some(ModuleFault::TwiceGiven(name)));
        }
    }
    Ok(None)
}

/// Whether one of these files has the body of the module of a name.
fn has_body(givens: &Vec<Given>, name: &[u8]) -> bool
    ensures { result ≡ list_any (spec.is_body_of name.now) givens.now.items }
{
    for one in givens {
        if !is_interface(one.part) && name == one.name.as_bytes() {
            return true;
        }
    }
    false
}

/// Whether this is an interface of the user's, and none of these files has its body.
fn lacks_body(givens: &Vec<Given>, one: &Given) -> bool
    ensures { result ≡ spec.lacks_body givens.now.items one.now }
{
    !one.shipped && is_interface(one.part) && !has_body(givens, one.name.as_bytes())
}

/// The third round: the first interface without a body.
pub fn first_bodiless(alloc: Global, givens: &Vec<Given>) -> Result<Option<ModuleFault>, Memory>
    ensures { IfOk result (λ fault. fault ≡ spec.first_bodiless givens.now.items) }
{
    for one in givens {
        if lacks_body(givens, one) {
            let name = one.name.copy(alloc)?;
            return Ok(Some(ModuleFault::NoBody(name)));
        }
    }
    Ok(None)
}
