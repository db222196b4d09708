//! Names as the declarations of a program have them.

ghost use Rattle.std.specs.Prelude.{◌≡◌, IfOk};
ghost use Rattle.au_closing.specs.ClosingViews.{case_seen};

use crate::leading::Sight;
use au_base::{MOST_NAME_BYTES, Memory, Name, Text};
use std::alloc::Global;

/// The name with the bytes of a text.
///
/// # Errors
///
/// `Memory` for want of memory, or where a text has no such length as a name has.
pub fn name_of(alloc: Global, text: &Text) -> Result<Name, Memory>
    ensures { IfOk result (λ name. name ≡ text.now) }
{
    let bytes = text.as_bytes();
    if bytes.len() == 0 || bytes.len() > MOST_NAME_BYTES {
        return Err(Memory);
    }
    Name::copy_of(alloc, bytes)
}

/// The name of the case that the name of an arm means where this is seen, as its union declares it. A name
/// that means nothing stays as it is.
///
/// # Errors
///
/// Only for want of memory.
pub fn case_name(alloc: Global, sight: &Sight, name: &Name) -> Result<Name, Memory>
    ensures { IfOk result (λ made. made ≡ case_seen sight.now name.now) }
{
    match sight.names.callables.get(name.as_bytes()) {
        None => name.copy(alloc),
        Some(target) => name_of(alloc, &target.name),
    }
}
