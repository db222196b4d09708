//! Copies of written types.

ghost use Rattle.std.specs.Prelude.{◌≡◌, IfOk};
ghost use Rattle.au_syntax.specs.Views.{type_name, written, written_all};

use au_base::Memory;
use au_syntax::{TypeName, TypeText};
use std::alloc::Global;

/// The same name in a written type.
fn copy_type_name(alloc: Global, name: &TypeName) -> Result<TypeName, Memory>
    ensures { IfOk result (λ copy. type_name copy ≡ type_name name.now) }
{
    let at = name.at;
    let name = name.name.copy(alloc)?;
    Ok(TypeName { name, at })
}

/// A written type that says the same.
///
/// # Errors
///
/// Only for want of memory.
#[cycle(copy_text)]
pub fn copy_text_of_type(alloc: Global, of: &TypeText) -> Result<TypeText, Memory>
    ensures { IfOk result (λ copy. written copy ≡ written of.now) }
{
    match of {
        TypeText::Named(name, arguments) => {
            let name = copy_type_name(alloc, name)?;
            let arguments = copy_texts(alloc, arguments)?;
            Ok(TypeText::Named(name, arguments))
        }
        TypeText::Reference(at, access, target, region) => {
            let target = copy_boxed(alloc, target)?;
            let region = copy_type_name(alloc, region)?;
            Ok(TypeText::Reference(*at, *access, target, region))
        }
    }
}

/// A written type that says the same, in a box.
#[cycle(copy_text)]
fn copy_boxed(alloc: Global, of: &TypeText) -> Result<Box<TypeText>, Memory>
    ensures { IfOk result (λ copy. written copy.value ≡ written of.now) }
{
    let copy = copy_text_of_type(alloc, of)?;
    Ok(Box::new(alloc, copy)?)
}

/// Written types that say the same, in order.
#[cycle(copy_text)]
fn copy_texts(alloc: Global, types: &Vec<TypeText>) -> Result<Vec<TypeText>, Memory>
    ensures { IfOk result (λ copies. written_all copies.items ≡ written_all types.now.items) }
{
    let mut copies = Vec::new(alloc);
    for one in types {
        let copy = copy_text_of_type(alloc, one)?;
        copies.push(copy)?;
    }
    Ok(copies)
}
