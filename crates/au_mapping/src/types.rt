//! Copies of written types.

ghost use Rattle.std.specs.Prelude.{◌≡◌, IfOk};
ghost use Rattle.au_syntax.specs.Views.{written, written_all, type_name};

use au_base::Memory;
use au_syntax::{TypeName, TypeText};
use std::alloc::Global;

fn copy_type_name(alloc: Global, name: &TypeName) -> Result<TypeName, Memory>
    ensures { IfOk result (λ copy. type_name copy ≡ type_name name.now) }
{
    let at = name.at;
    let name = name.name.copy(alloc)?;
    Ok(TypeName { name, at })
}

/// A written type that says the same.
///
/// # Errors
///
/// Only for want of memory.
#[cycle(copy_type)]
pub fn copy_type(alloc: Global, of: &TypeText) -> Result<TypeText, Memory>
    ensures { IfOk result (λ copy. written copy ≡ written of.now) }
{
    match of {
        TypeText::Named(name, arguments) => {
            let name = copy_type_name(alloc, name)?;
            let arguments = copy_types(alloc, arguments)?;
            Ok(TypeText::Named(name, arguments))
        }
        TypeText::Reference(at, access, target, region) => {
            let target = copy_boxed_type(alloc, target)?;
            let region = copy_type_name(alloc, region)?;
            Ok(TypeText::Reference(*at, *access, target, region))
        }
    }
}

#[cycle(copy_type)]
fn copy_boxed_type(alloc: Global, of: &TypeText) -> Result<Box<TypeText>, Memory>
    ensures { IfOk result (λ copy. written copy.value ≡ written of.now) }
{
    let copy = copy_type(alloc, of)?;
    Ok(Box::new(alloc, copy)?)
}

#[cycle(copy_type)]
fn copy_types(alloc: Global, types: &Vec<TypeText>) -> Result<Vec<TypeText>, Memory>
    ensures { IfOk result (λ copies. written_all copies.items ≡ written_all types.now.items) }
{
    let mut copies = Vec::new(alloc);
    for one in types {
        let copy = copy_type(alloc, one)?;
        copies.push(copy)?;
    }
    Ok(copies)
}
