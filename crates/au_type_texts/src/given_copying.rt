//! Copies, which say the same.

ghost use Rattle.std.specs.Prelude.{◌≡◌, IfOk};
ghost use Rattle.au_type_texts.specs.GivenViews.{given_said, pair_said};

use crate::copy_closed;
use crate::given_types::GivenType;
use au_base::Memory;
use std::alloc::Global;

/// A type parameter with the same type.
fn copy_one(alloc: Global, one: &GivenType) -> Result<GivenType, Memory>
    ensures { IfOk result (λ copy. pair_said copy ≡ pair_said one.now) }
{
    let name = one.name.copy(alloc)?;
    let of = copy_closed(alloc, &one.of)?;
    Ok(GivenType { name, of })
}

/// The same for the same type parameters, in the same order.
///
/// # Errors
///
/// Only for want of memory.
pub fn copy_given(alloc: Global, all: &[GivenType]) -> Result<Vec<GivenType>, Memory>
    ensures { IfOk result (λ copies. given_said copies.items ≡ given_said all.now) }
{
    let mut copies = Vec::new(alloc);
    for one in all {
        let copy = copy_one(alloc, one)?;
        copies.push(copy)?;
    }
    Ok(copies)
}
