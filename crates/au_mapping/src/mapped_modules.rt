//! Modules of one phase as modules of another.

ghost use Rattle.std.specs.Prelude.{◌≡◌, IfOk, IsTrue};
ghost use Rattle.au_syntax.specs.Notes.{notes_of_module};
ghost use Rattle.au_syntax.specs.Plain.{plain_module};
ghost use Rattle.au_syntax.specs.Views.{module_tree};

use crate::modules::walked_module;
use crate::turns::{Turn, Turning};
use au_base::Memory;
use au_syntax::{Module, Phase};
use std::alloc::Global;

/// The same module in another phase.
///
/// # Errors
///
/// Only for want of memory.
pub fn map_module<P: Phase, Q: Phase, F: Turn<P, Q>>(
    alloc: Global,
    module: Module<P>,
    turn: &mut F,
) -> Result<Module<Q>, Memory>
    ensures same { IfOk result (λ new.
        plain_module Q.name_bytes (module_tree Q.Phase new)
        ≡ plain_module P.name_bytes (module_tree P.Phase «module»)) }
    ensures notes { IfOk result (λ new.
        IsTrue (notes_of_module Q.allows_type Q.allows_call (module_tree Q.Phase new))) }
{
    let new = walked_module(alloc, &module, &mut Turning { turn })?;
    Ok(new)
}
