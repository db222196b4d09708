//! Modules of the old phase as those of the new one.

ghost use Rattle.std.specs.Prelude.{◌≡◌, IfOk};
ghost use Rattle.au_syntax.specs.Modules.{Importing};
ghost use Rattle.au_syntax.specs.Views.{importing, module_tree};
ghost use Rattle.au_mapping.specs.Seen.{before, after};

use crate::parts::{Part, walked_three, walked_two};
use crate::walks::Walk;
use au_base::Memory;
use au_syntax::{Import, Module, Phase};
use std::alloc::Global;

impl<P: Phase, Q: Phase, W: Walk<P, Q>> Part<Q, W> for Import<P> {
    type New = Import<Q>;

    ghost Kept = { Importing W.KeptName };

    ghost old = { importing (before W.Walk) };

    ghost new = { importing (after W.Walk) };

    fn walked(&self, alloc: Global, walk: &mut W) -> Result<Import<Q>, Memory> {
        let (module, items) = walked_two(alloc, &self.module, &self.items, walk)?;
        let at = self.at;
        Ok(Import { at, module, items })
    }
}

/// The module in the new phase.
///
/// # Errors
///
/// Only for want of memory.
pub fn walked_module<P: Phase, Q: Phase, W: Walk<P, Q>>(
    alloc: Global,
    of: &Module<P>,
    walk: &mut W,
) -> Result<Module<Q>, Memory>
    ensures { IfOk result (λ new. module_tree (after W.Walk) new ≡ module_tree (before W.Walk) of.now) }
{
    let (imports, name, declarations) = walked_three(
        alloc,
        &of.imports,
        &of.name,
        &of.declarations,
        walk,
    )?;
    Ok(Module {
        imports,
        at: of.at,
        part: of.part,
        name,
        pragma: of.pragma,
        declarations,
    })
}
