//! Whole files of one phase as those of another.

ghost use Rattle.std.specs.Prelude.{◌≡◌, IfOk};
ghost use Rattle.au_syntax.specs.Files.{says};

use crate::mapped_modules::map_module;
use crate::turns::Turn;
use au_base::Memory;
use au_syntax::{Phase, Whole};
use std::alloc::Global;

/// The whole file in another phase: the same is written at the same places, and the new phase allows
/// each of its notes.
///
/// # Errors
///
/// Only for want of memory.
pub fn map_phase<P: Phase, Q: Phase, F: Turn<P, Q>>(
    alloc: Global,
    whole: Whole<P>,
    turn: &mut F,
) -> Result<Whole<Q>, Memory>
    ensures { IfOk result (λ new. says Q.Phase new.tree ≡ says P.Phase whole.tree) }
{
    let tree = map_module(alloc, whole.into_tree(), turn)?;
    Ok(Whole::new(tree))
}
