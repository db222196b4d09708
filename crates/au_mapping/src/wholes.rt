//! Whole files: copies of them, and how deep they are nested.

ghost use Rattle.std.specs.Prelude.{◌≡◌, ◌≤◌, IfOk};
ghost use Rattle.au_base.specs.Limits.{most_nesting};
ghost use Rattle.au_syntax.specs.Depths as depths;
ghost use Rattle.au_syntax.specs.Files.{says};
ghost use Rattle.au_syntax.specs.Views.{module_tree};

use crate::depths::module_depth;
use crate::modules::walked_module;
use crate::walks::Copying;
use au_base::Memory;
use au_syntax::{Phase, Whole};
use std::alloc::Global;

/// A whole file that says the same.
///
/// # Errors
///
/// Only for want of memory.
pub fn copy_whole<P: Phase>(alloc: Global, whole: &Whole<P>) -> Result<Whole<P>, Memory>
    ensures { IfOk result (λ copy. module_tree P.Phase copy.tree ≡ module_tree P.Phase whole.now.tree) }
{
    let tree = walked_module(alloc, whole.tree(), &mut Copying)?;
    Ok(Whole::new(tree))
}

/// The nesting of a whole file: the expressions and statements from a declaration down to the deepest of
/// them.
pub fn depth_of<P: Phase>(whole: &Whole<P>) -> u32
    ensures depth { result ≡ depths.module_depth (says P.Phase whole.now.tree) }
    ensures most { result ≤ most_nesting }
{
    module_depth(whole.tree())
}
