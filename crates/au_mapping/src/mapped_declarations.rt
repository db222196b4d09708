//! Declarations of one phase as declarations of another.

ghost use Rattle.std.specs.Prelude.{◌≡◌, IfOk, IsTrue};
ghost use Rattle.au_syntax.specs.Notes.{notes_of_declaration};
ghost use Rattle.au_syntax.specs.Plain.{plain_declaration};
ghost use Rattle.au_syntax.specs.Views.{declaration};

use crate::declarations::walked_declaration;
use crate::turns::{Turn, Turning};
use au_base::Memory;
use au_syntax::{Decl, Phase};
use std::alloc::Global;

/// The same declaration in another phase.
///
/// # Errors
///
/// Only for want of memory.
pub fn map_decl<P: Phase, Q: Phase, F: Turn<P, Q>>(
    alloc: Global,
    decl: Decl<P>,
    turn: &mut F,
) -> Result<Decl<Q>, Memory>
    ensures same { IfOk result (λ new.
        plain_declaration Q.name_bytes (declaration Q.Phase new)
        ≡ plain_declaration P.name_bytes (declaration P.Phase decl)) }
    ensures notes { IfOk result (λ new.
        IsTrue (notes_of_declaration Q.allows_type Q.allows_call (declaration Q.Phase new))) }
{
    let new = walked_declaration(alloc, &decl, &mut Turning { turn })?;
    Ok(new)
}
