//! Expressions of one phase as expressions of another.

ghost use Rattle.std.specs.Prelude.{◌≡◌, IfOk, IsTrue};
ghost use Rattle.au_syntax.specs.Notes.{notes_of_expression};
ghost use Rattle.au_syntax.specs.Plain.{plain_expression};
ghost use Rattle.au_syntax.specs.Views.{expression};

use crate::expressions::walked_expression;
use crate::turns::{Turn, Turning};
use au_base::Memory;
use au_syntax::{Expr, Phase};
use std::alloc::Global;

/// The same expression in another phase.
///
/// # Errors
///
/// Only for want of memory.
pub fn map_expr<P: Phase, Q: Phase, F: Turn<P, Q>>(
    alloc: Global,
    expr: Expr<P>,
    turn: &mut F,
) -> Result<Expr<Q>, Memory>
    ensures same { IfOk result (λ new.
        plain_expression Q.name_bytes (expression Q.Phase new)
        ≡ plain_expression P.name_bytes (expression P.Phase expr)) }
    ensures notes { IfOk result (λ new.
        IsTrue (notes_of_expression Q.allows_type Q.allows_call (expression Q.Phase new))) }
{
    let new = walked_expression(alloc, &expr, &mut Turning { turn })?;
    Ok(new)
}
