//! Statements of one phase as statements of another.

ghost use Rattle.std.specs.Prelude.{◌≡◌, IfOk, IsTrue};
ghost use Rattle.au_syntax.specs.Notes.{notes_of_statement, notes_of_statements};
ghost use Rattle.au_syntax.specs.Plain.{plain_statement, plain_statements};
ghost use Rattle.au_syntax.specs.Views.{statement, block};

use crate::statements::{walked_block, walked_statement};
use crate::turns::{Turn, Turning};
use au_base::Memory;
use au_syntax::{Block, Phase, Stmt};
use std::alloc::Global;

/// The same statement in another phase.
///
/// # Errors
///
/// Only for want of memory.
pub fn map_stmt<P: Phase, Q: Phase, F: Turn<P, Q>>(
    alloc: Global,
    stmt: Stmt<P>,
    turn: &mut F,
) -> Result<Stmt<Q>, Memory>
    ensures same { IfOk result (λ new.
        plain_statement Q.name_bytes (statement Q.Phase new)
        ≡ plain_statement P.name_bytes (statement P.Phase stmt)) }
    ensures notes { IfOk result (λ new.
        IsTrue (notes_of_statement Q.allows_type Q.allows_call (statement Q.Phase new))) }
{
    let new = walked_statement(alloc, &stmt, &mut Turning { turn })?;
    Ok(new)
}

/// The same block in another phase.
///
/// # Errors
///
/// Only for want of memory.
pub fn map_block<P: Phase, Q: Phase, F: Turn<P, Q>>(
    alloc: Global,
    body: Block<P>,
    turn: &mut F,
) -> Result<Block<Q>, Memory>
    ensures same { IfOk result (λ new.
        plain_statements Q.name_bytes (block Q.Phase new)
        ≡ plain_statements P.name_bytes (block P.Phase body)) }
    ensures notes { IfOk result (λ new.
        IsTrue (notes_of_statements Q.allows_type Q.allows_call (block Q.Phase new))) }
{
    let new = walked_block(alloc, &body, &mut Turning { turn })?;
    Ok(new)
}
