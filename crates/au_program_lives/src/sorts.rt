//! The sorts of the variables of a function.

ghost use Rattle.std.specs.Prelude.{◌≡◌, IfOk, OnOk};
ghost use Rattle.au_program_lives.specs.Scopes.{scope_said};
ghost use Rattle.au_program_lives.specs.Said.{block_said, parameters_said};
ghost use Rattle.au_program_lives.specs.Sorts as spec;

use crate::pushing::{push_block, push_parameters};
use crate::scopes::TypeScope;
use au_base::Memory;
use au_lives::lives::Sort;
use au_syntax::{Block, Field, Phase};
use std::alloc::Global;

/// What the type of each variable of a function asks, in text order with the parameters first. The scope is
/// one in which the types of the parameters are judged; it is the same afterwards.
///
/// # Errors
///
/// Only for want of memory; the scope may have regions more then.
pub fn sorts_of<P: Phase>(
    alloc: Global,
    scope: &mut TypeScope,
    parameters: &Vec<Field<P>>,
    body: &Block<P>,
) -> Result<Vec<Sort>, Memory>
    ensures sorts { IfOk result (λ made. made.items
        ≡ spec.sorts_of (parameters_said P.Phase parameters.now.items) (block_said P.Phase body.now)
        (scope_said scope.old)) }
    ensures kept { OnOk result (scope_said scope.new ≡ scope_said scope.old) }
{
    let mut made = Vec::new(alloc);
    push_parameters(alloc, scope, parameters, &mut made)?;
    push_block(alloc, scope, body, &mut made)?;
    Ok(made)
}
