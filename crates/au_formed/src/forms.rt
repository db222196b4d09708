//! What a declaration is refused for, beside names that are declared again and infinite types.

ghost use Rattle.std.specs.Prelude.{◌≡◌, IfOk};
ghost use Rattle.au_formed.specs.Forms as spec;
ghost use Rattle.au_names.specs.Walks as walks;
ghost use Rattle.au_judged_types.specs.Views.{judged_in};
ghost use Rattle.au_matching.specs.Universes as universes;
ghost use Rattle.au_types.specs.WrittenViews.{sense_in};

use crate::faults::FormFault;
use crate::fields::{empty_union, field_above};
use crate::malformed::malformed;
use crate::visible::Visible;
use au_base::Memory;
use au_promises::type_parameters;
use au_syntax::{Decl, Parsed};
use au_types::Scope;
use std::alloc::Global;

/// What a declaration is refused for in the scope of its type parameters.
fn fault_in(alloc: Global, scope: &Scope, decl: &Decl<Parsed>) -> Result<Option<FormFault>, Memory>
    ensures { IfOk result
        (λ found. found ≡ spec.fault_by (judged_in scope.now) (sense_in scope.now)
        (universes.universe_of scope.now.heads.now scope.now.params.now) (walks.written decl.now)) }
{
    if let Some(at) = malformed(alloc, scope, decl)? {
        return Ok(Some(FormFault::Malformed(at)));
    }
    if let Some(at) = empty_union(decl) {
        return Ok(Some(FormFault::EmptyUnion(at)));
    }
    match field_above(alloc, scope, decl)? {
        Some(at) => Ok(Some(FormFault::UniverseBelow(at))),
        None => Ok(None),
    }
}

/// What a declaration is refused for: the first that is written in it and isn't well formed
/// (`FormFault::Malformed`); else that it is a union without a case (`FormFault::EmptyUnion`); else its first
/// field above its universe (`FormFault::UniverseBelow`).
///
/// # Errors
///
/// Only for want of memory.
pub fn form_fault(
    alloc: Global,
    visible: &Visible,
    decl: &Decl<Parsed>,
) -> Result<Option<FormFault>, Memory>
    ensures { IfOk result
        (λ found. found ≡ spec.form_fault visible.now.names.now visible.now.heads.now
        (walks.written decl.now)) }
{
    let params = type_parameters(alloc, decl)?;
    let scope = Scope {
        regions: &[],
        params: &params,
        names: visible.names,
        heads: visible.heads,
    };
    fault_in(alloc, &scope, decl)
}
