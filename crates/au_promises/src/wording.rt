//! What the words of written types mean.

ghost use Rattle.std.specs.Prelude.{◌≡◌, [], IfOk, Some, is_none};
ghost use Rattle.au_promises.specs.Wording as spec;
ghost use Rattle.au_syntax.specs.Views.{written};
ghost use Rattle.au_types.specs.Meant.{meant};
ghost use Rattle.au_types.specs.WrittenViews.{said};

use crate::agreeing::meant_with;
use au_base::{Memory, Name};
use au_syntax::TypeText;
use au_types::{DeclAt, Heads, Params, Scope, Sense, Table, sense_of};
use std::alloc::Global;

/// The declaration of what a name means, if it has one.
fn declaration_of(name: &Name, sense: &Sense) -> Option<DeclAt>
    ensures { result ≡ spec.declaration_of (Some (said name.now sense.now)) }
{
    match sense {
        Sense::Declared(at, _) | Sense::Class(at) => Some(*at),
        _ => None,
    }
}

/// The declaration that a name means among these type parameters, names and rows, if it means one: type
/// parameters and what is built in are none.
pub fn declaration_meant(
    params: &Params,
    names: &Table<DeclAt>,
    heads: &Heads,
    name: &Name,
) -> Option<DeclAt>
    ensures { result ≡ spec.declaration_meant params.now names.now heads.now name.now }
{
    let scope = Scope {
        regions: &[],
        params,
        names,
        heads,
    };
    match sense_of(&scope, name) {
        Some(sense) => declaration_of(name, &sense),
        None => None,
    }
}

/// Whether a written type means nothing among these type parameters, names and rows.
///
/// # Errors
///
/// Only for want of memory.
pub fn is_meaningless(
    alloc: Global,
    params: &Params,
    names: &Table<DeclAt>,
    heads: &Heads,
    of: &TypeText,
) -> Result<bool, Memory>
    ensures { IfOk result (λ nothing. nothing
        ≡ is_none (meant [] params.now names.now heads.now (written of.now))) }
{
    let found = meant_with(alloc, params, names, heads, of)?;
    Ok(found.is_none())
}
