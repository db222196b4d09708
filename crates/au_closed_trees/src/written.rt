//! Closed types of written types.

ghost use Rattle.std.specs.Prelude.{◌≡◌, IfOk};
ghost use Rattle.au_closed_trees.specs.Parts as spec;
ghost use Rattle.au_type_texts.specs.Views.{closed_meaning};
ghost use Rattle.au_type_texts.specs.GivenViews.{given_said};
ghost use Rattle.au_syntax.specs.Views.{written};

use crate::parts::ClosedField;
use au_base::{Memory, Name};
use au_syntax::TypeText;
use au_type_texts::{Closed, GivenType, closed_under};
use au_types::{DeclAt, Heads, Params, Scope, Table, type_meant};
use std::alloc::Global;

/// What written types mean at a place, and what is given for the type parameters there.
#[derive(Clone, Copy)]
pub struct Written<'a> {
    /// What the names of types mean.
    pub names: &'a Table<DeclAt>,
    /// The rows of declared types.
    pub heads: &'a Heads,
    /// The type parameters.
    pub params: &'a Params,
    /// What is given for them.
    pub given: &'a [GivenType],
}

/// The closed type of a type that is written.
///
/// # Errors
///
/// Only for want of memory.
pub fn written_under(alloc: Global, place: &Written, node: &TypeText) -> Result<Closed, Memory>
    ensures { IfOk result (λ made.
        closed_meaning made
        ≡ spec.written_under place.now.names.now place.now.heads.now place.now.params.now
        (given_said place.now.given.now) (written node.now)) }
{
    let scope = Scope {
        regions: &[],
        params: place.params,
        names: place.names,
        heads: place.heads,
    };
    match type_meant(alloc, &scope, node)? {
        None => Ok(Closed::Unit),
        Some(of) => closed_under(alloc, place.given, &of),
    }
}

/// A field or a parameter of this name with the closed type of its type.
///
/// # Errors
///
/// Only for want of memory.
pub fn field_under(
    alloc: Global,
    place: &Written,
    name: &Name,
    node: &TypeText,
) -> Result<ClosedField, Memory>
    ensures name { IfOk result (λ made. made.name ≡ name.now) }
    ensures of { IfOk result (λ made.
        closed_meaning made.of
        ≡ spec.written_under place.now.names.now place.now.heads.now place.now.params.now
        (given_said place.now.given.now) (written node.now)) }
{
    let of = written_under(alloc, place, node)?;
    let name = name.copy(alloc)?;
    Ok(ClosedField { name, of })
}
