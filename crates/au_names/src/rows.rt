//! The row of one declaration.

ghost use Rattle.std.specs.Prelude.{◌≡◌, ◌++◌, ◌∷◌, Some, None, IfOk, OnOk};
ghost use Rattle.au_names.specs.HeadsOf as spec;
ghost use Rattle.au_names.specs.DeclaredTypes.{type_says};
ghost use Rattle.au_names.specs.Walks.{written};
ghost use Rattle.au_types.specs.Rows.{head_of};

use crate::declared_types::{TypeDeclared, type_declared};
use crate::parameters::params_of;
use au_base::{Memory, Name, Text};
use au_syntax::{Decl, Parsed};
use au_types::{DeclAt, Head, Heads};
use std::alloc::Global;

/// Puts a colon and a name behind a text.
fn put_name(text: &mut Text, name: &Name) -> Result<(), Memory>
    ensures { OnOk result (text.new ≡ text.old ++ 58 ∷ name.now) }
{
    text.push(b':')?;
    text.append(name.as_bytes())
}

/// The text of a type: its module's name, a colon and its own name.
fn text_of(alloc: Global, owner: &Name, name: &Name) -> Result<Text, Memory>
    ensures { IfOk result (λ text. text ≡ owner.now ++ 58 ∷ name.now) }
{
    let mut text = Text::copy_of(alloc, owner.as_bytes())?;
    match put_name(&mut text, name) {
        Ok(()) => Ok(text),
        Err(fault) => Err(fault),
    }
}

/// The head of a type of a module.
fn type_head(alloc: Global, owner: &Name, one: &TypeDeclared) -> Result<Option<Head>, Memory>
    ensures { IfOk result (λ head. head ≡ Some (spec.head_for owner.now (type_says one.now))) }
{
    let text = text_of(alloc, owner, one.name)?;
    let universe = one.universe;
    match params_of(alloc, one.parameters) {
        Ok(params) => Ok(Some(Head {
            text,
            universe,
            params,
        })),
        Err(fault) => Err(fault),
    }
}

/// The head of a declaration of a module, if it is that of a type.
fn head_in(alloc: Global, owner: &Name, decl: &Decl<Parsed>) -> Result<Option<Head>, Memory>
    ensures { IfOk result (λ head. head ≡ spec.head_in owner.now (written decl.now)) }
{
    match type_declared(decl) {
        None => Ok(None),
        Some(one) => type_head(alloc, owner, &one),
    }
}

/// Puts the row of a declaration of a module behind others, if it is that of a type.
pub fn push_row(
    alloc: Global,
    owner: &Name,
    at: DeclAt,
    decl: &Decl<Parsed>,
    heads: &mut Heads,
) -> Result<(), Memory>
    requires { head_of heads.old at ≡ None }
    ensures { OnOk result
        (heads.new ≡ heads.old ++ spec.row_of at.«module» owner.now (at.decl, written decl.now)) }
{
    match head_in(alloc, owner, decl)? {
        None => Ok(()),
        Some(head) => heads.push(at, head),
    }
}
