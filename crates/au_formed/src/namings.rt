//! The records and unions of a program, each with the types that its fields name.

ghost use Rattle.std.specs.Prelude.{◌≡◌, ◌++◌, ◌<◌, IfOk, OnOk, length, option_to_list};
ghost use Rattle.std.specs.List.{filter_map};
ghost use Rattle.std.specs.Option.{option_map};
ghost use Rattle.au_formed.specs.Naming as spec;
ghost use Rattle.au_formed.specs.Said.{spots_said};
ghost use Rattle.au_formed.specs.Text as texts;
ghost use Rattle.au_names.specs.Walks as walks;
ghost use Rattle.au_modules.specs.Slots as slots;

use crate::naming::{push_names, type_of};
use crate::texts::Spot;
use crate::visible::{Visible, visible_at};
use au_base::{Memory, Sequence};
use au_imports::Resolved;
use au_promises::type_parameters;
use au_syntax::{Decl, Parsed};
use au_types::{DeclAt, Scope};
use std::alloc::Global;

/// A record or a union.
#[derive(Drop)]
pub struct Naming {
    /// The type that it declares.
    pub of: DeclAt,
    /// The declared types that its fields name outside the arguments of boxes and buffers, in the order of
    /// the text.
    pub names: Sequence<DeclAt>,
}

/// The declared types that the fields of a declaration name.
fn names_in(
    alloc: Global,
    visible: &Visible,
    decl: &Decl<Parsed>,
) -> Result<Sequence<DeclAt>, Memory>
    ensures { IfOk result
        (λ names. names ≡ spec.names_in visible.now.names.now visible.now.heads.now
        (walks.written decl.now)) }
{
    let params = type_parameters(alloc, decl)?;
    let scope = Scope {
        regions: &[],
        params: &params,
        names: visible.names,
        heads: visible.heads,
    };
    let mut names = Vec::new(alloc);
    push_names(&mut names, &scope, decl)?;
    Ok(Sequence::from_vec(names))
}

/// A record or a union, with the types that its fields name.
fn naming_of(
    alloc: Global,
    visible: &Visible,
    decl: &Decl<Parsed>,
) -> Result<Option<Naming>, Memory>
    ensures { IfOk result
        (λ found. found ≡ spec.naming visible.now.names.now visible.now.heads.now (walks.written decl.now)) }
{
    match type_of(visible, decl) {
        None => Ok(None),
        Some(of) => {
            let names = names_in(alloc, visible, decl)?;
            Ok(Some(Naming { of, names }))
        }
    }
}

/// Puts a record or a union, if it is one.
fn push_naming(
    alloc: Global,
    list: &mut Vec<Naming>,
    visible: &Visible,
    decl: &Decl<Parsed>,
) -> Result<(), Memory>
    ensures { OnOk result
        (list.new.items ≡ list.old.items
        ++ option_to_list (spec.naming visible.now.names.now visible.now.heads.now
        (walks.written decl.now))) }
{
    match naming_of(alloc, visible, decl)? {
        None => Ok(()),
        Some(one) => {
            list.push(one)?;
            Ok(())
        }
    }
}

/// The records and unions of a program, given its declarations in the order of the text.
///
/// # Errors
///
/// Only for want of memory.
pub fn namings_of(
    alloc: Global,
    resolved: &Resolved,
    all: &Vec<Spot>,
) -> Result<Vec<Naming>, Memory>
    requires { spots_said all.now.items ≡ texts.text (slots.modules resolved.now) }
    ensures { IfOk result (λ found. found.items ≡ spec.namings (slots.modules resolved.now)) }
{
    let mut list = Vec::new(alloc);
    for one in all {
        let visible = visible_at(resolved, one);
        push_naming(alloc, &mut list, &visible, one.decl)?;
    }
    Ok(list)
}
