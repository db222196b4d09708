//! The closed declared types that occur in closed types.

ghost use Rattle.std.specs.Prelude.{◌≡◌, [], ◌∷◌, ◌++◌, ◌||◌, OnOk, codes, false, map};
ghost use Rattle.std.specs.Str.{bytes_eq};
ghost use Rattle.au_closed_trees.specs.Occurring as spec;
ghost use Rattle.au_closed_trees.specs.Occurring.{counts_in};
ghost use Rattle.au_closed_trees.specs.Views.{cases_said, fields_said};
ghost use Rattle.au_type_texts.specs.Views.{closed_meaning, closed_meanings};
ghost use Rattle.au_formed.specs.Naming as naming;

use crate::parts::{ClosedCase, ClosedField};
use au_base::Memory;
use au_type_texts::{Closed, copy_closed};
use au_types::{DeclAt, Heads};
use std::alloc::Global;

/// Whether a text is that of `Box` or `Buffer`.
fn is_holder_text(text: &[u8]) -> bool
    ensures { result ≡ (bytes_eq text.now (codes "Standard.Box:Box")
        || bytes_eq text.now (codes "Standard.Buffer:Buffer")) }
{
    is_text(text, b"Standard.Box:Box") || is_text(text, b"Standard.Buffer:Buffer")
}

/// Whether a text is this one.
fn is_text(text: &[u8], other: &[u8]) -> bool
    ensures { result ≡ bytes_eq text.now other.now }
{
    text == other
}

/// Whether a declared type holds its argument apart, as `Box` and `Buffer` do.
fn is_holder(heads: &Heads, at: DeclAt) -> bool
    ensures { result ≡ naming.holder_in heads.now at }
{
    match heads.row(at) {
        None => false,
        Some(head) => is_holder_text(head.text.as_bytes()),
    }
}

/// Whether the arguments of a declared type count: those of all but boxes and buffers.
fn counts(heads: &Heads, at: DeclAt) -> bool
    ensures { result ≡ counts_in false heads.now at }
{
    !is_holder(heads, at)
}

/// Puts the declared types that occur in a closed type, outside boxes and buffers, behind others.
#[tactic(auto, using(au_type_texts::proofs::ClosedLemmas::closed_steps, std::proofs::lemmas::Grind::common_steps))]
#[cycle(add_occurring)]
fn add_occurring(
    alloc: Global,
    heads: &Heads,
    of: &Closed,
    found: &mut Vec<Closed>,
) -> Result<(), Memory>
    ensures { OnOk result (map closed_meaning found.new.items
        ≡ map closed_meaning found.old.items
        ++ spec.occurring (counts_in false heads.now) (closed_meaning of.now)) }
{
    match of {
        Closed::Unit => Ok(()),
        Closed::Bool => Ok(()),
        Closed::Int(_) => Ok(()),
        Closed::Text => Ok(()),
        Closed::Named { of: at, args } => {
            add_copy(alloc, of, found)?;
            if counts(heads, *at) {
                add_all(alloc, heads, args, found)
            } else {
                Ok(())
            }
        }
        Closed::Read(to) => add_occurring(alloc, heads, to, found),
        Closed::Write(to) => add_occurring(alloc, heads, to, found),
    }
}

/// Puts a copy of a closed type behind others.
fn add_copy(alloc: Global, of: &Closed, found: &mut Vec<Closed>) -> Result<(), Memory>
    ensures { OnOk result (map closed_meaning found.new.items
        ≡ map closed_meaning found.old.items ++ closed_meaning of.now ∷ []) }
{
    let copy = copy_closed(alloc, of)?;
    found.push(copy)?;
    Ok(())
}

/// Puts those that occur in closed types behind others.
#[tactic(auto, using(au_type_texts::proofs::ClosedLemmas::closed_steps, std::proofs::lemmas::Grind::common_steps))]
#[cycle(add_occurring)]
fn add_all(
    alloc: Global,
    heads: &Heads,
    list: &Vec<Closed>,
    found: &mut Vec<Closed>,
) -> Result<(), Memory>
    ensures { OnOk result (map closed_meaning found.new.items
        ≡ map closed_meaning found.old.items
        ++ spec.all_occurring (counts_in false heads.now) (closed_meanings list.now.items)) }
{
    for one in list {
        add_occurring(alloc, heads, one, found)?;
    }
    Ok(())
}

/// Puts those that occur in the types of fields, outside boxes and buffers, behind others.
pub(crate) fn add_in_fields(
    alloc: Global,
    heads: &Heads,
    fields: &Vec<ClosedField>,
    found: &mut Vec<Closed>,
) -> Result<(), Memory>
    ensures { OnOk result (map closed_meaning found.new.items
        ≡ map closed_meaning found.old.items
        ++ spec.occurring_in_fields (counts_in false heads.now) (fields_said fields.now.items)) }
{
    for one in fields {
        add_occurring(alloc, heads, &one.of, found)?;
    }
    Ok(())
}

/// Puts those that occur in cases, outside boxes and buffers, behind others.
pub(crate) fn add_in_cases(
    alloc: Global,
    heads: &Heads,
    cases: &Vec<ClosedCase>,
    found: &mut Vec<Closed>,
) -> Result<(), Memory>
    ensures { OnOk result (map closed_meaning found.new.items
        ≡ map closed_meaning found.old.items
        ++ spec.occurring_in_cases (counts_in false heads.now) (cases_said cases.now.items)) }
{
    for one in cases {
        add_in_fields(alloc, heads, &one.fields, found)?;
    }
    Ok(())
}
