//! The texts of closed types.

ghost use Rattle.std.specs.Prelude.{◌≡◌, ◌++◌, IfOk, OnOk};
ghost use Rattle.au_types.specs.Rows.{head_of};
ghost use Rattle.au_type_texts.specs.Texts as texts;
ghost use Rattle.au_type_texts.specs.Texts.{head_text};
ghost use Rattle.au_type_texts.specs.ClosedTexts.{list_text, reference_text, text_of};
ghost use Rattle.au_type_texts.specs.Views.{closed_meaning, closed_meanings};

use crate::types::Closed;
use au_base::{IntKind, Memory, Text};
use au_types::{DeclAt, Heads};
use std::alloc::Global;

/// The text of a closed type: that of a type, with its regions left out. A declared type is its module's
/// name, a colon and its own name, and then in brackets those of its arguments that are types, if there are
/// some. A reference is `&[T]`, or `&![T]` where it writes. The type of texts is `Span[Nat8, Static]`.
///
/// The heads are those of the declared types; a type that has none there is told by no bytes.
///
/// # Errors
///
/// `Memory` when memory runs out.
pub fn closed_text(alloc: Global, heads: &Heads, of: &Closed) -> Result<Text, Memory>
    ensures { IfOk result (λ text. text ≡ text_of heads.now (closed_meaning of.now)) }
{
    let mut text = Text::new(alloc);
    add_closed(&mut text, heads, of)?;
    Ok(text)
}

/// The name of a kind of integers.
fn kind_name(kind: IntKind) -> &'static [u8]
    ensures { result.now ≡ texts.kind_name kind }
{
    match kind {
        IntKind::Nat8 => b"Nat8",
        IntKind::Nat16 => b"Nat16",
        IntKind::Nat32 => b"Nat32",
        IntKind::Nat64 => b"Nat64",
        IntKind::Int8 => b"Int8",
        IntKind::Int16 => b"Int16",
        IntKind::Int32 => b"Int32",
        IntKind::Int64 => b"Int64",
        IntKind::Index => b"Index",
    }
}

/// The text of a declaration without arguments.
fn head_text(heads: &Heads, at: DeclAt) -> &[u8]
    ensures { result.now ≡ head_text (head_of heads.now at) }
{
    match heads.row(at) {
        Some(head) => head.text.as_bytes(),
        None => b"",
    }
}

/// Adds the text of a closed type.
#[tactic(auto, using(crate::proofs::ClosedLemmas::closed_steps, std::proofs::lemmas::Grind::common_steps))]
#[cycle(add_closed)]
fn add_closed(text: &mut Text, heads: &Heads, of: &Closed) -> Result<(), Memory>
    ensures { OnOk result (text.new ≡ text.old ++ text_of heads.now (closed_meaning of.now)) }
{
    match of {
        Closed::Unit => text.append(b"Unit"),
        Closed::Bool => text.append(b"Bool"),
        Closed::Int(kind) => text.append(kind_name(*kind)),
        Closed::Text => text.append(b"Span[Nat8, Static]"),
        Closed::Named { of, args } => {
            text.append(head_text(heads, *of))?;
            add_list(text, heads, args)
        }
        Closed::Read(to) => add_reference(text, heads, b"&[", to),
        Closed::Write(to) => add_reference(text, heads, b"&![", to),
    }
}

/// Adds what begins a reference, and the type behind it.
#[cycle(add_closed)]
fn add_reference(text: &mut Text, heads: &Heads, begin: &[u8], to: &Closed) -> Result<(), Memory>
    ensures { OnOk result (text.new ≡ text.old
        ++ reference_text begin.now (text_of heads.now (closed_meaning to.now))) }
{
    text.append(begin)?;
    add_closed(text, heads, to)?;
    text.append(b"]")
}

/// Adds closed types in brackets, and nothing where there is none.
#[cycle(add_closed)]
fn add_list(text: &mut Text, heads: &Heads, list: &Vec<Closed>) -> Result<(), Memory>
    ensures { OnOk result (text.new ≡ text.old ++ list_text heads.now (closed_meanings list.now.items)) }
{
    if list.is_empty() {
        return Ok(());
    }
    let mut mark: &[u8] = b"[";
    for one in list {
        text.append(mark)?;
        add_closed(text, heads, one)?;
        mark = b", ";
    }
    text.append(b"]")
}
