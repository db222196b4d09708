//! What the line of a refusal says of a statement that isn't well typed.

ghost use Rattle.std.specs.Prelude.{◌≡◌, ◌++◌, IfOk, OnOk, codes, decimal};
ghost use Rattle.au_sights.specs.Lines as lines;
ghost use Rattle.au_type_texts.specs.Texts as texts;

use crate::faults::{Form, Why};
use au_base::{IntKind, Memory, Text};
use itoa::Buffer;
use std::alloc::Global;

/// What the line of a refusal says of a statement that isn't well typed, behind its place.
///
/// # Errors
///
/// `Memory` when memory runs out.
pub fn why_text(alloc: Global, why: &Why<Text, Text>) -> Result<Vec<u8>, Memory>
    ensures { IfOk result (λ text. text.items ≡ lines.why_text why.now) }
{
    let mut text = Vec::new(alloc);
    add_why(&mut text, why)?;
    Ok(text)
}

/// Adds what is wrong.
fn add_why(text: &mut Vec<u8>, why: &Why<Text, Text>) -> Result<(), Memory>
    ensures { OnOk result (text.new.items ≡ text.old.items ++ lines.why_text why.now) }
{
    match why {
        Why::Unknown(name) => add_words(text, b"unknown ", name.as_bytes()),
        Why::Different { wanted, found } => add_two(
            text,
            b"wanted ",
            wanted.as_bytes(),
            b", found ",
            found.as_bytes(),
        ),
        Why::Unfixed(name) => add_words(text, b"not fixed ", name.as_bytes()),
        Why::NoInstance { class, of } => add_two(
            text,
            b"no instance ",
            class.as_bytes(),
            b" for ",
            of.as_bytes(),
        ),
        Why::NotFree { of } => add_words(text, b"not free ", of.as_bytes()),
        Why::Shape { wanted } => add_form(text, *wanted),
        Why::AfterReturn => add_words(text, b"after ", b"return"),
        Why::FallsOut => add_words(text, b"no ", b"return"),
    }
}

/// Adds words, and what they speak of.
fn add_words(text: &mut Vec<u8>, words: &[u8], of: &[u8]) -> Result<(), Memory>
    ensures { OnOk result (text.new.items ≡ text.old.items ++ (words.now ++ of.now)) }
{
    text.extend_from_slice(words)?;
    text.extend_from_slice(of)?;
    Ok(())
}

/// Adds the same twice.
fn add_two(
    text: &mut Vec<u8>,
    words: &[u8],
    of: &[u8],
    others: &[u8],
    other: &[u8],
) -> Result<(), Memory>
    ensures { OnOk result (text.new.items ≡ text.old.items
        ++ (words.now ++ of.now ++ others.now ++ other.now)) }
{
    add_words(text, words, of)?;
    add_words(text, others, other)
}

/// Adds that a form is wanted.
fn add_form(text: &mut Vec<u8>, form: Form) -> Result<(), Memory>
    ensures { OnOk result (text.new.items ≡ text.old.items ++ (codes "wanted " ++ lines.form_text form)) }
{
    match form {
        Form::Record => add_words(text, b"wanted ", b"a record"),
        Form::Union => add_words(text, b"wanted ", b"a union"),
        Form::Reference => add_words(text, b"wanted ", b"a reference"),
        Form::WriteReference => add_words(text, b"wanted ", b"a write reference"),
        Form::Integer => add_words(text, b"wanted ", b"an integer"),
        Form::Assignable => add_words(text, b"wanted ", b"an assignable place"),
        Form::Linear => add_words(text, b"wanted ", b"a linear type"),
        Form::Region => add_words(text, b"wanted ", b"a region"),
        Form::Arguments(count) => add_arguments(text, count),
        Form::Labels => add_words(text, b"wanted ", b"other labels"),
        Form::Arms => add_words(text, b"wanted ", b"other arms"),
        Form::Range(kind) => add_words(text, b"wanted a value of ", kind_name(kind)),
    }
}

/// Adds that so many arguments are wanted.
fn add_arguments(text: &mut Vec<u8>, count: usize) -> Result<(), Memory>
    ensures { OnOk result (text.new.items ≡ text.old.items
        ++ (codes "wanted " ++ decimal count ++ codes " arguments")) }
{
    let mut digits = Buffer::new();
    text.extend_from_slice(b"wanted ")?;
    text.extend_from_slice(digits.format(count).as_bytes())?;
    text.extend_from_slice(b" arguments")?;
    Ok(())
}

/// The name of a kind of integers.
fn kind_name(kind: IntKind) -> &'static [u8]
    ensures { result.now ≡ texts.kind_name kind }
{
    match kind {
        IntKind::Nat8 => b"Nat8",
        IntKind::Nat16 => b"Nat16",
        IntKind::Nat32 => b"Nat32",
        IntKind::Nat64 => b"Nat64",
        IntKind::Int8 => b"Int8",
        IntKind::Int16 => b"Int16",
        IntKind::Int32 => b"Int32",
        IntKind::Int64 => b"Int64",
        IntKind::Index => b"Index",
    }
}
