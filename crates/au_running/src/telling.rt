//! The lines in which the events of a run are told.

ghost use Rattle.std.specs.Prelude.{◌≡◌, ◌++◌, OnOk, IfOk, codes, decimal, map};
ghost use Rattle.au_lowered.specs.Maps.{deed_to};
ghost use Rattle.au_stores.specs.Stores.{deed_of};
ghost use Rattle.au_running.specs.Lines as spec;

use au_base::Memory;
use au_low::{Code, Event};
use itoa::Buffer;
use std::alloc::Global;

/// The text of the type of a number in code.
fn type_text(code: &Code, number: u32) -> &[u8]
    ensures { result.now ≡ spec.type_text code.now number }
{
    match code.types.as_slice().get(number as usize) {
        Some(of) => of.text.as_bytes(),
        None => &[],
    }
}

/// Adds bytes.
fn add(text: &mut Vec<u8>, bytes: &[u8]) -> Result<(), Memory>
    ensures { OnOk result (text.new.items ≡ text.old.items ++ bytes.now) }
{
    text.extend_from_slice(bytes)?;
    Ok(())
}

/// Adds a word and a number.
fn add_numbered(text: &mut Vec<u8>, word: &[u8], number: u64) -> Result<(), Memory>
    ensures { OnOk result (text.new.items ≡ text.old.items ++ (word.now ++ decimal number)) }
{
    add(text, word)?;
    let mut digits = Buffer::new();
    add(text, digits.format(number).as_bytes())
}

/// Adds a blank and a word.
fn add_word(text: &mut Vec<u8>, word: &[u8]) -> Result<(), Memory>
    ensures { OnOk result (text.new.items ≡ text.old.items ++ (codes " " ++ word.now)) }
{
    add(text, b" ")?;
    add(text, word)
}

/// Adds what is said of a birth.
fn add_birth(text: &mut Vec<u8>, id: u64, of: &[u8], home: &[u8]) -> Result<(), Memory>
    ensures { OnOk result (text.new.items ≡ text.old.items
        ++ (codes "born " ++ (decimal id ++ (codes " " ++ (of.now ++ (codes " " ++ home.now)))))) }
{
    add_numbered(text, b"born ", id)?;
    add_word(text, of)?;
    add_word(text, home)
}

/// Adds what is said of an event of a run of code.
fn add_words(text: &mut Vec<u8>, code: &Code, event: &Event) -> Result<(), Memory>
    ensures { OnOk result (text.new.items ≡ text.old.items
        ++ spec.deed_words (deed_to (spec.type_text code.now) (deed_of event.now))) }
{
    match event {
        Event::Born { id, of, module } => add_birth(
            text,
            *id,
            type_text(code, *of),
            module.as_bytes(),
        ),
        Event::Consumed(id) => add_numbered(text, b"consumed ", *id),
        Event::Opened(borrow) => add_numbered(text, b"opened ", *borrow),
        Event::Used(borrow) => add_numbered(text, b"used ", *borrow),
        Event::Closed(borrow) => add_numbered(text, b"closed ", *borrow),
    }
}

/// Adds the line of an event of a run of code.
fn add_line(text: &mut Vec<u8>, code: &Code, event: &Event) -> Result<(), Memory>
    ensures { OnOk result (text.new.items ≡ text.old.items
        ++ spec.deed_line (deed_to (spec.type_text code.now) (deed_of event.now))) }
{
    add_words(text, code, event)?;
    add(text, b"\n")
}

/// The lines of the events of a run of code.
///
/// # Errors
///
/// `Memory` when memory runs out.
pub fn event_lines(alloc: Global, code: &Code, events: &[Event]) -> Result<Vec<u8>, Memory>
    ensures { IfOk result (λ text. text.items
        ≡ spec.deed_lines (spec.deeds_told code.now (map deed_of events.now))) }
{
    let mut text = Vec::new(alloc);
    for event in events {
        add_line(&mut text, code, event)?;
    }
    Ok(text)
}
