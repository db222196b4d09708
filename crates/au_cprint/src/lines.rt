//! Puts the lines of texts, types and functions behind a text.

ghost use Rattle.std.specs.Prelude.{◌≡◌, ◌++◌, ◌∷◌, [], OnOk, codes};
ghost use Rattle.std.specs.List.{flat_map};
ghost use Rattle.au_cprint.specs.Programs as spec;
ghost use Rattle.au_cprint.specs.Words.{further, plain, number, name};
ghost use Rattle.au_cprint.specs.Words as words;

use crate::adding::{add, add_further, add_further_number, add_further_quoted, add_number};
use crate::instructions::{add_instructions, add_one, add_opened_number, flag};
use au_base::{Memory, Text};
use au_low::{Code, Function, LowType};

/// Adds a byte of a text.
fn add_octal(text: &mut Vec<u8>, byte: u8) -> Result<(), Memory>
    ensures { OnOk result (text.new.items ≡ text.old.items ++ spec.octal byte) }
{
    let digits = [b'\\', 48 + byte / 64, 48 + byte / 8 % 8, 48 + byte % 8];
    add(text, &digits)
}

/// Adds the bytes of a text.
fn add_octals(text: &mut Vec<u8>, bytes: &[u8]) -> Result<(), Memory>
    ensures { OnOk result (text.new.items ≡ text.old.items ++ flat_map spec.octal bytes.now) }
{
    for byte in bytes {
        add_octal(text, *byte)?;
    }
    Ok(())
}

/// Adds the bytes of a text between quotation marks, as the last operand of a line.
fn add_last_octals(text: &mut Vec<u8>, bytes: &[u8]) -> Result<(), Memory>
    ensures { OnOk result (text.new.items ≡ text.old.items
        ++ (further (name (flat_map spec.octal bytes.now)) ++ 41 ∷ 10 ∷ [])) }
{
    add(text, b", \"")?;
    add_octals(text, bytes)?;
    add(text, b"\")\n")
}

/// Adds the line of a text.
fn add_text_line(text: &mut Vec<u8>, n: u64, bytes: &[u8]) -> Result<(), Memory>
    ensures { OnOk result (text.new.items ≡ text.old.items ++ spec.text_line n bytes.now) }
{
    add_opened_number(text, b"TEXT", n)?;
    add(text, b", ")?;
    add_number(text, bytes.len() as u64)?;
    add_last_octals(text, bytes)
}

/// Adds the line of a type.
fn add_type_line(text: &mut Vec<u8>, n: u64, one: &LowType) -> Result<(), Memory>
    ensures { OnOk result (text.new.items ≡ text.old.items ++ spec.type_line n one.now) }
{
    add_opened_number(text, b"TYPE", n)?;
    add_further_quoted(text, one.text.as_bytes())?;
    add_further_quoted(text, one.module.as_bytes())?;
    add_last_flag(text, one.linear)
}

/// Adds a truth value as the last operand of a line.
fn add_last_flag(text: &mut Vec<u8>, truth: bool) -> Result<(), Memory>
    ensures { OnOk result (text.new.items ≡ text.old.items
        ++ (further (plain (words.flag truth)) ++ 41 ∷ 10 ∷ [])) }
{
    add_further(text, flag(truth))?;
    add(text, b")\n")
}

/// Adds a line of a word and a number.
fn add_number_line(text: &mut Vec<u8>, word: &[u8], n: u64) -> Result<(), Memory>
    ensures { OnOk result (text.new.items ≡ text.old.items ++ spec.line word.now (number n ∷ [])) }
{
    add_one(text, word, n)?;
    add(text, b"\n")
}

/// Adds the line that a function begins with.
fn add_head(text: &mut Vec<u8>, n: u64, one: &Function) -> Result<(), Memory>
    ensures { OnOk result (text.new.items ≡ text.old.items ++ spec.line (codes "FUNCTION")
        (number n ∷ number one.now.params ∷ number one.now.slots ∷ [])) }
{
    add_opened_number(text, b"FUNCTION", n)?;
    add_further_number(text, one.params)?;
    add_further_number(text, one.slots)?;
    add(text, b")\n")
}

/// Adds the lines of a function.
fn add_function(text: &mut Vec<u8>, n: u64, one: &Function) -> Result<(), Memory>
    ensures { OnOk result (text.new.items ≡ text.old.items ++ spec.function_text n one.now) }
{
    add_head(text, n, one)?;
    add_instructions(text, one.code.as_slice())?;
    add_number_line(text, b"END", n)
}

/// Adds the lines of texts.
fn add_texts(text: &mut Vec<u8>, all: &[Text]) -> Result<(), Memory>
    ensures { OnOk result (text.new.items ≡ text.old.items ++ spec.numbered spec.text_line 0 all.now) }
{
    for (index, one) in all.iter().enumerate() {
        add_text_line(text, index as u64, one.as_bytes())?;
    }
    Ok(())
}

/// Adds the lines of types.
fn add_types(text: &mut Vec<u8>, all: &[LowType]) -> Result<(), Memory>
    ensures { OnOk result (text.new.items ≡ text.old.items ++ spec.numbered spec.type_line 0 all.now) }
{
    for (index, one) in all.iter().enumerate() {
        add_type_line(text, index as u64, one)?;
    }
    Ok(())
}

/// Adds the lines of functions that will come.
fn add_declarations(text: &mut Vec<u8>, all: &[Function]) -> Result<(), Memory>
    ensures { OnOk result (text.new.items ≡ text.old.items ++ spec.numbered spec.declare_line 0 all.now) }
{
    for (index, _one) in all.iter().enumerate() {
        add_number_line(text, b"DECLARE", index as u64)?;
    }
    Ok(())
}

/// Adds functions.
fn add_functions(text: &mut Vec<u8>, all: &[Function]) -> Result<(), Memory>
    ensures { OnOk result (text.new.items ≡ text.old.items ++ spec.numbered spec.function_text 0 all.now) }
{
    for (index, one) in all.iter().enumerate() {
        add_function(text, index as u64, one)?;
    }
    Ok(())
}

/// Adds the functions and the line of the entry.
fn add_body(text: &mut Vec<u8>, code: &Code) -> Result<(), Memory>
    ensures { OnOk result (text.new.items ≡ text.old.items
        ++ (spec.numbered spec.declare_line 0 code.now.functions
        ++ (spec.numbered spec.function_text 0 code.now.functions ++ spec.entry_line code.now.root))) }
{
    add_declarations(text, code.functions.as_slice())?;
    add_functions(text, code.functions.as_slice())?;
    add_entry(text, code.root)
}

/// Adds the line of the entry.
fn add_entry(text: &mut Vec<u8>, root: bool) -> Result<(), Memory>
    ensures { OnOk result (text.new.items ≡ text.old.items ++ spec.entry_line root) }
{
    add_opened_number(text, b"ENTRY", 0)?;
    add_last_flag(text, root)
}

/// Adds the lines of code.
pub(crate) fn add_lines(text: &mut Vec<u8>, code: &Code) -> Result<(), Memory>
    ensures { OnOk result (text.new.items ≡ text.old.items ++ spec.lines_of code.now) }
{
    add_texts(text, code.texts.as_slice())?;
    add_types(text, code.types.as_slice())?;
    add_body(text, code)
}
