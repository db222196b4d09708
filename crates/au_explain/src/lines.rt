//! The lines of lives.

ghost use Rattle.std.specs.Prelude.{◌≡◌, ◌++◌, OnOk, codes, decimal};
ghost use Rattle.std.specs.List.{flat_map};
ghost use Rattle.au_explain.specs.Lines as spec;

use crate::lists::{FunctionLives, Mention, MentionKind, VariableLives};
use au_base::{Memory, Pos};
use itoa::Buffer;

/// Adds bytes.
fn add(text: &mut Vec<u8>, bytes: &[u8]) -> Result<(), Memory>
    ensures { OnOk result (text.new.items ≡ text.old.items ++ bytes.now) }
{
    text.extend_from_slice(bytes)?;
    Ok(())
}

/// Adds a number.
fn add_number(text: &mut Vec<u8>, number: u32) -> Result<(), Memory>
    ensures { OnOk result (text.new.items ≡ text.old.items ++ decimal number) }
{
    let mut digits = Buffer::new();
    add(text, digits.format(number).as_bytes())
}

/// Adds a place: its line, a colon and its column.
fn add_place(text: &mut Vec<u8>, at: Pos) -> Result<(), Memory>
    ensures { OnOk result (text.new.items ≡ text.old.items ++ spec.place_text at) }
{
    add_number(text, at.line)?;
    add(text, b":")?;
    add_number(text, at.column)
}

/// How a variable is mentioned.
fn kind_text(kind: MentionKind) -> &'static [u8]
    ensures { result.now ≡ spec.kind_text kind }
{
    match kind {
        MentionKind::Consumed => b"consumed",
        MentionKind::Written => b"written",
        MentionKind::Read => b"read",
        MentionKind::Looked => b"looked",
    }
}

/// Adds the end of a borrow statement, where a mention opens one.
fn add_until(text: &mut Vec<u8>, until: Option<Pos>) -> Result<(), Memory>
    ensures { OnOk result (text.new.items ≡ text.old.items ++ spec.until_text until) }
{
    match until {
        None => Ok(()),
        Some(at) => {
            add(text, b" to ")?;
            add_place(text, at)
        }
    }
}

/// Adds what begins the line of what happens at a place: four blanks, the place, and a blank.
fn add_event(text: &mut Vec<u8>, at: Pos) -> Result<(), Memory>
    ensures { OnOk result (text.new.items
        ≡ text.old.items ++ (codes "    " ++ (spec.place_text at ++ codes " "))) }
{
    add(text, b"    ")?;
    add_place(text, at)?;
    add(text, b" ")
}

/// Adds the line of a birth.
fn add_birth(text: &mut Vec<u8>, at: Pos) -> Result<(), Memory>
    ensures { OnOk result (text.new.items ≡ text.old.items ++ spec.birth_line at) }
{
    add_event(text, at)?;
    add(text, b"born\n")
}

/// Adds the line of a mention.
fn add_mention(text: &mut Vec<u8>, one: &Mention) -> Result<(), Memory>
    ensures { OnOk result (text.new.items ≡ text.old.items ++ spec.mention_line one.now) }
{
    add_event(text, one.at)?;
    add(text, kind_text(one.kind))?;
    add_until(text, one.until)?;
    add(text, b"\n")
}

/// Adds the lines of mentions.
fn add_mentions(text: &mut Vec<u8>, all: &[Mention]) -> Result<(), Memory>
    ensures { OnOk result (text.new.items ≡ text.old.items ++ flat_map spec.mention_line all.now) }
{
    for one in all {
        add_mention(text, one)?;
    }
    Ok(())
}

/// Adds the line of a variable and its type.
fn add_head(text: &mut Vec<u8>, one: &VariableLives) -> Result<(), Memory>
    ensures { OnOk result (text.new.items ≡ text.old.items ++ spec.head_line one.now) }
{
    add_named(text, one.name.as_bytes())?;
    add(text, one.of.as_bytes())?;
    add(text, b"\n")
}

/// Adds what begins the line of a variable: two blanks, its name, a colon and a blank.
fn add_named(text: &mut Vec<u8>, name: &[u8]) -> Result<(), Memory>
    ensures { OnOk result (text.new.items ≡ text.old.items ++ (codes "  " ++ (name.now ++ codes ": "))) }
{
    add(text, b"  ")?;
    add(text, name)?;
    add(text, b": ")
}

/// Adds the lines of a variable.
fn add_variable(text: &mut Vec<u8>, one: &VariableLives) -> Result<(), Memory>
    ensures { OnOk result (text.new.items ≡ text.old.items ++ spec.variable_text one.now) }
{
    add_head(text, one)?;
    add_birth(text, one.at)?;
    add_mentions(text, one.mentions.as_slice())
}

/// Adds the lines of variables.
fn add_variables(text: &mut Vec<u8>, all: &[VariableLives]) -> Result<(), Memory>
    ensures { OnOk result (text.new.items ≡ text.old.items ++ flat_map spec.variable_text all.now) }
{
    for one in all {
        add_variable(text, one)?;
    }
    Ok(())
}

/// Adds the lines of a function of this name, if it has variables.
fn add_named_function(
    text: &mut Vec<u8>,
    name: &[u8],
    variables: &[VariableLives],
) -> Result<(), Memory>
    ensures { OnOk result (text.new.items ≡ text.old.items ++ spec.with_variables name.now variables.now) }
{
    if variables.is_empty() {
        return Ok(());
    }
    add(text, name)?;
    add(text, b"\n")?;
    add_variables(text, variables)
}

/// Adds the lines of functions.
pub(crate) fn add_functions(text: &mut Vec<u8>, all: &[FunctionLives]) -> Result<(), Memory>
    ensures { OnOk result (text.new.items ≡ text.old.items ++ flat_map spec.function_text all.now) }
{
    for one in all {
        add_named_function(text, one.name.as_bytes(), one.variables.as_slice())?;
    }
    Ok(())
}
