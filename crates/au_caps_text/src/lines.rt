//! The lines of reports.

ghost use Rattle.std.specs.Prelude.{◌≡◌, ◌++◌, OnOk, codes};
ghost use Rattle.std.specs.List.{flat_map};
ghost use Rattle.au_caps_text.specs.Lines as spec;

use crate::reports::Row;
use au_base::{Memory, Text};

/// Adds bytes.
fn add(text: &mut Vec<u8>, bytes: &[u8]) -> Result<(), Memory>
    ensures { OnOk result (text.new.items ≡ text.old.items ++ bytes.now) }
{
    text.extend_from_slice(bytes)?;
    Ok(())
}

/// Adds an entry, with a blank before it.
fn add_entry(text: &mut Vec<u8>, one: &Text) -> Result<(), Memory>
    ensures { OnOk result (text.new.items ≡ text.old.items ++ spec.entry_text one.now) }
{
    add(text, b" ")?;
    add(text, one.as_bytes())
}

/// Adds entries.
fn add_entries(text: &mut Vec<u8>, list: &[Text]) -> Result<(), Memory>
    ensures { OnOk result (text.new.items ≡ text.old.items ++ flat_map spec.entry_text list.now) }
{
    for one in list {
        add_entry(text, one)?;
    }
    Ok(())
}

/// Adds the line of a list under a word.
fn add_list(text: &mut Vec<u8>, word: &[u8], list: &[Text]) -> Result<(), Memory>
    ensures { OnOk result (text.new.items ≡ text.old.items ++ spec.list_line word.now list.now) }
{
    add(text, word)?;
    add_entries(text, list)?;
    add(text, b"\n")
}

/// Adds the lines of what a function can hold and hand on.
fn add_kept(text: &mut Vec<u8>, row: &Row) -> Result<(), Memory>
    ensures { OnOk result (text.new.items ≡ text.old.items
        ++ (spec.list_line (codes "  holds") row.now.holds
        ++ spec.list_line (codes "  hands") row.now.hands)) }
{
    add_list(text, b"  holds", row.holds.as_slice())?;
    add_list(text, b"  hands", row.hands.as_slice())
}

/// Adds the lines of a function.
fn add_row(text: &mut Vec<u8>, row: &Row) -> Result<(), Memory>
    ensures { OnOk result (text.new.items ≡ text.old.items ++ spec.row_text row.now) }
{
    add_list(text, row.function.as_bytes(), &[])?;
    add_list(text, b"  makes", row.makes.as_slice())?;
    add_kept(text, row)
}

/// Adds the lines of functions.
pub(crate) fn add_rows(text: &mut Vec<u8>, rows: &[Row]) -> Result<(), Memory>
    ensures { OnOk result (text.new.items ≡ text.old.items ++ flat_map spec.row_text rows.now) }
{
    for one in rows {
        add_row(text, one)?;
    }
    Ok(())
}
