//! Puts operands behind a text.

ghost use Rattle.std.specs.Prelude.{◌≡◌, ◌++◌, OnOk, decimal};
ghost use Rattle.std.specs.List.{flat_map};
ghost use Rattle.std.specs.Fmt.{signed_decimal};
ghost use Rattle.au_cprint.specs.Words as spec;
ghost use Rattle.au_cprint.specs.Instructions.{numbers, labels};

use au_base::Memory;
use itoa::Buffer;

/// Adds bytes.
pub(crate) fn add(text: &mut Vec<u8>, bytes: &[u8]) -> Result<(), Memory>
    ensures { OnOk result (text.new.items ≡ text.old.items ++ bytes.now) }
{
    text.extend_from_slice(bytes)?;
    Ok(())
}

/// Adds a number.
pub(crate) fn add_number(text: &mut Vec<u8>, n: u64) -> Result<(), Memory>
    ensures { OnOk result (text.new.items ≡ text.old.items ++ decimal n) }
{
    let mut digits = Buffer::new();
    add(text, digits.format(n).as_bytes())
}

/// Adds a number that may be below 0.
pub(crate) fn add_signed(text: &mut Vec<u8>, n: i128) -> Result<(), Memory>
    ensures { OnOk result (text.new.items ≡ text.old.items ++ signed_decimal n) }
{
    let mut digits = Buffer::new();
    add(text, digits.format(n).as_bytes())
}

/// Adds a label.
pub(crate) fn add_label(text: &mut Vec<u8>, n: u64) -> Result<(), Memory>
    ensures { OnOk result (text.new.items ≡ text.old.items ++ spec.label_text n) }
{
    add(text, b"L")?;
    add_number(text, n)
}

/// Adds what stands between quotation marks.
pub(crate) fn add_quoted(text: &mut Vec<u8>, bytes: &[u8]) -> Result<(), Memory>
    ensures { OnOk result (text.new.items ≡ text.old.items ++ spec.quoted bytes.now) }
{
    add(text, b"\"")?;
    add(text, bytes)?;
    add(text, b"\"")
}

/// Adds an operand behind another.
pub(crate) fn add_further(text: &mut Vec<u8>, operand: &[u8]) -> Result<(), Memory>
    ensures { OnOk result (text.new.items ≡ text.old.items ++ spec.further (spec.plain operand.now)) }
{
    add(text, b", ")?;
    add(text, operand)
}

/// Adds a number behind another operand.
pub(crate) fn add_further_number(text: &mut Vec<u8>, n: u32) -> Result<(), Memory>
    ensures { OnOk result (text.new.items ≡ text.old.items ++ spec.further (spec.number n)) }
{
    add(text, b", ")?;
    add_number(text, u64::from(n))
}

/// Adds a label behind another operand.
pub(crate) fn add_further_label(text: &mut Vec<u8>, n: u32) -> Result<(), Memory>
    ensures { OnOk result (text.new.items ≡ text.old.items ++ spec.further (spec.label n)) }
{
    add(text, b", ")?;
    add_label(text, u64::from(n))
}

/// Adds, behind another operand, what stands between quotation marks.
pub(crate) fn add_further_quoted(text: &mut Vec<u8>, bytes: &[u8]) -> Result<(), Memory>
    ensures { OnOk result (text.new.items ≡ text.old.items ++ spec.further (spec.name bytes.now)) }
{
    add(text, b", ")?;
    add_quoted(text, bytes)
}

/// Adds numbers behind another operand.
pub(crate) fn add_numbers(text: &mut Vec<u8>, all: &[u32]) -> Result<(), Memory>
    ensures { OnOk result (text.new.items ≡ text.old.items ++ flat_map spec.further (numbers all.now)) }
{
    for one in all {
        add_further_number(text, *one)?;
    }
    Ok(())
}

/// Adds labels behind another operand.
pub(crate) fn add_labels(text: &mut Vec<u8>, all: &[u32]) -> Result<(), Memory>
    ensures { OnOk result (text.new.items ≡ text.old.items ++ flat_map spec.further (labels all.now)) }
{
    for one in all {
        add_further_label(text, *one)?;
    }
    Ok(())
}
