//! What the line of a refusal says of a variable that has no good life.

ghost use Rattle.std.specs.Prelude.{◌≡◌, ◌++◌, IfOk, OnOk, decimal, flat_map};
ghost use Rattle.au_program_lives.specs.Lines as lines;

use crate::faults::LinearFault;
use au_base::Memory;
use au_lives::lives::LifeKind;
use itoa::Buffer;
use std::alloc::Global;

/// What the line of a refusal says of a variable that has no good life, behind its place. Of want of memory
/// it says nothing.
///
/// # Errors
///
/// `Memory` when memory runs out.
pub fn linear_text(alloc: Global, fault: &LinearFault) -> Result<Vec<u8>, Memory>
    ensures { IfOk result (λ text. text.items ≡ lines.linear_text fault.now) }
{
    let mut text = Vec::new(alloc);
    add_fault(&mut text, fault)?;
    Ok(text)
}

/// Adds what is wrong.
fn add_fault(text: &mut Vec<u8>, fault: &LinearFault) -> Result<(), Memory>
    ensures { OnOk result (text.new.items ≡ text.old.items ++ lines.linear_text fault.now) }
{
    match fault {
        LinearFault::Life {
            variable,
            kind,
            path,
            ..
        } => {
            add_words(text, b"linear ", variable.as_bytes())?;
            add_path(text, *kind, path.as_slice())
        }
        LinearFault::InLoop { variable, .. } => add_three(
            text,
            b"linear ",
            variable.as_bytes(),
            b": consumed in a loop",
        ),
        LinearFault::InPart { variable, .. } => add_three(
            text,
            b"linear ",
            variable.as_bytes(),
            b": consumed in a part",
        ),
        LinearFault::Memory => Ok(()),
    }
}

/// Adds words, and others.
fn add_words(text: &mut Vec<u8>, words: &[u8], others: &[u8]) -> Result<(), Memory>
    ensures { OnOk result (text.new.items ≡ text.old.items ++ (words.now ++ others.now)) }
{
    text.extend_from_slice(words)?;
    text.extend_from_slice(others)?;
    Ok(())
}

/// Adds words, what they speak of, and others.
fn add_three(text: &mut Vec<u8>, words: &[u8], of: &[u8], others: &[u8]) -> Result<(), Memory>
    ensures { OnOk result (text.new.items ≡ text.old.items ++ (words.now ++ of.now ++ others.now)) }
{
    add_words(text, words, of)?;
    text.extend_from_slice(others)?;
    Ok(())
}

/// How a life is broken.
fn kind_text(kind: LifeKind) -> &'static [u8]
    ensures { result.now ≡ lines.kind_text kind }
{
    match kind {
        LifeKind::Unused => b"unused",
        LifeKind::Again => b"met again",
        LifeKind::Clash => b"clash",
        LifeKind::Borrowed => b"borrowed",
    }
}

/// Adds how a path breaks a life, and which.
fn add_path(text: &mut Vec<u8>, kind: LifeKind, path: &[usize]) -> Result<(), Memory>
    ensures { OnOk result (text.new.items ≡ text.old.items ++ lines.path_text kind path.now) }
{
    add_three(text, b": ", kind_text(kind), b", path [")?;
    add_numbers(text, path)?;
    text.extend_from_slice(b"]")?;
    Ok(())
}

/// Adds a number.
fn add_number(text: &mut Vec<u8>, number: usize) -> Result<(), Memory>
    ensures { OnOk result (text.new.items ≡ text.old.items ++ decimal number) }
{
    let mut digits = Buffer::new();
    text.extend_from_slice(digits.format(number).as_bytes())?;
    Ok(())
}

/// Adds a number behind another one.
fn add_next(text: &mut Vec<u8>, number: usize) -> Result<(), Memory>
    ensures { OnOk result (text.new.items ≡ text.old.items ++ lines.next_text number) }
{
    text.extend_from_slice(b", ")?;
    add_number(text, number)
}

/// Adds numbers behind another one.
fn add_more(text: &mut Vec<u8>, numbers: &[usize]) -> Result<(), Memory>
    ensures { OnOk result (text.new.items ≡ text.old.items ++ flat_map lines.next_text numbers.now) }
{
    for one in numbers {
        add_next(text, *one)?;
    }
    Ok(())
}

/// Adds numbers with commas between.
fn add_numbers(text: &mut Vec<u8>, numbers: &[usize]) -> Result<(), Memory>
    ensures { OnOk result (text.new.items ≡ text.old.items ++ lines.numbers_text numbers.now) }
{
    match numbers {
        [] => Ok(()),
        [first, rest @ ..] => {
            add_number(text, *first)?;
            add_more(text, rest)
        }
    }
}
