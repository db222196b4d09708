//! What is answered and told of a run of code, by how it ended.

ghost use Rattle.std.specs.Prelude.{◌≡◌, false, IsTrue, IfOk, OnErr, Some, map};
ghost use Rattle.au_low.specs.Instructions.{text_bytes};
ghost use Rattle.au_low.specs.Runs.{low_run};
ghost use Rattle.au_running.specs.Runs.{kind_words};
ghost use Rattle.au_runs.specs.Calls.{IsCut, Rose};
ghost use Rattle.au_stores.specs.Stores.{deed_of};
ghost use Rattle.au_running.specs.Came.{CodeEnds, IsAbort, IsNeverStuck, NeedsMemory, is_unstuck, ran_of};
ghost use Rattle.au_running.specs.Came as spec;
ghost use Rattle.au_running.specs.Lines.{told_lines};
ghost use Rattle.au_running.specs.Ran.{is_read_fault, is_write_fault};

use crate::ran::{Ran, Report};
use crate::telling::event_lines;
use au_base::{Memory, Sink, Source, Text};
use au_low::{Code, Event};
use au_runs::{End, Machine};
use au_shipped::AbortKind;
use std::alloc::Global;

/// The bytes of a text of the code, by its number.
fn text_of(code: &Code, number: u32) -> &[u8]
    ensures { result.now ≡ text_bytes code.now number }
{
    match code.texts.as_slice().get(number as usize) {
        Some(text) => text.as_bytes(),
        None => &[],
    }
}

/// The words in which an abort of code is told.
fn words_of(code: &Code, why: AbortKind) -> &[u8]
    ensures { result.now ≡ kind_words code.now why }
{
    match why {
        AbortKind::Arithmetic => b"arithmetic",
        AbortKind::Called(number) => text_of(code, number),
        AbortKind::NotEmpty => b"buffer not empty",
        AbortKind::Empty => b"buffer empty",
        AbortKind::OutOfRange => b"out of range",
    }
}

/// What is answered of a run of code that ended so, and isn't stuck.
///
/// # Errors
///
/// `Memory` when memory runs out, for the words of an abort alone.
fn answer_of(alloc: Global, code: &Code, end: End) -> Result<Ran, Memory>
    requires { IsTrue (is_unstuck end) }
    ensures ran { IfOk result (λ ran. ran_of code.now end ≡ Some ran) }
    ensures words { OnErr result (IsAbort end) }
{
    match end {
        End::Exit(success) => Ok(Ran::Exit(success)),
        End::Abort(why) => {
            let words = Text::copy_of(alloc, words_of(code, why))?;
            Ok(Ran::Abort(words))
        }
        End::Steps => Ok(Ran::Steps),
        End::Stuck => unreachable!(),
        End::ReadFault => Ok(Ran::ReadFault),
        End::WriteFault => Ok(Ran::WriteFault),
    }
}

/// Whether the events of a run are told that ended so, where they are asked for: they aren't where what it
/// writes couldn't be written.
fn is_told(life: bool, end: End) -> bool
    ensures { result ≡ spec.is_told life end }
{
    match end {
        End::Exit(_) => life,
        End::Abort(_) => life,
        End::Steps => life,
        End::Stuck => life,
        End::ReadFault => life,
        End::WriteFault => false,
    }
}

/// The lines of the events of a run of code that ended so, if they are told.
///
/// # Errors
///
/// `Memory` when memory runs out.
fn lines_of(
    alloc: Global,
    code: &Code,
    life: bool,
    end: End,
    events: &[Event],
) -> Result<Vec<u8>, Memory>
    ensures lines { IfOk result (λ lines. lines.items
        ≡ told_lines (spec.is_told life end) code.now (map deed_of events.now)) }
    ensures told { OnErr result (IsTrue (spec.is_told life end)) }
{
    if is_told(life, end) {
        event_lines(alloc, code, events)
    } else {
        Ok(Vec::new(alloc))
    }
}

/// What is told of a run of code that ended so, and isn't stuck.
///
/// # Errors
///
/// `Memory` when memory runs out, for the words of an abort or the lines of events alone.
fn report_of(
    alloc: Global,
    code: &Code,
    life: bool,
    end: End,
    events: &[Event],
) -> Result<Report, Memory>
    requires { IsTrue (is_unstuck end) }
    ensures ran { IfOk result (λ report. ran_of code.now end ≡ Some report.ran) }
    ensures lines { IfOk result (λ report. report.events.items
        ≡ told_lines (spec.is_told life end) code.now (map deed_of events.now)) }
    ensures words { OnErr result (NeedsMemory life end) }
{
    let ran = answer_of(alloc, code, end)?;
    let lines = lines_of(alloc, code, life, end, events)?;
    Ok(Report { ran, events: lines })
}

/// Runs code that is never stuck for at most so many steps, on an input and a sink, and tells the lines of
/// its events where these are asked for.
///
/// # Errors
///
/// `Memory` when memory runs out; a front of what the code writes is on the sink then.
pub fn run_code<I: Source, O: Sink>(
    alloc: Global,
    code: &Code,
    life: bool,
    steps: u64,
    input: &mut I,
    out: &mut O,
) -> Result<Report, Memory>
    requires { IsNeverStuck code.now }
    ensures came { IfOk result (λ report. CodeEnds code.now life report.ran report.events.items steps
        (I.left input.old) (I.left input.new) (O.written out.old) (O.written out.new)) }
    ensures read { IfOk result (λ report.
        Rose (is_read_fault report.ran) (I.faults input.old) (I.faults input.new)) }
    ensures written { IfOk result (λ report.
        Rose (is_write_fault report.ran) (O.faults out.old) (O.faults out.new)) }
    ensures cut { OnErr result (IsCut (low_run false code.now) steps (I.left input.old)
        (O.written out.old) (O.written out.new)) }
    ensures still { OnErr result (O.faults out.new ≡ O.faults out.old) }
    ensures quiet { OnErr result (life ≡ false → I.faults input.new ≡ I.faults input.old) }
{
    let mut machine = Machine::load(alloc, code, life)?;
    let end = machine.run(alloc, steps, input, out)?;
    report_of(alloc, code, life, end, machine.events())
}
