//! Running a program, and what a call writes and how it ends by how the run ended.

ghost use Rattle.std.specs.Prelude.{◌≡◌, ◌++◌, [], Err, IfOk, IsTrue, OnOk};
ghost use Rattle.au_base.specs.Outside.{Adds, AddsFront, HasRisen};
ghost use Rattle.au_modules.specs.Slots as slots;
ghost use Rattle.au_outcomes.specs.Lines.{refusal_line};
ghost use Rattle.au_outcomes.specs.Refusals.{is_refusal};
ghost use Rattle.au_running.specs.Ran.{is_write_fault};
ghost use Rattle.au_top.specs.Ends.{RunAnswers};
ghost use Rattle.au_top.specs.Runs as runs;
ghost use Rattle.au_top.specs.Sound.{IsSafe};
ghost use Rattle.au_top.specs.Streams.{streams};

use crate::answering::Asked;
use crate::entries::entry_for;
use crate::saying::{AnswerFault, READ_FAULT_LINE, say};
use au_base::{Entry, Memory, Sink, Source, Status};
use au_outcomes::{NotedProgram, Refusal, abort_line, limit_line, refusal_text, steps_line};
use au_running::{Ran, Report, run_program};
use std::alloc::Global;

/// Runs a program that is safe to run from its entry, and writes on `err` the lines of its events, if these
/// are asked for, and the line that is due behind the run, if one is.
///
/// # Errors
///
/// `Write` when a sink fails, and `Memory` when memory runs out: a front of what the program writes is on
/// `out` then.
pub fn run<I: Source, O: Sink, E: Sink>(
    alloc: Global,
    asked: &Asked,
    program: &NotedProgram,
    input: &mut I,
    out: &mut O,
    err: &mut E,
) -> Result<Status, AnswerFault>
    requires { IsSafe (slots.modules program.now) }
    ensures { RunAnswers result
        (streams I.Source O.Sink E.Sink input.old input.new out.old out.new err.old err.new)
        (record {
          named = asked.now.entry;
          steps = asked.now.steps;
          life = asked.now.life;
          program = slots.modules program.now;
        }) }
{
    let entry = entry_for(alloc, &asked.entry, program)?;
    let report = run_program(alloc, program, &entry, asked.life, asked.steps, input, out)?;
    if is_cut(&report.ran) {
        return Err(AnswerFault::Write);
    }
    say_ran(alloc, entry, asked.steps, report, err)
}

/// Whether what the program writes couldn't be written.
fn is_cut(ran: &Ran) -> bool
    ensures { result ≡ is_write_fault ran.now }
{
    match ran {
        Ran::NoEntry => false,
        Ran::Limit(_) => false,
        Ran::Exit(_) => false,
        Ran::Abort(_) => false,
        Ran::Steps => false,
        Ran::ReadFault => false,
        Ran::WriteFault => true,
    }
}

/// Writes what is told of a run on `err`, and ends as the run did.
fn say_ran<E: Sink>(
    alloc: Global,
    entry: Entry,
    steps: u64,
    report: Report,
    err: &mut E,
) -> Result<Status, AnswerFault>
    ensures ok { IfOk result (λ ends. ends ≡ runs.run_status report.ran) }
    ensures written { OnOk result (Adds (E.written err.old) (E.written err.new)
        (report.events.items ++ runs.run_line entry steps report.ran)) }
    ensures quiet { OnOk result (E.faults err.new ≡ E.faults err.old) }
    ensures front { result ≡ Err AnswerFault.Write
        → AddsFront (E.written err.old) (E.written err.new)
        (report.events.items ++ runs.run_line entry steps report.ran) }
    ensures risen { result ≡ Err AnswerFault.Write → HasRisen (E.faults err.old) (E.faults err.new) }
    ensures memory { result ≡ Err AnswerFault.Memory
        → (E.written err.new ≡ E.written err.old) × (E.faults err.new ≡ E.faults err.old) }
{
    let status = status_of(&report.ran);
    let text = text_of(alloc, entry, steps, report)?;
    say(err, text.as_slice(), status)
}

/// What is told of a run: the lines of its events, and behind them the line that is due.
fn text_of(alloc: Global, entry: Entry, steps: u64, report: Report) -> Result<Vec<u8>, Memory>
    ensures { IfOk result (λ text. text.items
        ≡ report.events.items ++ runs.run_line entry steps report.ran) }
{
    let line = line_of(alloc, entry, steps, &report.ran)?;
    let mut text = report.events;
    text.extend_from_slice(line.as_slice())?;
    Ok(text)
}

/// The line that is due behind a run, or no byte where none is.
fn line_of(alloc: Global, entry: Entry, steps: u64, ran: &Ran) -> Result<Vec<u8>, Memory>
    ensures { IfOk result (λ line. line.items ≡ runs.run_line entry steps ran.now) }
{
    match ran {
        Ran::NoEntry => refused_line(alloc, Refusal::Entry(entry)),
        Ran::Limit(limit) => limit_line(alloc, limit),
        Ran::Exit(_) => Ok(Vec::new(alloc)),
        Ran::Abort(words) => abort_line(alloc, words.as_bytes()),
        Ran::Steps => steps_line(alloc, steps),
        Ran::ReadFault => line_copy(alloc, READ_FAULT_LINE),
        Ran::WriteFault => Ok(Vec::new(alloc)),
    }
}

/// The line of a refusal that names no file.
///
/// # Errors
///
/// `Memory` when memory runs out.
pub fn refused_line(alloc: Global, refusal: Refusal) -> Result<Vec<u8>, Memory>
    requires { IsTrue (is_refusal refusal) }
    ensures { IfOk result (λ line. line.items ≡ refusal_line [] refusal) }
{
    refusal_text(alloc, &refusal, &[])
}

/// The same line.
fn line_copy(alloc: Global, line: &[u8]) -> Result<Vec<u8>, Memory>
    ensures { IfOk result (λ copy. copy.items ≡ line.now) }
{
    let copy = Vec::from_slice(alloc, line)?;
    Ok(copy)
}

/// How a call ends that has run a program.
fn status_of(ran: &Ran) -> Status
    ensures { result ≡ runs.run_status ran.now }
{
    match ran {
        Ran::NoEntry => Status::Refused,
        Ran::Limit(_) => Status::Limit,
        Ran::Exit(true) => Status::Success,
        Ran::Exit(false) => Status::Failure,
        Ran::Abort(_) => Status::Abort,
        Ran::Steps => Status::Steps,
        Ran::ReadFault => Status::ReadFault,
        Ran::WriteFault => Status::WriteFault,
    }
}
