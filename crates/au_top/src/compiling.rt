//! Compiling a program, and what a call writes and how it ends by what is answered of its code.

ghost use Rattle.std.specs.Prelude.{◌≡◌, Err, IfOk, OnOk, Some};
ghost use Rattle.au_base.specs.Outside.{Adds, AddsFront, HasRisen};
ghost use Rattle.au_cprint.specs.Programs.{c_text};
ghost use Rattle.au_modules.specs.Slots as slots;
ghost use Rattle.au_outcomes.specs.Lines as lines;
ghost use Rattle.au_top.specs.Dues.{due_line};
ghost use Rattle.au_top.specs.Ends.{PaysFor, TextAnswers};
ghost use Rattle.au_top.specs.Streams.{HasStayed, Stream, sink_of};
ghost use Rattle.au_top.specs.Texts.{uncoded_due};

use crate::answering::Asked;
use crate::entries::entry_for;
use crate::running::refused_line;
use crate::saying::{AnswerFault, say};
use au_base::{Entry, Limit, Sink, Status};
use au_cprint::{PrintFault, print_c};
use au_low::Code;
use au_outcomes::{NotedProgram, Refusal, limit_line};
use au_running::{Uncoded, program_code};
use std::alloc::Global;

/// Writes the C text of a program's code from its entry on `out`; or, where there is no such entry or a limit
/// is passed, the line that says so on `err`.
///
/// # Errors
///
/// `Write` when a sink fails, and `Memory` when memory runs out: nothing was written then.
pub fn compile<O: Sink, E: Sink>(
    alloc: Global,
    asked: &Asked,
    program: &NotedProgram,
    out: &mut O,
    err: &mut E,
) -> Result<Status, AnswerFault>
    ensures { (input : Stream) → TextAnswers result
        (record {
          input = input;
          out = sink_of O.Sink out.old out.new;
          err = sink_of E.Sink err.old err.new;
        })
        (record {
          named = asked.now.entry;
          steps = asked.now.steps;
          life = asked.now.life;
          program = slots.modules program.now;
        }) }
{
    let entry = entry_for(alloc, &asked.entry, program)?;
    match program_code(alloc, program, &entry) {
        Ok(code) => put_text(alloc, &code, out),
        Err(why) => say_uncoded(alloc, entry, why, err),
    }
}

/// Writes the C text of code, and ends with success.
fn put_text<O: Sink>(alloc: Global, code: &Code, out: &mut O) -> Result<Status, AnswerFault>
    ensures ok { IfOk result (λ ends. ends ≡ Status.Success) }
    ensures written { OnOk result (Adds (O.written out.old) (O.written out.new) (c_text code.now)) }
    ensures quiet { OnOk result (O.faults out.new ≡ O.faults out.old) }
    ensures front { result ≡ Err AnswerFault.Write
        → AddsFront (O.written out.old) (O.written out.new) (c_text code.now) }
    ensures risen { result ≡ Err AnswerFault.Write → HasRisen (O.faults out.old) (O.faults out.new) }
    ensures memory { result ≡ Err AnswerFault.Memory
        → (O.written out.new ≡ O.written out.old) × (O.faults out.new ≡ O.faults out.old) }
{
    match print_c(alloc, code, out) {
        Ok(()) => Ok(Status::Success),
        Err(PrintFault::Write) => Err(AnswerFault::Write),
        Err(PrintFault::Memory) => Err(AnswerFault::Memory),
    }
}

/// Writes the line that says why there is no code.
fn say_uncoded<E: Sink>(
    alloc: Global,
    entry: Entry,
    why: Uncoded,
    err: &mut E,
) -> Result<Status, AnswerFault>
    ensures { (input out : Stream) → HasStayed out → PaysFor result (uncoded_due entry why)
        (record { input = input; out = out; err = sink_of E.Sink err.old err.new }) }
{
    match why {
        Uncoded::NoEntry => say_no_entry(alloc, entry, err),
        Uncoded::Limit(limit) => say_limit(alloc, limit, err),
        Uncoded::Memory => Err(AnswerFault::Memory),
    }
}

/// Writes the line that there is no such entry.
fn say_no_entry<E: Sink>(alloc: Global, entry: Entry, err: &mut E) -> Result<Status, AnswerFault>
    ensures { (input out : Stream) → HasStayed out → PaysFor result (uncoded_due entry Uncoded.NoEntry)
        (record { input = input; out = out; err = sink_of E.Sink err.old err.new }) }
{
    let line = refused_line(alloc, Refusal::Entry(entry))?;
    say(err, line.as_slice(), Status::Refused)
}

/// Writes the line of a limit.
fn say_limit<E: Sink>(alloc: Global, limit: Limit, err: &mut E) -> Result<Status, AnswerFault>
    ensures { (input out : Stream) → HasStayed out
        → PaysFor result (Some (due_line Status.Limit (lines.limit_line limit)))
        (record { input = input; out = out; err = sink_of E.Sink err.old err.new }) }
{
    let line = limit_line(alloc, &limit)?;
    say(err, line.as_slice(), Status::Limit)
}
