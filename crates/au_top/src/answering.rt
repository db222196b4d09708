//! What a call writes, and the status with which it ends.

ghost use Rattle.std.specs.Prelude.{◌≡◌, Err, OnOk, IfOk, IfErr, IfSome, IsTrue, map};
ghost use Rattle.std.specs.String.{string_bytes};
ghost use Rattle.au_base.specs.Outside.{HasRisen, Adds, AddsFront};
ghost use Rattle.au_outcomes.specs.Caps.Lines.{report_text};
ghost use Rattle.au_outcomes.specs.Explain.Lines.{life_text};
ghost use Rattle.au_top.specs.Calls.{Fails, Pays};
ghost use Rattle.au_outcomes.specs.Outcomes.{is_outcome};
ghost use Rattle.au_top.specs.Dues.{due_of};
ghost use Rattle.au_top.specs.Ends.{IfCompiles, IfRuns, RunAnswers, TextAnswers};
ghost use Rattle.au_top.specs.Sound.{RunsSafely};
ghost use Rattle.au_top.specs.Streams.{AreQuiet, HasStayed, source_of, streams};

use crate::compiling::compile;
use crate::running::run;
use crate::saying::{AnswerFault, say};
use au_base::{Entry, Sink, Source, Status, put_all};
use au_outcomes::{
    CapsFault, Lives, Outcome, PrintFault, Report, explain, limit_line, missing_line, print_report,
    refusal_text,
};
use std::alloc::Global;

/// The line for words that are no job.
pub const WORDS_LINE: &[u8] =
    b"words: run [--entry=M:f] [--steps=N] [--life] PART.. | compile [--entry=M:f] PART.. | explain PART.. | check PART.. | format FILE | caps PART..\n";

/// The line for a program that is checked and accepted.
const ACCEPTED_LINE: &[u8] = b"accepted\n";

/// What the words say of what is done with their program.
#[derive(Drop)]
pub struct Asked {
    /// The names of its files.
    pub files: Vec<String>,
    /// The entry of a run or of C text, if one is named.
    pub entry: Option<Entry>,
    /// How many steps a run may take.
    pub steps: u64,
    /// Whether the events of a run are told.
    pub life: bool,
}

/// Writes the text of the lives of the variables of a program, and ends with success.
fn put_lives<O: Sink>(alloc: Global, lives: &Lives, out: &mut O) -> Result<Status, AnswerFault>
    ensures ok { IfOk result (λ ends. ends ≡ Status.Success) }
    ensures written { OnOk result (Adds (O.written out.old) (O.written out.new) (life_text lives.now)) }
    ensures quiet { OnOk result (O.faults out.new ≡ O.faults out.old) }
    ensures front { result ≡ Err AnswerFault.Write
        → AddsFront (O.written out.old) (O.written out.new) (life_text lives.now) }
    ensures risen { result ≡ Err AnswerFault.Write → HasRisen (O.faults out.old) (O.faults out.new) }
    ensures memory { result ≡ Err AnswerFault.Memory
        → (O.written out.new ≡ O.written out.old) × (O.faults out.new ≡ O.faults out.old) }
{
    match explain(alloc, lives, out) {
        Ok(()) => Ok(Status::Success),
        Err(PrintFault::Write) => Err(AnswerFault::Write),
        Err(PrintFault::Memory) => Err(AnswerFault::Memory),
    }
}

/// Writes the text of the report on what a program can do with capabilities, and ends with success.
fn put_report<O: Sink>(alloc: Global, report: &Report, out: &mut O) -> Result<Status, AnswerFault>
    ensures ok { IfOk result (λ ends. ends ≡ Status.Success) }
    ensures written { OnOk result (Adds (O.written out.old) (O.written out.new) (report_text report.now)) }
    ensures quiet { OnOk result (O.faults out.new ≡ O.faults out.old) }
    ensures front { result ≡ Err AnswerFault.Write
        → AddsFront (O.written out.old) (O.written out.new) (report_text report.now) }
    ensures risen { result ≡ Err AnswerFault.Write → HasRisen (O.faults out.old) (O.faults out.new) }
    ensures memory { result ≡ Err AnswerFault.Memory
        → (O.written out.new ≡ O.written out.old) × (O.faults out.new ≡ O.faults out.old) }
{
    match print_report(alloc, report, out) {
        Ok(()) => Ok(Status::Success),
        Err(CapsFault::Write) => Err(AnswerFault::Write),
        Err(CapsFault::Memory) => Err(AnswerFault::Memory),
    }
}

/// Does what is due for an outcome: a line is written on `err`, or that the program is accepted or the
/// lives of its variables or the layout of its file or the report on its capabilities on `out`, or the
/// program is run or compiled.
pub fn answer<I: Source, O: Sink, E: Sink>(
    alloc: Global,
    asked: &Asked,
    outcome: &Outcome,
    input: &mut I,
    out: &mut O,
    err: &mut E,
) -> Result<Status, AnswerFault>
    requires outcome { IsTrue (is_outcome outcome.now) }
    requires safe { RunsSafely outcome.now }
    ensures pays { IfSome (due_of (map string_bytes asked.now.files.items) outcome.now)
        (λ due. IfOk result (λ status. Pays due status
        (streams I.Source O.Sink E.Sink input.old input.new out.old out.new err.old err.new))) }
    ensures quiet { IfSome (due_of (map string_bytes asked.now.files.items) outcome.now)
        (λ due. OnOk result (AreQuiet
        (streams I.Source O.Sink E.Sink input.old input.new out.old out.new err.old err.new))) }
    ensures fails { IfSome (due_of (map string_bytes asked.now.files.items) outcome.now)
        (λ due. IfErr result (λ fault. Fails fault due
        (streams I.Source O.Sink E.Sink input.old input.new out.old out.new err.old err.new))) }
    ensures kept { IfSome (due_of (map string_bytes asked.now.files.items) outcome.now)
        (λ due. HasStayed (source_of I.Source input.old input.new)) }
    ensures runs { IfRuns outcome.now (λ program. RunAnswers result
        (streams I.Source O.Sink E.Sink input.old input.new out.old out.new err.old err.new)
        (record {
          named = asked.now.entry;
          steps = asked.now.steps;
          life = asked.now.life;
          program = program;
        })) }
    ensures compiles { IfCompiles outcome.now (λ program. TextAnswers result
        (streams I.Source O.Sink E.Sink input.old input.new out.old out.new err.old err.new)
        (record {
          named = asked.now.entry;
          steps = asked.now.steps;
          life = asked.now.life;
          program = program;
        }) × HasStayed (source_of I.Source input.old input.new)) }
{
    match outcome {
        Outcome::NoJob => say(err, WORDS_LINE, Status::Words),
        Outcome::Missing(name) => {
            let line = missing_line(alloc, name.as_bytes())?;
            say(err, line.as_slice(), Status::Missing)
        }
        Outcome::Passes(limit) => {
            let line = limit_line(alloc, limit)?;
            say(err, line.as_slice(), Status::Limit)
        }
        Outcome::Refused(refusal) => {
            let line = refusal_text(alloc, refusal, asked.files.as_slice())?;
            say(err, line.as_slice(), Status::Refused)
        }
        Outcome::Accepted => {
            put_all(out, ACCEPTED_LINE)?;
            Ok(Status::Success)
        }
        Outcome::Explained(lives) => put_lives(alloc, lives, out),
        Outcome::Laid(text) => {
            put_all(out, text.as_bytes())?;
            Ok(Status::Success)
        }
        Outcome::Reported(report) => put_report(alloc, report, out),
        Outcome::Runs(program) => run(alloc, asked, program, input, out, err),
        Outcome::Compiles(program) => compile(alloc, asked, program, out, err),
    }
}
