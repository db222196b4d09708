//! The call that the program is.

ghost use Rattle.std.specs.Prelude.{◌≡◌, IfOk, IsTrue, map};
ghost use Rattle.std.specs.String.{string_bytes};
ghost use Rattle.au_base.specs.Outside.{Files, Counts};
ghost use Rattle.au_words.specs.Jobs.{IsJob, IsNoJob, Task};
ghost use Rattle.au_top.specs.Calls.{FailsBehind, shelf_of};
ghost use Rattle.au_outcomes.specs.Halts.{AreTold, is_read_fault, is_missing};
ghost use Rattle.au_top.specs.Dues.{Arises, AsksForTooMany};
ghost use Rattle.au_top.specs.Ends.{FaultEnds, HasEnded, answer_ends};
ghost use Rattle.au_top.specs.Promises.{Promises};
ghost use Rattle.au_top.specs.Streams.{sink_of, streams};

use crate::answering::{Asked, answer};
use crate::asking::asked_of;
use crate::saying::{AnswerFault, READ_FAULT_LINE};
use au_base::{Shelf, Sink, Source, Status, WriteFault, put_all};
use au_judged_programs::sound::accepted_programs_are_sound;
use au_outcomes::{CheckFault, Outcome, check};
use au_running::laws::lowered_programs_keep_step;
use au_words::{WordsFault, read_words};
use std::alloc::Global;

/// Does what the words ask for, with files from `shelf`, and writes to `out` and `err`. A program that is run
/// reads `input` and writes to `out`.
/// `words` are those of the command line behind the program's own name. What is promised of the call stands
/// in `specs/Promises.antt`, clause by clause.
pub fn austral<S: Shelf, I: Source, O: Sink, E: Sink>(
    alloc: Global,
    words: &[String],
    shelf: &mut S,
    input: &mut I,
    out: &mut O,
    err: &mut E,
) -> Status
    ensures { Promises (record {
      words = map string_bytes words.now;
      shelf = shelf_of S.Shelf shelf.old shelf.new;
      streams = streams I.Source O.Sink E.Sink input.old input.new out.old out.new err.old err.new;
      status = result;
    }) }
{
    accepted_programs_are_sound();
    lowered_programs_keep_step();
    ended(alloc, words, shelf, input, out, err)
}

/// The same: what it does and how it ends, in one of the ways in which a call ends.
fn ended<S: Shelf, I: Source, O: Sink, E: Sink>(
    alloc: Global,
    words: &[String],
    shelf: &mut S,
    input: &mut I,
    out: &mut O,
    err: &mut E,
) -> Status
    ensures ends { HasEnded (record {
      words = map string_bytes words.now;
      shelf = shelf_of S.Shelf shelf.old shelf.new;
      streams = streams I.Source O.Sink E.Sink input.old input.new out.old out.new err.old err.new;
      status = result;
    }) }
    ensures idle { IsNoJob (map string_bytes words.now)
        → (S.faults shelf.new ≡ S.faults shelf.old) × (S.misses shelf.new ≡ S.misses shelf.old) }
    ensures crowded { AsksForTooMany (map string_bytes words.now)
        → (S.faults shelf.new ≡ S.faults shelf.old) × (S.misses shelf.new ≡ S.misses shelf.old) }
    ensures files { S.files shelf.new ≡ S.files shelf.old }
{
    accepted_programs_are_sound();
    match outcome_of(alloc, words, shelf) {
        Ok((asked, outcome)) => { status_of(answer(alloc, &asked, &outcome, input, out, err)) }
        Err(fault) => fault_status(fault, err),
    }
}

/// The status with which a call ends that has got this answer.
fn status_of(answered: Result<Status, AnswerFault>) -> Status
    ensures { result ≡ answer_ends answered }
{
    match answered {
        Ok(status) => status,
        Err(AnswerFault::Write) => Status::WriteFault,
        Err(AnswerFault::Memory) => Status::Memory,
    }
}

/// Says on `err` that the shelf failed, if it did, and ends.
fn fault_status<E: Sink>(fault: CheckFault, err: &mut E) -> Status
    ensures { FaultEnds fault result (sink_of E.Sink err.old err.new) }
{
    match fault {
        CheckFault::Read => match put_all(err, READ_FAULT_LINE) {
            Ok(()) => Status::ReadFault,
            Err(WriteFault) => Status::WriteFault,
        },
        CheckFault::Memory => Status::Memory,
    }
}

/// What the words and the files come to, with what the words say of their program: first the words are
/// read, and then the program of the files is checked.
fn outcome_of<S: Shelf>(
    alloc: Global,
    words: &[String],
    shelf: &mut S,
) -> Result<(Asked, Outcome), CheckFault>
    ensures arises { IfOk result (λ found. (files : Files) × AreTold (S.files shelf.old) files
        × Arises (map string_bytes words.now) files (map string_bytes found.0.files.items) found.1) }
    ensures asked { IfOk result (λ found. (task : Task) → IsJob (map string_bytes words.now) task
        → (found.0.entry ≡ task.entry) × (found.0.steps ≡ task.steps) × (found.0.life ≡ task.life)) }
    ensures faults { Counts (is_read_fault result) (S.faults shelf.old) (S.faults shelf.new) }
    ensures misses { IfOk result (λ found. Counts (is_missing found.1) (S.misses shelf.old)
        (S.misses shelf.new)) }
    ensures stops { IsTrue (is_read_fault result)
        → FailsBehind (map string_bytes words.now) (S.files shelf.old) }
    ensures idle { IsNoJob (map string_bytes words.now)
        → (S.faults shelf.new ≡ S.faults shelf.old) × (S.misses shelf.new ≡ S.misses shelf.old) }
    ensures crowded { AsksForTooMany (map string_bytes words.now)
        → (S.faults shelf.new ≡ S.faults shelf.old) × (S.misses shelf.new ≡ S.misses shelf.old) }
    ensures files { S.files shelf.new ≡ S.files shelf.old }
{
    let job = match read_words(alloc, words) {
        Ok(job) => job,
        Err(WordsFault::NoJob) => return Ok((nothing_asked(alloc), Outcome::NoJob)),
        Err(WordsFault::Memory) => return Err(CheckFault::Memory),
    };
    let aim = asked_of(&job);
    let names = job.files;
    let entry = job.entry;
    let steps = job.steps;
    let life = job.life;
    let outcome = check(alloc, aim, shelf, names.as_slice())?;
    let asked = Asked {
        files: names,
        entry,
        steps,
        life,
    };
    Ok((asked, outcome))
}

/// What words say that are no job.
fn nothing_asked(alloc: Global) -> Asked {
    Asked {
        files: Vec::new(alloc),
        entry: None,
        steps: 0,
        life: false,
    }
}
