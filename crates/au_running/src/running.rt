//! From an accepted program to what a run of it does.

ghost use Rattle.std.specs.Prelude.{◌≡◌, ◌⊎◌, false, List, IfOk, OnErr};
ghost use Rattle.au_typing.specs.Trees.{NotedParts};
ghost use Rattle.au_modules.specs.Slots as slots;
ghost use Rattle.au_lowering.specs.Faults.{IsDerived};
ghost use Rattle.au_running.specs.Ran.{ProgramEnds, ProgramIsCut, IsIdle, IsSafeFrom, is_read_fault};
ghost use Rattle.au_running.specs.Ran.{is_write_fault};
ghost use Rattle.au_runs.specs.Calls.{Rose};

use crate::coding::{Uncoded, closed_code};
use crate::ends::run_code;
use crate::laws::{lowered_programs_run, lowered_programs_tell, stuck_runs_are_meant};
use crate::ran::{Ran, Report};
use au_base::{Entry, Memory, Sink, Source};
use au_lowering::NotedProgram;
use std::alloc::Global;

/// Runs a program that is safe to run from the entry which is named by its module and its own name, for at
/// most so many steps, on an input and a sink, and tells the lines of its events where these are asked for.
///
/// # Errors
///
/// `Memory` when memory runs out; a front of what the program writes is on the sink then.
pub fn run_program<I: Source, O: Sink>(
    alloc: Global,
    program: &NotedProgram,
    entry: &Entry,
    life: bool,
    steps: u64,
    input: &mut I,
    out: &mut O,
) -> Result<Report, Memory>
    requires { IsSafeFrom (slots.modules program.now) entry.now.module entry.now.function }
    ensures ran { IfOk result (λ report. (noted : List NotedParts)
        × IsDerived (slots.modules program.now) noted
        × ProgramEnds (slots.modules program.now) noted entry.now.module entry.now.function life report.ran
        report.events.items steps (I.left input.old) (I.left input.new) (O.written out.old)
        (O.written out.new)) }
    ensures read { IfOk result (λ report. Rose (is_read_fault report.ran) (I.faults input.old)
        (I.faults input.new)) }
    ensures written { IfOk result (λ report. Rose (is_write_fault report.ran) (O.faults out.old)
        (O.faults out.new)) }
    ensures broken { OnErr result (
        IsIdle (I.left input.old) (I.left input.new) (O.written out.old) (O.written out.new)
        ⊎ ((noted : List NotedParts) × IsDerived (slots.modules program.now) noted
        × ProgramIsCut (slots.modules program.now) noted entry.now.module entry.now.function steps
        (I.left input.old) (O.written out.old) (O.written out.new))) }
    ensures still { OnErr result (O.faults out.new ≡ O.faults out.old) }
    ensures quiet { OnErr result (life ≡ false → I.faults input.new ≡ I.faults input.old) }
{
    lowered_programs_run();
    lowered_programs_tell();
    stuck_runs_are_meant();
    match closed_code(alloc, program, entry) {
        Err(Uncoded::NoEntry) => Ok(Report {
            ran: Ran::NoEntry,
            events: Vec::new(alloc),
        }),
        Err(Uncoded::Limit(limit)) => Ok(Report {
            ran: Ran::Limit(limit),
            events: Vec::new(alloc),
        }),
        Err(Uncoded::Memory) => Err(Memory),
        Ok(code) => run_code(alloc, &code, life, steps, input, out),
    }
}
