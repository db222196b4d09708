//! From an accepted program to its code.

ghost use Rattle.std.specs.Prelude.{◌≡◌, List, false};
ghost use Rattle.au_lowering.specs.ClosedPrograms.Answers.{ClosesWithin};
ghost use Rattle.au_lowering.specs.Programs.{ClosedProgram};
ghost use Rattle.au_lowering.specs.Closed.{is_too_long};
ghost use Rattle.au_typing.specs.Trees.{NotedParts};
ghost use Rattle.au_modules.specs.Slots as slots;
ghost use Rattle.au_lowering.specs.Faults.{IsDerived};
ghost use Rattle.au_running.specs.Coded.{HasCode, IsProgramCode, TellsNoLimit};

use crate::laws::{lowered_programs_run, lowered_programs_tell};
use au_base::{Entry, Limit};
use au_low::Code;
use au_lowering::{CloseFault, LowerFault, NotedProgram, close, lower};
use std::alloc::Global;

/// Why there is no code to run.
#[derive(Clone, Copy)]
pub enum Uncoded {
    /// There is no such entry, or it hasn't the form of one.
    NoEntry,
    /// An instance, the instances or the code of the program pass a limit.
    Limit(Limit),
    /// Memory ran out.
    Memory,
}

/// The code of an accepted program from its entry.
///
/// # Errors
///
/// `NoEntry` exactly where there is no such entry, or it hasn't the form of one; `Limit` where an instance
/// passes a limit, there are too many, or the code is too long; `Memory` when memory runs out.
pub fn closed_code(alloc: Global, program: &NotedProgram, entry: &Entry) -> Result<Code, Uncoded>
    ensures is { (noted : List NotedParts) × IsDerived (slots.modules program.now) noted
        × HasCode (slots.modules program.now) noted entry.now.module entry.now.function result }
    ensures exact { (noted : List NotedParts) (c : ClosedProgram)
        → IsDerived (slots.modules program.now) noted
        → ClosesWithin (slots.modules program.now) noted entry.now.module entry.now.function c
        → is_too_long c ≡ false → TellsNoLimit result }
{
    let whole = program.program();
    let instances = &program.classes().instances;
    let modules = program.modules();
    let owner = &entry.module;
    let name = &entry.function;
    match close(alloc, whole, instances, modules, owner, name) {
        Err(CloseFault::NoEntry) => Err(Uncoded::NoEntry),
        Err(CloseFault::BadEntry(_)) => Err(Uncoded::NoEntry),
        Err(CloseFault::Limit(limit)) => Err(Uncoded::Limit(limit)),
        Err(CloseFault::Memory) => Err(Uncoded::Memory),
        Ok(closed) => match lower(alloc, &closed) {
            Err(LowerFault::Limit(limit)) => Err(Uncoded::Limit(limit)),
            Err(LowerFault::Memory) => Err(Uncoded::Memory),
            Ok(code) => Ok(code),
        },
    }
}

/// The code of an accepted program from its entry. It is that which a run of the program runs.
///
/// # Errors
///
/// `NoEntry` exactly where there is no such entry, or it hasn't the form of one; `Limit` exactly where an
/// instance passes a limit, there are too many, or the code is too long; `Memory` when memory runs out.
pub fn program_code(alloc: Global, program: &NotedProgram, entry: &Entry) -> Result<Code, Uncoded>
    ensures is { (noted : List NotedParts) × IsDerived (slots.modules program.now) noted
        × IsProgramCode (slots.modules program.now) noted entry.now.module entry.now.function result }
    ensures exact { (noted : List NotedParts) (c : ClosedProgram)
        → IsDerived (slots.modules program.now) noted
        → ClosesWithin (slots.modules program.now) noted entry.now.module entry.now.function c
        → is_too_long c ≡ false → TellsNoLimit result }
{
    lowered_programs_run();
    lowered_programs_tell();
    closed_code(alloc, program, entry)
}
