//! From the trees of files to what the program comes to.

ghost use Rattle.std.specs.Prelude.{◌≡◌, ◌≤◌, ◌++◌, List, Some, None, IfOk, IsTrue, false, map, length};
ghost use Rattle.std.specs.List.{list_all};
ghost use Rattle.au_explain.specs.Programs.{program_lives};
ghost use Rattle.au_modules.specs.Counts.{are_few, has_few};
ghost use Rattle.au_modules.specs.Programs.{entry};
ghost use Rattle.au_modules.specs.Slots as slots;
ghost use Rattle.au_outcomes.specs.Halts.{Says, is_read_halt};
ghost use Rattle.au_accepted.specs.Files.{most_files};
ghost use Rattle.au_outcomes.specs.Programs.{AcceptedCome, AreJudgedAs, ReportComes, bodies_outcome};
ghost use Rattle.au_accepted.specs.Programs.{program_modules, shipped_entries};
ghost use Rattle.au_outcomes.specs.Programs.{modules_outcome, program_outcome};
ghost use Rattle.au_accepted.specs.Trees.{ReadFile};
ghost use Rattle.au_outcomes.specs.declared.outcomes.Outcome.TheVariants as outcome;

use crate::halts::Halt;
use crate::outcomes::{Aim, Outcome};
use au_base::Memory;
use au_caps::caps_report;
use au_classes::declare;
use au_explain::{NotedProgram, lives_of, note_program};
use au_imports::{Resolved, resolve};
use au_modules::{Modules, gather};
use au_program_lives::check_linear;
use au_rules::declarations_hold;
use au_shipped::shipped;
use au_syntax::FileTree;
use std::alloc::Global;

/// Judges the files of a program, and then their modules. An accepted program comes with its notes.
///
/// # Errors
///
/// What the program comes to where it is refused or passes a limit, and else that memory ran out.
pub fn judge(alloc: Global, own: Vec<FileTree>) -> Result<NotedProgram, Halt>
    requires few { length own.items ≤ most_files }
    requires declared { IsTrue (list_all has_few (map entry own.items)) }
    ensures comes { Says result
        (λ noted. AreJudgedAs (shipped_entries ++ map entry own.items) (slots.modules noted))
        (λ arisen. program_outcome (shipped_entries ++ map entry own.items) ≡ Some arisen) }
    ensures is_read { is_read_halt result ≡ false }
{
    let files = with_shipped(alloc, own)?;
    let modules = gather(alloc, files)?;
    judge_modules(alloc, modules)
}

/// Judges the modules of a program: their names and promises, then their declarations, then what stands in
/// bodies.
fn judge_modules(alloc: Global, modules: Modules) -> Result<NotedProgram, Halt>
    ensures comes { Says result
        (λ noted. (modules_outcome (slots.modules modules) ≡ None)
        × (slots.modules noted ≡ slots.modules modules))
        (λ arisen. modules_outcome (slots.modules modules) ≡ Some arisen) }
    ensures is_read { is_read_halt result ≡ false }
{
    let program = resolve(alloc, modules)?;
    declarations_hold(alloc, &program)?;
    judge_bodies(alloc, program)
}

/// Judges what stands in the bodies of a program: its instances, then types, then the lives of variables.
fn judge_bodies(alloc: Global, resolved: Resolved) -> Result<NotedProgram, Halt>
    ensures comes { Says result
        (λ noted. (bodies_outcome (slots.modules resolved) ≡ None)
        × (slots.modules noted ≡ slots.modules resolved))
        (λ arisen. bodies_outcome (slots.modules resolved) ≡ Some arisen) }
    ensures is_read { is_read_halt result ≡ false }
{
    let classes = declare(alloc, &resolved)?;
    let noted = note_program(alloc, resolved, classes)?;
    check_linear(alloc, noted.program())?;
    Ok(noted)
}

/// The shipped files, and these behind them.
fn with_shipped(alloc: Global, own: Vec<FileTree>) -> Result<Vec<FileTree>, Memory>
    requires few { length own.items ≤ most_files }
    requires declared { IsTrue (list_all has_few (map entry own.items)) }
    ensures files { IfOk result (λ files. map entry files.items ≡ shipped_entries ++ map entry own.items) }
    ensures few { IfOk result (λ files. IsTrue (are_few (map entry files.items))) }
{
    let mut files = shipped(alloc)?;
    let mut left = own;
    files.append(&mut left)?;
    Ok(files)
}

/// What accepted files come to whose program is this: where no more is asked they are accepted, where they
/// are explained they come to the lives of their variables, where their capabilities are asked for they
/// come to the report on these, and where their program is to run or to be compiled that is what they come
/// to.
pub fn accepted_outcome(alloc: Global, aim: Aim, noted: NotedProgram) -> Result<Outcome, Halt>
    ensures comes { (reads : List ReadFile) → slots.modules noted ≡ program_modules reads
        → Says result (AcceptedCome aim reads) (AcceptedCome aim reads) }
    ensures is_read { is_read_halt result ≡ false }
{
    match aim {
        Aim::Check | Aim::Format => Ok(Outcome::Accepted),
        Aim::Explain => explained(alloc, &noted),
        Aim::Caps => reported(alloc, &noted),
        Aim::Run => Ok(Outcome::Runs(noted)),
        Aim::Compile => Ok(Outcome::Compiles(noted)),
    }
}

/// The lives of the variables of an accepted program.
fn explained(alloc: Global, noted: &NotedProgram) -> Result<Outcome, Halt>
    ensures comes { Says result
        (λ arisen. arisen ≡ outcome.Explained (program_lives (slots.modules noted.now)))
        (λ arisen. arisen ≡ outcome.Explained (program_lives (slots.modules noted.now))) }
    ensures is_read { is_read_halt result ≡ false }
{
    let lives = lives_of(alloc, noted)?;
    Ok(Outcome::Explained(lives))
}

/// What the functions of an accepted program can do with capabilities.
fn reported(alloc: Global, noted: &NotedProgram) -> Result<Outcome, Halt>
    ensures comes { Says result (ReportComes (slots.modules noted.now))
        (ReportComes (slots.modules noted.now)) }
    ensures is_read { is_read_halt result ≡ false }
{
    let report = caps_report(alloc, noted)?;
    Ok(Outcome::Reported(report))
}
