//! Where a run begins.

ghost use Rattle.std.specs.Prelude.{◌≡◌, IfOk};
ghost use Rattle.au_modules.specs.Slots.{modules};
ghost use Rattle.au_top.specs.Runs as runs;

use au_base::{Entry, Memory, Name};
use au_modules::Modules;
use au_outcomes::NotedProgram;
use std::alloc::Global;

/// The function with which a program begins where no entry is named, and the module where there is none.
const MAIN: &[u8] = b"main";

/// The entry of a run: the one that is named, or else `main` of the last module, which is the one of the last
/// body file.
///
/// # Errors
///
/// `Memory` when memory runs out.
pub fn entry_for(
    alloc: Global,
    named: &Option<Entry>,
    program: &NotedProgram,
) -> Result<Entry, Memory>
    ensures { IfOk result (λ entry. entry ≡ runs.entry_for named.now (modules program.now)) }
{
    match named {
        Some(entry) => copy_of(alloc, entry),
        None => main_of(alloc, program.program().modules()),
    }
}

/// The same entry.
fn copy_of(alloc: Global, entry: &Entry) -> Result<Entry, Memory>
    ensures { IfOk result (λ copy. copy ≡ entry.now) }
{
    let module = entry.module.copy(alloc)?;
    let function = entry.function.copy(alloc)?;
    Ok(Entry { module, function })
}

/// `main` of the last module.
fn main_of(alloc: Global, program: &Modules) -> Result<Entry, Memory>
    ensures { IfOk result (λ entry. entry ≡ runs.main_of (modules program.now)) }
{
    let module = last_name(alloc, program)?;
    let function = Name::copy_of(alloc, MAIN)?;
    Ok(Entry { module, function })
}

/// The name of the last module, or `main` where there is none.
fn last_name(alloc: Global, program: &Modules) -> Result<Name, Memory>
    ensures { IfOk result (λ name. name ≡ runs.last_name (modules program.now)) }
{
    let count = program.len();
    if count == 0 {
        return Name::copy_of(alloc, MAIN);
    }
    program.name(count - 1).copy(alloc)
}
