//! What is to be done for each variable.

ghost use Rattle.std.specs.Prelude.{◌≡◌, drop, reverse, IfOk};
ghost use Rattle.au_linear.specs.Telling.{asked};
ghost use Rattle.au_linear.specs.Allotting.{asked_task, Allots, Allotted};

use au_base::Memory;
use au_clearing::{Life, clears};
use au_lives::lives::Sort;
use std::alloc::Global;

/// What is to be done for a variable.
#[derive(Clone, Copy)]
pub enum Task {
    /// Nothing: its life is good.
    Cleared,
    /// Its scope is to be walked for it alone. This is what its type asks for.
    Judge(Sort),
}

/// The sort of this number.
fn sort_at(sorts: &[Sort], from: usize) -> Sort
    ensures { result ≡ asked (drop from sorts.now) }
{
    if from < sorts.len() {
        sorts[from]
    } else {
        Sort::Linear
    }
}

/// The number behind, as far as there are sorts.
fn next_sort(sorts: &[Sort], from: usize) -> usize
    ensures { drop result sorts.now ≡ drop 1 (drop from sorts.now) }
{
    if from < sorts.len() { from + 1 } else { from }
}

/// The task of this number.
pub(crate) fn task_at(tasks: &[Task], from: usize) -> Task
    ensures { result ≡ asked_task (drop from tasks.now) }
{
    if from < tasks.len() {
        tasks[from]
    } else {
        Task::Judge(Sort::Linear)
    }
}

/// The number behind, as far as there are tasks.
pub(crate) fn next_task(tasks: &[Task], from: usize) -> usize
    ensures { drop result tasks.now ≡ drop 1 (drop from tasks.now) }
{
    if from < tasks.len() { from + 1 } else { from }
}

/// What is to be done for a variable of which this is known, and whose type asks for this.
fn task_of(sort: Sort, life: Life) -> Task
    ensures { Allots life sort result }
{
    if clears(sort, life) {
        Task::Cleared
    } else {
        Task::Judge(sort)
    }
}

/// What is to be done for the variables, of which this is known from the last to the first. The sorts are in
/// text order.
///
/// # Errors
///
/// `Memory` when memory runs out.
pub(crate) fn tasks_of(alloc: Global, found: Vec<Life>, sorts: &[Sort]) -> Result<Vec<Task>, Memory>
    ensures { IfOk result (λ tasks. Allotted (reverse found.items) sorts.now tasks.items) }
{
    let mut left = found;
    let mut tasks = Vec::new(alloc);
    let mut next = 0;
    while let Some(life) = left.pop() {
        tasks.push(task_of(sort_at(sorts, next), life))?;
        next = next_sort(sorts, next);
    }
    Ok(tasks)
}
