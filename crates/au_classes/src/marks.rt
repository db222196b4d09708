//! Which indices are among some.

ghost use Rattle.std.specs.Prelude.{◌≡◌, ◌<◌, ℕ, false, length, replicate, slice_index_or, IfOk};
ghost use Rattle.au_classes.specs.Indices.{MarkAmong, with_mark};

use au_base::Memory;
use std::alloc::Global;

/// Marks an index, if there is one and it has a mark.
fn mark(marks: &mut Vec<bool>, index: Option<usize>)
    ensures { marks.new.items ≡ with_mark marks.old.items index }
{
    if let Some(index) = index {
        if index < marks.len() {
            marks[index] = true;
        }
    }
}

/// A mark for each of so many indices, none of which is set.
fn no_marks(alloc: Global, count: usize) -> Result<Vec<bool>, Memory>
    ensures { IfOk result (λ marks. marks.items ≡ replicate count false) }
{
    let marks = vec![in alloc; false; count]?;
    Ok(marks)
}

/// A mark for each of so many indices, which is set where the index is among some.
///
/// # Errors
///
/// Only for want of memory.
pub(crate) fn marks_of(
    alloc: Global,
    count: usize,
    some: &Vec<Option<usize>>,
) -> Result<Vec<bool>, Memory>
    ensures { IfOk result (λ marks. MarkAmong some.now.items count marks.items) }
{
    let mut marks = no_marks(alloc, count)?;
    for one in some {
        mark(&mut marks, *one);
    }
    Ok(marks)
}

/// Whether an index is marked.
pub(crate) fn is_marked(marks: &Vec<bool>, index: usize) -> bool
    ensures { result ≡ slice_index_or marks.now.items index false }
{
    match marks.get(index) {
        None => false,
        Some(marked) => *marked,
    }
}
