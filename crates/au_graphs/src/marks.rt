//! Marks on the nodes of a graph.

ghost use Rattle.std.specs.Prelude.{◌≡◌, ◌<◌, IfOk, false, length, replicate};
ghost use Rattle.au_graphs.specs.Marks.{is_marked};

use au_base::Memory;
use std::alloc::Global;

/// A mark for each of this many nodes, none of which is set.
pub fn no_marks(alloc: Global, nodes: usize) -> Result<Vec<bool>, Memory>
    ensures { IfOk result (λ marks. marks.items ≡ replicate nodes false) }
{
    let marks = vec![in alloc; false; nodes]?;
    Ok(marks)
}

/// Whether a node is marked. A number that no node has counts as marked.
pub fn is_marked(marks: &[bool], node: usize) -> bool
    ensures marked { result ≡ is_marked marks.now node }
    ensures within { result ≡ false → node < length marks.now }
{
    if node < marks.len() {
        marks[node]
    } else {
        true
    }
}
