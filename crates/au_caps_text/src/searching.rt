//! A search for what some nodes of a graph lead to.

ghost use Rattle.std.specs.Prelude.{◌≡◌, ◌<◌, ◌↔◌, [], ◌∷◌, false, IfOk, OnOk, ℕ, length, replicate};
ghost use Rattle.au_caps_text.specs.Turning.{IsFrom};
ghost use Rattle.au_graphs.specs.Marks.{Entered, IsMarked, is_marked};

use au_base::Memory;
use au_graphs::Graph;
use std::alloc::Global;

/// A mark for each of this many nodes, none of which is set.
fn no_marks(alloc: Global, nodes: usize) -> Result<Vec<bool>, Memory>
    ensures { IfOk result (λ marks. marks.items ≡ replicate nodes false) }
{
    let marks = vec![in alloc; false; nodes]?;
    Ok(marks)
}

/// Whether a node is marked. A number that no node has counts as marked.
pub(crate) fn is_marked(marks: &[bool], node: usize) -> bool
    ensures marked { result ≡ is_marked marks.now node }
    ensures within { result ≡ false → node < length marks.now }
{
    if node < marks.len() {
        marks[node]
    } else {
        true
    }
}

/// Marks a node and puts it on the work list, unless it's marked.
fn enter(node: usize, seen: &mut Vec<bool>, work: &mut Vec<usize>) -> Result<(), Memory>
    ensures { OnOk result
        (Entered (node ∷ []) seen.old.items work.old.items seen.new.items work.new.items) }
{
    if is_marked(seen, node) {
        return Ok(());
    }
    seen[node] = true;
    work.push(node)?;
    Ok(())
}

/// Marks nodes and puts them on the work list, except for those that are marked.
fn enter_all(nodes: &[usize], seen: &mut Vec<bool>, work: &mut Vec<usize>) -> Result<(), Memory>
    ensures { OnOk result
        (Entered nodes.now seen.old.items work.old.items seen.new.items work.new.items) }
{
    for node in nodes {
        enter(*node, seen, work)?;
    }
    Ok(())
}

/// Marks on the nodes of a graph: those that are among the starts, or that one of these leads to. It takes
/// time for each node and each edge once.
pub(crate) fn marked_from(
    alloc: Global,
    graph: &Graph,
    starts: &[usize],
) -> Result<Vec<bool>, Memory>
    ensures { IfOk result (λ seen. (a : ℕ) → a < length graph.now
        → IsMarked seen.items a ↔ IsFrom graph.now starts.now a) }
{
    let mut seen = no_marks(alloc, graph.node_count())?;
    let mut work = Vec::new(alloc);
    enter_all(starts, &mut seen, &mut work)?;
    while let Some(next) = work.pop() {
        enter_all(graph.successors(next), &mut seen, &mut work)?;
    }
    Ok(seen)
}
