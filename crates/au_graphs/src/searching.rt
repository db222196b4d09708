//! A search for what a node leads to.

ghost use Rattle.std.specs.Prelude.{◌≡◌, ◌↔◌, [], ◌∷◌, IfOk, IsTrue, OnOk};
ghost use Rattle.au_graphs.specs.Cycles.{IsOnCycle};
ghost use Rattle.au_graphs.specs.Marks.{Entered, IsPeeled};

use crate::graphs::Graph;
use crate::marks::is_marked;
use au_base::Memory;
use std::alloc::Global;

/// Marks a node and puts it on the work list, unless it's marked.
fn enter(node: usize, seen: &mut Vec<bool>, work: &mut Vec<usize>) -> Result<(), Memory>
    ensures { OnOk result
        (Entered (node ∷ []) seen.old.items work.old.items seen.new.items work.new.items) }
{
    if is_marked(seen, node) {
        return Ok(());
    }
    seen[node] = true;
    work.push(node)?;
    Ok(())
}

/// Marks nodes and puts them on the work list, except for those that are marked.
fn enter_all(nodes: &[usize], seen: &mut Vec<bool>, work: &mut Vec<usize>) -> Result<(), Memory>
    ensures { OnOk result
        (Entered nodes.now seen.old.items work.old.items seen.new.items work.new.items) }
{
    for node in nodes {
        enter(*node, seen, work)?;
    }
    Ok(())
}

/// Whether a node lies on a cycle. The nodes that are done lie on none, and lead to such nodes alone, so the
/// search passes them over; it takes time for the edges of the others.
pub fn is_on_cycle(
    alloc: Global,
    graph: &Graph,
    done: &Vec<bool>,
    node: usize,
) -> Result<bool, Memory>
    requires { IsPeeled graph.now done.now.items }
    ensures { IfOk result (λ found. IsTrue found ↔ IsOnCycle graph.now node) }
{
    if is_marked(done, node) {
        return Ok(false);
    }
    let mut seen = Vec::from_slice(alloc, done)?;
    let mut work = vec![in alloc; node]?;
    while let Some(next) = work.pop() {
        enter_all(graph.successors(next), &mut seen, &mut work)?;
    }
    Ok(is_marked(&seen, node))
}
