//! Peeling a graph: a node is taken off once all its successors are, so what is left leads to a cycle.

ghost use Rattle.std.specs.Prelude.{◌≤◌, IfOk, OnOk, take};
ghost use Rattle.std.specs.List.{All};
ghost use Rattle.au_graphs.specs.Marks.{IsMarked, IsPeeled};
ghost use Rattle.au_graphs.specs.Peeling.{IsSizedAs, IsVisit, left_to_do};

use crate::graphs::Graph;
use crate::marks::{is_marked, no_marks};
use au_base::Memory;
use std::alloc::Global;

/// A node of the path that is walked.
#[derive(Clone, Copy)]
struct Visit {
    node: usize,
    /// How many of its successors are known to be done.
    passed: usize,
}

/// How many of these nodes are done up to the first that isn't, if so many of them are known to be.
fn passed_on(nodes: &[usize], done: &[bool], passed: usize) -> usize
    requires { All (IsMarked done.now) (take passed nodes.now) }
    ensures { All (IsMarked done.now) (take result nodes.now) }
{
    for at in passed..nodes.len() {
        if !is_marked(done, nodes[at]) {
            return at;
        }
    }
    nodes.len()
}

/// Goes on with a visit: to the first successor that isn't done, if that one is new; the node is done where
/// all its successors are.
fn go_on(
    graph: &Graph,
    visit: Visit,
    seen: &mut Vec<bool>,
    done: &mut Vec<bool>,
    path: &mut Vec<Visit>,
) -> Result<(), Memory>
    requires sized { IsSizedAs graph.now seen.old.items done.old.items }
    requires peeled { IsPeeled graph.now done.old.items }
    requires visit { IsVisit graph.now done.old.items visit }
    requires path { All (IsVisit graph.now done.old.items) path.old.items }
    ensures sized { OnOk result (IsSizedAs graph.now seen.new.items done.new.items) }
    ensures peeled { OnOk result (IsPeeled graph.now done.new.items) }
    ensures path { OnOk result (All (IsVisit graph.now done.new.items) path.new.items) }
    ensures less { OnOk result
        (left_to_do seen.new.items path.new.items ≤ left_to_do seen.old.items path.old.items) }
{
    let nodes = graph.successors(visit.node);
    let passed = passed_on(nodes, done, visit.passed);
    if passed >= nodes.len() {
        done[visit.node] = true;
        return Ok(());
    }
    let next = nodes[passed];
    if is_marked(seen, next) {
        return Ok(());
    }
    seen[next] = true;
    let node = visit.node;
    path.push(Visit { node, passed })?;
    path.push(Visit {
        node: next,
        passed: 0,
    })?;
    Ok(())
}

/// Peels what a node leads to, unless it was seen.
fn peel_from(
    alloc: Global,
    graph: &Graph,
    start: usize,
    seen: &mut Vec<bool>,
    done: &mut Vec<bool>,
) -> Result<(), Memory>
    requires sized { IsSizedAs graph.now seen.old.items done.old.items }
    requires peeled { IsPeeled graph.now done.old.items }
    ensures sized { OnOk result (IsSizedAs graph.now seen.new.items done.new.items) }
    ensures peeled { OnOk result (IsPeeled graph.now done.new.items) }
{
    if is_marked(seen, start) {
        return Ok(());
    }
    seen[start] = true;
    let first = Visit {
        node: start,
        passed: 0,
    };
    let mut path = vec![in alloc; first]?;
    while let Some(visit) = path.pop() {
        go_on(graph, visit, seen, done, &mut path)?;
    }
    Ok(())
}

/// The nodes that lead to no cycle. It takes time for each node and each edge once.
pub fn peel(alloc: Global, graph: &Graph) -> Result<Vec<bool>, Memory>
    ensures { IfOk result (λ done. IsPeeled graph.now done.items) }
{
    let mut seen = no_marks(alloc, graph.node_count())?;
    let mut done = no_marks(alloc, graph.node_count())?;
    for start in 0..graph.node_count() {
        peel_from(alloc, graph, start, &mut seen, &mut done)?;
    }
    Ok(done)
}
