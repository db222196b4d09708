//! Labels that spread along the edges of a graph.

ghost use Rattle.std.specs.Prelude.{◌<◌, ◌↔◌, ℕ, IfOk, OnOk, length};
ghost use Rattle.au_caps_text.specs.Spreading.{AreSpread};
ghost use Rattle.au_caps_text.specs.Putting.{IsPut};
ghost use Rattle.au_caps_text.specs.Turning.{IsFrom};
ghost use Rattle.au_graphs.specs.Cycles.{Names, successors};
ghost use Rattle.au_graphs.specs.Marks.{IsMarked};

use crate::searching::{is_marked, marked_from};
use crate::turning::turned;
use au_base::Memory;
use au_graphs::Graph;
use std::alloc::Global;

/// Puts a label at each node that is marked.
fn put_label(made: &mut Graph, marks: &[bool], label: usize) -> Result<(), Memory>
    ensures { OnOk result (IsPut (IsMarked marks.now) label made.old made.new) }
{
    for node in 0..made.node_count() {
        if is_marked(marks, node) {
            made.add_edge(node, label)?;
        }
    }
    Ok(())
}

/// Of each node of a graph the labels of the nodes from which it is reached.
fn spread_from(alloc: Global, back: &Graph, labels: &Graph) -> Result<Graph, Memory>
    ensures { IfOk result (λ made. (a l : ℕ) → a < length back.now
        → Names made a l ↔ IsFrom back.now (successors labels.now l) a) }
{
    let mut made = Graph::new(alloc, back.node_count())?;
    for label in 0..labels.node_count() {
        let marks = marked_from(alloc, back, labels.successors(label))?;
        put_label(&mut made, marks.as_slice(), label)?;
    }
    Ok(made)
}

/// Of each node of a graph the labels of the nodes that it leads to, its own among them. Of each label the
/// nodes are given that have it. The labels of a node are in order, each once.
///
/// It takes time for each node and each edge once for each label.
///
/// # Errors
///
/// Only for want of memory.
pub fn spread(alloc: Global, graph: &Graph, labels: &Graph) -> Result<Graph, Memory>
    ensures { IfOk result (λ made. AreSpread graph.now labels.now made) }
{
    let back = turned(alloc, graph)?;
    let made = spread_from(alloc, &back, labels)?;
    Ok(made)
}
