//! Graphs whose edges are turned.

ghost use Rattle.std.specs.Prelude.{IfOk, OnOk};
ghost use Rattle.au_caps_text.specs.Turning.{AreAdded, IsTurned};

use au_base::Memory;
use au_graphs::Graph;
use std::alloc::Global;

/// Adds edges from some nodes to one.
fn add_from(made: &mut Graph, nodes: &[usize], to: usize) -> Result<(), Memory>
    ensures { OnOk result (AreAdded nodes.now to made.old made.new) }
{
    for one in nodes {
        made.add_edge(*one, to)?;
    }
    Ok(())
}

/// The graph with each edge turned. One to a number that no node has is left out.
pub(crate) fn turned(alloc: Global, graph: &Graph) -> Result<Graph, Memory>
    ensures { IfOk result (λ made. IsTurned graph.now made) }
{
    let mut made = Graph::new(alloc, graph.node_count())?;
    for node in 0..graph.node_count() {
        add_from(&mut made, graph.successors(node), node)?;
    }
    Ok(made)
}
