//! The first node of a graph that lies on a cycle.

ghost use Rattle.std.specs.Prelude.{◌≡◌, ◌↔◌, ℕ, IfOk, None, Some};
ghost use Rattle.au_graphs.specs.Cycles.{HasNoCycle, IsFirstOnCycle};

use crate::graphs::Graph;
use crate::peeling::peel;
use crate::searching::is_on_cycle;
use au_base::Memory;
use std::alloc::Global;

/// The first node that lies on a cycle, that is, which leads to itself along one edge or more; `None` exactly
/// where no node does.
///
/// Where there is no cycle it takes time for each node and each edge once. Where there is one, each node that
/// leads into a cycle, up to the one that is answered, may take time for each edge again.
///
/// # Errors
///
/// `Memory` when memory runs out.
pub fn first_on_cycle(alloc: Global, graph: &Graph) -> Result<Option<usize>, Memory>
    ensures found { IfOk result (λ first. (k : ℕ) → (first ≡ Some k) ↔ IsFirstOnCycle graph.now k) }
    ensures none { IfOk result (λ first. (first ≡ None) ↔ HasNoCycle graph.now) }
{
    let done = peel(alloc, graph)?;
    for node in 0..graph.node_count() {
        if is_on_cycle(alloc, graph, &done, node)? {
            return Ok(Some(node));
        }
    }
    Ok(None)
}
