//! Small graphs, and what is found in them.

use au_base::Memory;
use au_graphs::{Graph, first_on_cycle};
use std::alloc::Global;
use std::test::Fail;

/// What is found in the graph of this many nodes and of these edges.
fn found(alloc: Global, nodes: usize, edges: &[(usize, usize)]) -> Result<Option<usize>, Memory> {
    let mut graph = Graph::new(alloc, nodes)?;
    for (from, to) in edges {
        graph.add_edge(*from, *to)?;
    }
    first_on_cycle(alloc, &graph)
}

/// Only a node that leads back to itself is answered, and of these the lowest.
#[test]
fn the_first_on_a_cycle_is_found(rt: HostRuntime) -> Result<(), Fail> {
    let alloc = rt.alloc();
    assert_eq!(rt; found(alloc, 0, &[])?, None, "no node");
    assert_eq!(rt;
        found(alloc, 4, &[(0, 1), (0, 2), (1, 2), (2, 3)])?,
        None,
        "a chain"
    );
    assert_eq!(rt;
        found(alloc, 2, &[(0, 1), (0, 2), (1, 7)])?,
        None,
        "edges to nothing"
    );
    assert_eq!(rt;
        found(alloc, 3, &[(0, 2), (2, 2)])?,
        Some(2),
        "a self edge of the last node"
    );
    assert_eq!(rt;
        found(alloc, 5, &[(2, 3), (3, 2), (4, 1), (1, 4)])?,
        Some(1),
        "two cycles"
    );
    assert_eq!(rt;
        found(alloc, 4, &[(0, 3), (3, 2), (2, 3)])?,
        Some(2),
        "what only leads to a cycle"
    );
    Ok(())
}
