//! Directed graphs.

ghost use Rattle.std.specs.Prelude.{◌≡◌, [], IfOk, OnOk, length, replicate};
ghost use Rattle.au_graphs.specs.Cycles.{successors, with_edge};

use au_base::Memory;
use std::alloc::Global;
use std::marker::Model;

/// A directed graph, whose nodes are the numbers from 0 on. Contracts see the list of its nodes, and of each
/// the list of its successors. An edge may lead to a number that no node has; it leads nowhere then.
#[derive(Drop)]
pub struct Graph {
    lists: Vec<Vec<usize>>,
}

impl Model for Graph {
    ghost use Rattle.std.specs.Prelude.{List, ℕ};
    ghost use Rattle.au_graphs.specs.Lists.{lists_in};

    ghost Value = { List (List ℕ) };

    ghost view = { λ g. lists_in g.lists.items };
}

impl Graph {
    /// A graph of this many nodes, without an edge.
    ///
    /// # Errors
    ///
    /// `Memory` when memory runs out.
    pub fn new(alloc: Global, nodes: usize) -> Result<Graph, Memory>
        ensures { IfOk result (λ graph. graph ≡ replicate nodes []) }
    {
        let mut lists = Vec::new(alloc);
        for _node in 0..nodes {
            lists.push(Vec::new(alloc))?;
        }
        Ok(Graph { lists })
    }

    /// Adds an edge. Where no node has the number that it would lead from, nothing is added.
    ///
    /// # Errors
    ///
    /// `Memory` when memory runs out.
    pub fn add_edge(&mut self, from: usize, to: usize) -> Result<(), Memory>
        ensures { OnOk result (self.new ≡ with_edge self.old from to) }
    {
        if from < self.lists.len() {
            self.lists[from].push(to)?;
        }
        Ok(())
    }

    /// How many nodes there are.
    pub fn node_count(&self) -> usize
        ensures { result ≡ length self.now }
    {
        self.lists.len()
    }

    /// The nodes that the edges of a node lead to, in the order in which they were added: none where no
    /// node has this number.
    pub fn successors(&self, node: usize) -> &[usize]
        ensures { result.now ≡ successors self.now node }
    {
        match self.lists.get(node) {
            Some(list) => list.as_slice(),
            None => &[],
        }
    }
}
