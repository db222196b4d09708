//! What leads to what, by numbers.

ghost use Rattle.std.specs.Prelude.{◌≡◌, ◌+◌, ◌∷◌, [], IfOk, OnOk, length};
ghost use Rattle.au_caps.specs.Calls.{Callee};
ghost use Rattle.au_caps.specs.Keys as spec;
ghost use Rattle.au_caps.specs.Views.{Grows, keys_in};
ghost use Rattle.au_caps.specs.Webs.{IsGraphOf, IsNumber, Node, a_callee};

use au_base::Memory;
use au_graphs::Graph;
use indexmap::IndexSet;
use std::alloc::Global;

/// What leads to what, by numbers: those of bodies come first, and then those of what calls lead to.
#[derive(Drop)]
pub(crate) struct Web {
    /// How many bodies there are.
    pub count: usize,
    /// What calls lead to, by keys.
    pub keys: IndexSet<Vec<u32>>,
    /// From what calls to what is called.
    pub edges: Vec<(usize, usize)>,
    /// From the places of heads to what gives birth to them.
    pub births: Vec<(usize, usize)>,
}

/// The graph of so many nodes that has these edges. One from a number that no node has is left out.
fn graph_of(alloc: Global, nodes: usize, pairs: &[(usize, usize)]) -> Result<Graph, Memory>
    ensures { IfOk result (IsGraphOf nodes pairs.now) }
{
    let mut graph = Graph::new(alloc, nodes)?;
    for one in pairs {
        graph.add_edge(one.0, one.1)?;
    }
    Ok(graph)
}

impl Web {
    /// Nothing, where there are so many bodies.
    pub(crate) fn new(alloc: Global, count: usize) -> Web
        ensures count { result.count ≡ count }
        ensures keys { keys_in result ≡ [] }
        ensures edges { result.edges.items ≡ [] }
        ensures births { result.births.items ≡ [] }
    {
        Web {
            count,
            keys: IndexSet::new(alloc),
            edges: Vec::new(alloc),
            births: Vec::new(alloc),
        }
    }

    /// The number of a key, which is new if the key is.
    pub(crate) fn number(&mut self, key: Vec<u32>) -> Result<usize, Memory>
        ensures grows { OnOk result (Grows [] [] self.old self.new) }
        ensures number { IfOk result (λ n. (c : Callee) → key.items ≡ spec.key_of c
            → IsNumber self.new.count (keys_in self.new) (a_callee c) n) }
    {
        let stored = self.keys.insert_full(key)?;
        match self.count.checked_add(stored.0) {
            None => Err(Memory),
            Some(number) => Ok(number),
        }
    }

    /// Adds an edge.
    pub(crate) fn add(&mut self, from: usize, to: usize) -> Result<(), Memory>
        ensures { OnOk result ((a b : Node) → IsNumber self.old.count (keys_in self.old) a from
            → IsNumber self.old.count (keys_in self.old) b to → Grows ((a, b) ∷ []) [] self.old self.new) }
    {
        self.edges.push((from, to))?;
        Ok(())
    }

    /// Adds a birth of the head of a place.
    pub(crate) fn bear(&mut self, head: usize, to: usize) -> Result<(), Memory>
        ensures { OnOk result (Grows [] ((head, to) ∷ []) self.old self.new) }
    {
        self.births.push((head, to))?;
        Ok(())
    }

    /// The graph of what calls to what is called.
    pub(crate) fn graph(&self, alloc: Global) -> Result<Graph, Memory>
        ensures { IfOk result
            (IsGraphOf (self.now.count + length (keys_in self.now)) self.now.edges.items) }
    {
        match self.count.checked_add(self.keys.len()) {
            None => Err(Memory),
            Some(nodes) => graph_of(alloc, nodes, self.edges.as_slice()),
        }
    }

    /// The graph of so many heads to what gives birth to them.
    pub(crate) fn labels(&self, alloc: Global, heads: usize) -> Result<Graph, Memory>
        ensures { IfOk result (IsGraphOf heads self.now.births.items) }
    {
        graph_of(alloc, heads, self.births.as_slice())
    }
}
