//! The graph of declared types.

ghost use Rattle.std.specs.Prelude.{◌≡◌, ◌<◌, ◌++◌, IfOk, OnOk, length, option_to_list, slice_set};
ghost use Rattle.std.specs.List.{filter_map};
ghost use Rattle.au_graphs.specs.Cycles.{successors};
ghost use Rattle.au_formed.specs.Graphs.{graph_by, index_at};

use crate::declarers::Declarers;
use au_base::Memory;
use au_formed::Naming;
use au_graphs::Graph;
use au_types::DeclAt;
use std::alloc::Global;

/// Adds an edge to the first row that declares a type, if there is one.
fn add_edge(graph: &mut Graph, table: &Declarers, from: usize, name: DeclAt) -> Result<(), Memory>
    requires { from < length graph.old }
    ensures { OnOk result
        (graph.new ≡ slice_set graph.old from
        (successors graph.old from ++ option_to_list (index_at table.now name))) }
{
    match table.get(name) {
        None => Ok(()),
        Some(to) => graph.add_edge(from, to),
    }
}

/// Adds edges to the first declared types that declare these types.
fn add_edges(
    graph: &mut Graph,
    table: &Declarers,
    from: usize,
    names: &[DeclAt],
) -> Result<(), Memory>
    requires { from < length graph.old }
    ensures { OnOk result
        (graph.new ≡ slice_set graph.old from
        (successors graph.old from ++ filter_map (index_at table.now) names.now)) }
{
    for one in names {
        add_edge(graph, table, from, *one)?;
    }
    Ok(())
}

/// The graph of declared types, by the first row of each.
pub(crate) fn graph_of(
    alloc: Global,
    table: &Declarers,
    namings: &Vec<Naming>,
) -> Result<Graph, Memory>
    ensures { IfOk result (λ graph. graph ≡ graph_by (index_at table.now) namings.now.items) }
{
    let mut graph = Graph::new(alloc, namings.len())?;
    for (index, one) in namings.iter().enumerate() {
        add_edges(&mut graph, table, index, one.names.as_slice())?;
    }
    Ok(graph)
}
