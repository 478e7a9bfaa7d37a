//! Graphs and costs of small rows.

use bt_base::{Graph, Want};
use path_bound::Costs;
use std::alloc::Global;
use std::process::Abort;

/// A graph of some edges.
pub(crate) fn graph_of(
    rt: &impl Abort,
    alloc: Global,
    count: u32,
    edges: &[(u32, u32)],
) -> Result<Graph, Want> {
    let mut graph = Graph::new(alloc, count)?;
    for (from, to) in edges {
        let within = *from < graph.count() && *to < graph.count();
        assert!(rt; within);
        graph.add(*from, *to)?;
    }
    Ok(graph)
}

/// What walks cost at their start, at each node and along some edges.
pub(crate) fn costs_of(
    alloc: Global,
    start: u64,
    node: &[u64],
    extra: &[(u32, u32, u64)],
) -> Result<Costs, Want> {
    let node = Vec::from_slice(alloc, node)?;
    let extra = Vec::from_slice(alloc, extra)?;
    Ok(Costs { start, node, extra })
}
