//! Edges, and walks along them.

use crate::graphs::graph_of;
use bt_base::Graph;
use graph_laws::{has_edge, is_walk};
use std::test::Fail;

/// The edges of a graph of four nodes.
const EDGES: [(u32, u32); 5] = [(0, 1), (1, 2), (2, 1), (2, 0), (0, 3)];

/// First nodes, the nodes behind them, and whether each edge of this walk is there.
const WALKS: [(u32, &[u32], bool); 6] = [
    (0, &[], true),
    (0, &[1, 2, 1, 2, 0, 3], true),
    (0, &[2], false),
    (1, &[2, 2], false),
    (3, &[0], false),
    (2, &[9], false),
];

/// Two nodes, and whether an edge leads from the one to the other.
const ASKED: [(u32, u32, bool); 4] = [(2, 0, true), (2, 2, false), (0, 3, true), (3, 4, false)];

/// Whether it is so of a walk from a node of the graph that each edge is there.
fn is_so(graph: &Graph, first: u32, rest: &[u32], want: bool) -> bool {
    first < graph.count() && is_walk(graph, first, rest) == want
}

/// Whether it is so of a node of the graph that it leads to another.
fn leads(graph: &Graph, from: u32, to: u32, want: bool) -> bool {
    from < graph.count() && has_edge(graph, from, to) == want
}

#[test]
fn edges_of_walks(rt: HostRuntime) -> Result<(), Fail> {
    let graph = graph_of(&rt, rt.alloc(), 4, &EDGES)?;
    for (first, rest, want) in &WALKS {
        assert!(rt; is_so(&graph, *first, rest, *want), "{rest:?} from {first}");
    }
    for (from, to, want) in &ASKED {
        assert!(rt; leads(&graph, *from, *to, *want), "{from} to {to}");
    }
    assert!(rt; graph.count() == 4);
    Ok(())
}
