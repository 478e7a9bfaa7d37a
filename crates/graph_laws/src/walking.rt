ghost use Rattle.std.specs.Prelude.{◌≡◌, ◌<◌, ◌↔◌, IsTrue, length};
ghost use Rattle.bt_base.specs.Graph.{is_edge};
ghost use Rattle.graph_laws.specs.Walk.{IsWalk};

use bt_base::Graph;

/// Whether an edge leads from a node of a graph to another. The work is logarithmic in the node's successors.
pub fn has_edge(graph: &Graph, from: u32, to: u32) -> bool
    requires { from < length graph.now }
    ensures edge { result ≡ is_edge graph.now from to }
    ensures within { IsTrue result → to < length graph.now }
{
    graph.next(from).binary_search(&to).is_ok()
}

/// Whether a list of nodes is a walk from a node of a graph: an edge leads to each from the one before it.
pub fn is_walk(graph: &Graph, first: u32, rest: &[u32]) -> bool
    requires { first < length graph.now }
    ensures { IsTrue result ↔ IsWalk (is_edge graph.now) first rest.now }
{
    let mut last = first;
    for next in rest {
        if !has_edge(graph, last, *next) {
            return false;
        }
        last = *next;
    }
    true
}
