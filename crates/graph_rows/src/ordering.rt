ghost use Rattle.std.specs.Prelude.{◌<◌, length, IsTrue};
ghost use Rattle.bt_base.specs.Graph.{is_edge};
ghost use Rattle.graph_rows.specs.Leading.{LeadsOn, LeadOn};

use bt_base::Graph;

/// Whether each edge from a node leads back to the first or on to one behind it.
fn leads_on(graph: &Graph, node: u32) -> bool
    requires { node < length graph.now }
    ensures { IsTrue result → LeadsOn (is_edge graph.now) node }
{
    for next in graph.next(node) {
        if *next != 0 && *next <= node {
            return false;
        }
    }
    true
}

/// Whether each edge does: then each walk that comes back to its first node passes the graph's first.
pub(crate) fn all_lead_on(graph: &Graph) -> bool
    ensures { IsTrue result → LeadOn (is_edge graph.now) }
{
    let count = graph.count();
    for node in 0..count {
        if !leads_on(graph, node) {
            return false;
        }
    }
    true
}
