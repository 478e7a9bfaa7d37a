ghost use Rattle.std.specs.Prelude.{◌≡◌, ◌<◌, ℕ, length, IfOk, IsTrue};
ghost use Rattle.bt_base.specs.Graph.{is_edge, IsGraph};
ghost use Rattle.graph_laws.specs.Nest.{IsReached};
ghost use Rattle.graph_rows.specs.Reaching.{AreMarksOfReached};

use bt_base::{Graph, Want};
use std::alloc::Global;

/// Marks the nodes to which edges lead from one that is reached.
fn mark_next(graph: &Graph, node: u32, marks: &mut [bool])
    requires node { node < length graph.now }
    requires reached { IsReached (is_edge graph.now) 0 node }
    requires count { length marks.old ≡ length graph.now }
    requires marks { AreMarksOfReached graph.now marks.old }
    ensures count { length marks.new ≡ length graph.now }
    ensures marks { AreMarksOfReached graph.now marks.new }
{
    for next in graph.next(node) {
        marks[*next as usize] = true;
    }
}

/// Whether there is a first node, and an edge leads to each other from one before it: then all are reached from the first.
pub fn all_are_led_to(alloc: Global, graph: &Graph) -> Result<bool, Want>
    ensures reached { IfOk result (λ all. IsTrue all → (n : ℕ) → n < length graph.now → IsReached (is_edge graph.now) 0 n) }
    ensures some { IfOk result (λ all. IsTrue all → 0 < length graph.now) }
    ensures graph { IsGraph graph.now }
{
    let count = graph.count();
    if count == 0 {
        return Ok(false);
    }
    let mut marks = vec![in alloc; false; count as usize]?;
    mark_next(graph, 0, &mut marks);
    for node in 1..count {
        if !marks[node as usize] {
            return Ok(false);
        }
        mark_next(graph, node, &mut marks);
    }
    Ok(true)
}
