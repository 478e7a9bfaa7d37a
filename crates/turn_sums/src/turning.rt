ghost use Rattle.std.specs.Prelude.{◌≡◌, ◌<◌, length, IfOk};
ghost use Rattle.bt_base.specs.Graph.{is_edge};
ghost use Rattle.turn_sums.specs.Search.{steps_of, all_nodes, AreBalanced};
ghost use Rattle.turn_sums.specs.Step.{IsStepOrNone};

use crate::TurnStep;
use crate::labels::{BASE, least_sum};
use bt_base::{Graph, Want};
use cyclic_parts::order_of;
use std::alloc::Global;

/// The step by which all turns of a loop raise a cell, or all lower it, if there is one.
///
/// The graph is that of the loop's body: its nodes are those of the body, and `head` is the number of the head.
/// `ups` has what each node adds to the cell, and `downs` what it takes. Walks that come back to a node without
/// passing the head add as much as they take. Nodes are gone through in the order in which a depth-first search leaves them,
/// reversed: in a loop with one head, the work is linear in the edges.
pub fn turn_step(
    alloc: Global,
    graph: &Graph,
    head: u32,
    ups: &[u32],
    downs: &[u32],
) -> Result<Option<TurnStep>, Want>
    requires head { head < length graph.now }
    requires ups { length ups.now ≡ length graph.now }
    requires downs { length downs.now ≡ length graph.now }
    requires balanced { AreBalanced (is_edge graph.now) head (steps_of ups.now downs.now) }
    ensures { IfOk result (λ step. IsStepOrNone (is_edge graph.now) all_nodes head (steps_of ups.now downs.now) step) }
{
    let order = order_of(alloc, graph)?;
    let rising = least_sum(alloc, graph, head, ups, downs, &order)?;
    if let Some(sum) = rising {
        if sum > BASE {
            return Ok(Some(TurnStep::Rises(sum - BASE)));
        }
    }
    let falling = least_sum(alloc, graph, head, downs, ups, &order)?;
    if let Some(sum) = falling {
        if sum > BASE {
            return Ok(Some(TurnStep::Falls(sum - BASE)));
        }
    }
    Ok(None)
}
