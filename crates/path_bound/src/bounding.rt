ghost use Rattle.std.specs.Prelude.{◌≡◌, ◌<◌, ℕ, length, vec_len, MatchResult};
ghost use Rattle.bt_base.specs.Graph.{is_edge};
ghost use Rattle.graph_laws.specs.Nest.{IsReached};
ghost use Rattle.loop_nest.specs.LoopNest.{IsLoopNest};
ghost use Rattle.path_bound.specs.LongWalk.{IsLongest, IsRefusal};
ghost use Rattle.path_bound.specs.Places.{AreBounds};

use crate::answering::{Best, answered};
use crate::long_walk::LongWalk;
use crate::refusal::PathRefusal;
use crate::surveying::{Survey, surveyed};
use crate::weights::Costs;
use bt_base::Graph;
use loop_nest::LoopNest;
use std::alloc::Global;

/// The greatest cost of the walks from the entry of a graph, complete or not, that keep a bound on the passes of each
/// loop's head, with what each walk costs at its start; and a walk that costs so much.
///
/// Each node is reached from the entry, and `nest` is the nest of the graph. `bounds` has a bound of at least 1 for each
/// loop, in their order: so often the head is passed at most from one entry into the loop's body to the next, the entering
/// pass counted. Costs are in cycles. The work is linear in the sum of the bodies and their edges.
pub fn longest(
    alloc: Global,
    graph: &Graph,
    nest: &LoopNest,
    entry: u32,
    bounds: &[u64],
    costs: &Costs,
) -> Result<LongWalk, PathRefusal>
    requires entry { entry < length graph.now }
    requires reached { (n : ℕ) → n < length graph.now → IsReached (is_edge graph.now) entry n }
    requires nest { IsLoopNest (is_edge graph.now) entry nest.now }
    requires bounds { AreBounds nest.now bounds.now }
    requires costs { vec_len costs.now.node ≡ length graph.now }
    ensures { MatchResult result (IsLongest (is_edge graph.now) entry nest.now bounds.now costs.now)
        (IsRefusal (is_edge graph.now) entry nest.now bounds.now costs.now) }
{
    let _count = graph.count();
    let loops = nest.loops();
    let survey = surveyed(alloc, graph, loops, bounds, costs)?;
    let Survey {
        places,
        order,
        steps,
        mut ranking,
        laps,
        mut labels,
        turns,
    } = survey;
    match answered(
        alloc,
        graph,
        loops,
        &places,
        entry,
        costs.start,
        &costs.node,
        &steps,
        &order,
        &mut ranking,
        &laps,
        &mut labels,
    ) {
        Ok(best) => {
            let Best { cost, walk } = best;
            Ok(LongWalk { cost, walk, turns })
        }
        Err(why) => Err(why),
    }
}
