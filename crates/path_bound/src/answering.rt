ghost use Rattle.std.specs.Prelude.{◌≡◌, ◌<◌, ℕ, true, false, length, take, slice_index, MatchResult};
ghost use Rattle.bt_base.specs.Graph.{has, is_edge};
ghost use Rattle.path_bound.specs.Answered.{IsBest, IsOverOr};
ghost use Rattle.path_bound.specs.Places.{loops_in, AreLoopsBelow, ArePlaces};
ghost use Rattle.path_bound.specs.Ranked.{rank_in};
ghost use Rattle.path_bound.specs.Ranking.{IsReady, HaveEnds};
ghost use Rattle.path_bound.specs.Turning.{NoLabels, HoldHeads, AreSized};

use crate::adding::{LIMIT, sum};
use crate::blaming::blamed;
use crate::choosing::Label;
use crate::following::follow;
use crate::passing::{clear, cost_at, pass};
use crate::ranking::Ranking;
use crate::refusal::PathRefusal;
use crate::stepping::Step;
use bt_base::Graph;
use loop_nest::Loop;
use std::alloc::Global;

/// The greatest cost from the entry on, with what each walk costs at its start, and a walk that costs so much.
#[derive(Debug, Drop)]
pub(crate) struct Best {
    pub cost: u64,
    pub walk: Vec<u32>,
}

/// The greatest cost by a pass over all nodes, where the turns of all loops are taken.
pub(crate) fn answered(
    alloc: Global,
    graph: &Graph,
    loops: &[Loop],
    places: &[Option<usize>],
    entry: u32,
    start: u64,
    node: &[u64],
    steps: &[Vec<Step>],
    order: &[u32],
    ranking: &mut Ranking,
    laps: &[u64],
    labels: &mut [Option<Label>],
) -> Result<Best, PathRefusal>
    requires loops { AreLoopsBelow (length places.now) loops.now }
    requires places { ArePlaces loops.now places.now }
    requires count { length places.now ≡ length graph.now }
    requires ends { HaveEnds (is_edge graph.now) (loops_in loops.now) }
    requires heads { HoldHeads loops.now }
    requires sizes { AreSized (length graph.now) node.now steps.now laps.now labels.old }
    requires ready { IsReady (length graph.now) ranking.old }
    requires none { NoLabels labels.old }
    requires entry { entry < length graph.now }
    requires nodes { (n : ℕ) → has order.now n ≡ true → n < length graph.now }
    requires once { (k : ℕ) → k < length order.now → has (take k order.now) (slice_index order.now k) ≡ false }
    requires placed { rank_in order.now entry < length order.now }
    ensures { MatchResult result (IsBest order.now node.now steps.now laps.now start entry)
        (IsOverOr (is_edge graph.now) loops.now (loops_in loops.now) order.now node.now steps.now laps.now start entry) }
{
    pass(order, None, node, steps, laps, labels);
    let inner = sum(laps[entry as usize], cost_at(labels, entry));
    let cost = sum(start, inner);
    if cost < LIMIT {
        let walk = follow(alloc, order, labels, entry)?;
        return Ok(Best { cost, walk });
    }
    clear(labels, order);
    let named = blamed(
        alloc, graph, loops, places, node, steps, entry, ranking, laps, labels,
    )?;
    Err(PathRefusal::TooLarge { node: named })
}
