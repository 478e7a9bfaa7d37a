ghost use Rattle.std.specs.Prelude.{◌≡◌, ◌<◌, ◌+◌, ℕ, true, Some, length, map, slice_get, slice_index, IfOk, OnOk};
ghost use Rattle.bt_base.specs.Graph.{has, is_edge};
ghost use Rattle.loop_nest.specs.declared.natural_loop.Loop.{Loop as NaturalLoop};
ghost use Rattle.path_bound.specs.Capped.{cap};
ghost use Rattle.path_bound.specs.Places.{loops_in, costs_in, AreLoopsBelow, ArePlaces, AreBounds};
ghost use Rattle.path_bound.specs.Ranking.{IsReady, HaveEnds};
ghost use Rattle.path_bound.specs.Steps.{AreStepsOf};
ghost use Rattle.path_bound.specs.Turned.{task_of, IsGround, AreTurnedUpTo};
ghost use Rattle.path_bound.specs.Turning.{NoLabels, IsTaken, HoldHeads, AreSized};

use crate::adding::product;
use crate::choosing::Label;
use crate::following::follow;
use crate::long_walk::Turn;
use crate::passing::{clear, cost_at, pass};
use crate::ranking::{Ranking, ranked};
use crate::stepping::Step;
use crate::weights::Costs;
use bt_base::{Graph, Want};
use loop_nest::Loop;
use std::alloc::Global;

/// A turn for each loop, without its walk.
pub(crate) fn empty_turns(alloc: Global, loops: &[Loop]) -> Result<Vec<Turn>, Want>
    ensures { IfOk result (λ turns. map (λ one. one.head) turns.items ≡ map (λ one. one.head) loops.now) }
{
    let mut turns = Vec::new(alloc);
    for one in loops {
        turns.push(Turn {
            head: one.head,
            cost: 0,
            walk: Vec::new(alloc),
        })?;
    }
    Ok(turns)
}

/// Finds the turn of a loop whose inner loops have theirs.
fn take_turn(
    alloc: Global,
    graph: &Graph,
    loops: &[Loop],
    places: &[Option<usize>],
    bounds: &[u64],
    node: &[u64],
    steps: &[Vec<Step>],
    place: usize,
    ranking: &mut Ranking,
    laps: &mut [u64],
    labels: &mut [Option<Label>],
    turns: &mut [Turn],
) -> Result<(), Want>
    requires loops { AreLoopsBelow (length places.now) loops.now }
    requires places { ArePlaces loops.now places.now }
    requires count { length places.now ≡ length graph.now }
    requires ends { HaveEnds (is_edge graph.now) (loops_in loops.now) }
    requires heads { HoldHeads loops.now }
    requires bounds { AreBounds loops.now bounds.now }
    requires sizes { AreSized (length graph.now) node.now steps.now laps.old labels.old }
    requires place { place < length loops.now }
    requires turns { length turns.old ≡ length loops.now }
    requires ready { IsReady (length graph.now) ranking.old }
    requires none { NoLabels labels.old }
    ensures ready { OnOk result (IsReady (length graph.now) ranking.new) }
    ensures none { OnOk result (NoLabels labels.new) }
    ensures taken { OnOk result ((one : NaturalLoop) → slice_get loops.now place ≡ Some one
        → IsTaken (is_edge graph.now) (loops_in loops.now) one (slice_index bounds.now place) place node.now steps.now laps.old laps.new turns.old turns.new) }
{
    let one = &loops[place];
    let order = ranked(alloc, graph, loops, places, ranking, &one.body)?;
    pass(&order, Some(one.head), node, steps, laps, labels);
    let walk = follow(alloc, &order, labels, one.head)?;
    let cost = cost_at(labels, one.head);
    clear(labels, &order);
    laps[one.head as usize] = product(bounds[place] - 1, cost);
    let turn = &mut turns[place];
    turn.cost = cost;
    turn.walk = walk;
    Ok(())
}

/// Finds the turn of the loop whose head a node is, if it is one.
fn take_head(
    alloc: Global,
    graph: &Graph,
    loops: &[Loop],
    places: &[Option<usize>],
    bounds: &[u64],
    costs: &Costs,
    steps: &[Vec<Step>],
    order: &[u32],
    at: u32,
    ranking: &mut Ranking,
    laps: &mut [u64],
    labels: &mut [Option<Label>],
    turns: &mut [Turn],
) -> Result<(), Want>
    requires loops { AreLoopsBelow (length places.now) loops.now }
    requires places { ArePlaces loops.now places.now }
    requires count { length places.now ≡ length graph.now }
    requires ends { HaveEnds (is_edge graph.now) (loops_in loops.now) }
    requires heads { HoldHeads loops.now }
    requires bounds { AreBounds loops.now bounds.now }
    requires sizes { AreSized (length graph.now) costs.now.node.items steps.now laps.old labels.old }
    requires steps { AreStepsOf graph.now (λ n m. cap ((costs_in costs.now).node n + (costs_in costs.now).edge n m)) steps.now }
    requires at { at < length graph.now }
    requires ground { IsGround (task_of graph.now loops.now bounds.now costs.now) order.now }
    requires turns { length turns.old ≡ length loops.now }
    requires ready { IsReady (length graph.now) ranking.old }
    requires none { NoLabels labels.old }
    ensures ready { OnOk result (IsReady (length graph.now) ranking.new) }
    ensures none { OnOk result (NoLabels labels.new) }
    ensures turns { OnOk result ((k : ℕ) → k < length order.now → slice_index order.now k ≡ at
        → AreTurnedUpTo (task_of graph.now loops.now bounds.now costs.now) loops.now order.now k laps.old turns.old
        → AreTurnedUpTo (task_of graph.now loops.now bounds.now costs.now) loops.now order.now (k + 1) laps.new turns.new) }
{
    match places[at as usize] {
        None => Ok(()),
        Some(place) => take_turn(
            alloc,
            graph,
            loops,
            places,
            bounds,
            &costs.node,
            steps,
            place,
            ranking,
            laps,
            labels,
            turns,
        ),
    }
}

/// Finds the turn of each loop, from the inside outward.
pub(crate) fn take_turns(
    alloc: Global,
    graph: &Graph,
    loops: &[Loop],
    places: &[Option<usize>],
    bounds: &[u64],
    costs: &Costs,
    steps: &[Vec<Step>],
    order: &[u32],
    ranking: &mut Ranking,
    laps: &mut [u64],
    labels: &mut [Option<Label>],
    turns: &mut [Turn],
) -> Result<(), Want>
    requires loops { AreLoopsBelow (length places.now) loops.now }
    requires places { ArePlaces loops.now places.now }
    requires count { length places.now ≡ length graph.now }
    requires ends { HaveEnds (is_edge graph.now) (loops_in loops.now) }
    requires heads { HoldHeads loops.now }
    requires bounds { AreBounds loops.now bounds.now }
    requires sizes { AreSized (length graph.now) costs.now.node.items steps.now laps.old labels.old }
    requires steps { AreStepsOf graph.now (λ n m. cap ((costs_in costs.now).node n + (costs_in costs.now).edge n m)) steps.now }
    requires order { (n : ℕ) → has order.now n ≡ true → n < length graph.now }
    requires ground { IsGround (task_of graph.now loops.now bounds.now costs.now) order.now }
    requires turns { AreTurnedUpTo (task_of graph.now loops.now bounds.now costs.now) loops.now order.now 0 laps.old turns.old }
    requires count_turns { length turns.old ≡ length loops.now }
    requires ready { IsReady (length graph.now) ranking.old }
    requires none { NoLabels labels.old }
    ensures ready { OnOk result (IsReady (length graph.now) ranking.new) }
    ensures none { OnOk result (NoLabels labels.new) }
    ensures turns { OnOk result (AreTurnedUpTo (task_of graph.now loops.now bounds.now costs.now) loops.now order.now (length order.now) laps.new turns.new) }
{
    for at in order {
        take_head(
            alloc, graph, loops, places, bounds, costs, steps, order, *at, ranking, laps, labels,
            turns,
        )?;
    }
    Ok(())
}
