ghost use Rattle.std.specs.Prelude.{◌≡◌, ◌<◌, ℕ, Some, true, false, length, replicate, slice_get, IfOk, OnOk};
ghost use Rattle.bt_base.specs.Graph.{has, is_edge};
ghost use Rattle.loop_nest.specs.declared.natural_loop.Loop.{Loop as NaturalLoop};
ghost use Rattle.path_bound.specs.Blamed.{is_marked, is_innermost_of, first_of, AreLarge, IsNamedBy};
ghost use Rattle.path_bound.specs.Places.{loops_in, AreLoopsBelow, ArePlaces};
ghost use Rattle.path_bound.specs.Ranking.{IsReady, HaveEnds};
ghost use Rattle.path_bound.specs.Turning.{NoLabels, IsWeighed, HoldHeads, AreSized};

use crate::adding::{LIMIT, sum};
use crate::choosing::Label;
use crate::passing::{clear, cost_at, pass};
use crate::ranking::{Ranking, ranked};
use crate::stepping::Step;
use bt_base::{Graph, Want};
use loop_nest::Loop;
use std::alloc::Global;

/// Whether the greatest cost of the walks inside a loop's body from its head passes what can be told.
fn is_large(
    alloc: Global,
    graph: &Graph,
    loops: &[Loop],
    places: &[Option<usize>],
    node: &[u64],
    steps: &[Vec<Step>],
    place: usize,
    ranking: &mut Ranking,
    laps: &[u64],
    labels: &mut [Option<Label>],
) -> Result<bool, Want>
    requires loops { AreLoopsBelow (length places.now) loops.now }
    requires places { ArePlaces loops.now places.now }
    requires count { length places.now ≡ length graph.now }
    requires ends { HaveEnds (is_edge graph.now) (loops_in loops.now) }
    requires heads { HoldHeads loops.now }
    requires sizes { AreSized (length graph.now) node.now steps.now laps.now labels.old }
    requires place { place < length loops.now }
    requires ready { IsReady (length graph.now) ranking.old }
    requires none { NoLabels labels.old }
    ensures ready { OnOk result (IsReady (length graph.now) ranking.new) }
    ensures none { OnOk result (NoLabels labels.new) }
    ensures weighed { IfOk result (λ large. (one : NaturalLoop) → slice_get loops.now place ≡ Some one
        → IsWeighed (is_edge graph.now) (loops_in loops.now) one node.now steps.now laps.now large) }
{
    let one = &loops[place];
    let order = ranked(alloc, graph, loops, places, ranking, &one.body)?;
    pass(&order, None, node, steps, laps, labels);
    let cost = sum(laps[one.head as usize], cost_at(labels, one.head));
    clear(labels, &order);
    Ok(cost >= LIMIT)
}

/// No mark for each node.
fn no_marks(alloc: Global, count: u32) -> Result<Vec<bool>, Want>
    ensures { IfOk result (λ marks. marks.items ≡ replicate count false) }
{
    Ok(vec![in alloc; false; count as usize]?)
}

/// For each node whether it is the head of such a loop.
fn large_heads(
    alloc: Global,
    graph: &Graph,
    loops: &[Loop],
    places: &[Option<usize>],
    node: &[u64],
    steps: &[Vec<Step>],
    ranking: &mut Ranking,
    laps: &[u64],
    labels: &mut [Option<Label>],
) -> Result<Vec<bool>, Want>
    requires loops { AreLoopsBelow (length places.now) loops.now }
    requires places { ArePlaces loops.now places.now }
    requires count { length places.now ≡ length graph.now }
    requires ends { HaveEnds (is_edge graph.now) (loops_in loops.now) }
    requires heads { HoldHeads loops.now }
    requires sizes { AreSized (length graph.now) node.now steps.now laps.now labels.old }
    requires ready { IsReady (length graph.now) ranking.old }
    requires none { NoLabels labels.old }
    ensures size { IfOk result (λ large. length large.items ≡ length graph.now) }
    ensures large { IfOk result (λ large. AreLarge (is_edge graph.now) loops.now (loops_in loops.now) node.now steps.now laps.now (is_marked large.items)) }
{
    let mut large = no_marks(alloc, graph.count())?;
    for place in 0..loops.len() {
        let is = is_large(
            alloc, graph, loops, places, node, steps, place, ranking, laps, labels,
        )?;
        large[loops[place].head as usize] = is;
    }
    Ok(large)
}

/// Whether a loop is such a one, and no loop inside it is.
fn is_innermost(one: &Loop, large: &[bool]) -> bool
    requires head { one.now.head < length large.now }
    requires nodes { (n : ℕ) → has one.now.body.items n ≡ true → n < length large.now }
    ensures { result ≡ is_innermost_of (is_marked large.now) one.now }
{
    if !large[one.head as usize] {
        return false;
    }
    for node in &one.body {
        if *node != one.head && large[*node as usize] {
            return false;
        }
    }
    true
}

/// The first head of such a loop with none inside it, or the entry where there is none.
fn first_blamed(loops: &[Loop], large: &[bool], entry: u32) -> u32
    requires { AreLoopsBelow (length large.now) loops.now }
    ensures { result ≡ first_of (is_marked large.now) loops.now entry }
{
    for one in loops {
        if is_innermost(one, large) {
            return one.head;
        }
    }
    entry
}

/// The node that is named where the greatest cost passes what can be told.
pub(crate) fn blamed(
    alloc: Global,
    graph: &Graph,
    loops: &[Loop],
    places: &[Option<usize>],
    node: &[u64],
    steps: &[Vec<Step>],
    entry: u32,
    ranking: &mut Ranking,
    laps: &[u64],
    labels: &mut [Option<Label>],
) -> Result<u32, Want>
    requires loops { AreLoopsBelow (length places.now) loops.now }
    requires places { ArePlaces loops.now places.now }
    requires count { length places.now ≡ length graph.now }
    requires ends { HaveEnds (is_edge graph.now) (loops_in loops.now) }
    requires heads { HoldHeads loops.now }
    requires sizes { AreSized (length graph.now) node.now steps.now laps.now labels.old }
    requires ready { IsReady (length graph.now) ranking.old }
    requires none { NoLabels labels.old }
    ensures { IfOk result (λ named. IsNamedBy (is_edge graph.now) loops.now (loops_in loops.now) entry node.now steps.now laps.now named) }
{
    let large = large_heads(
        alloc, graph, loops, places, node, steps, ranking, laps, labels,
    )?;
    Ok(first_blamed(loops, &large, entry))
}
