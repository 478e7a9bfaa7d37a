ghost use Rattle.std.specs.Prelude.{◌≡◌, ◌<◌, ◌⊎◌, ℕ, Bool, true, false, List, length, replicate, IfOk, OnOk, MatchOption, if◌then◌else◌};
ghost use Rattle.bt_base.specs.Graph.{has, is_edge};
ghost use Rattle.path_bound.specs.Places.{loops_in, AreLoopsBelow, ArePlaces};
ghost use Rattle.path_bound.specs.Ranked.{IsOrder};
ghost use Rattle.path_bound.specs.Ranking.{IsReady, IsRanking, HaveEnds, HasGrown, IsUnplaced, AllArePlaced, is_placed};

use crate::placing::is_back;
use bt_base::{Graph, Want};
use loop_nest::Loop;
use std::alloc::Global;
use std::mem;

/// Nodes that are put into an order in which each comes after those to which its edges lead, but for edges back.
///
/// For each node whether it is placed, or isn't to be placed, and the nodes that wait for it to be placed.
#[derive(Debug, Drop)]
pub(crate) struct Ranking {
    pub placed: Vec<bool>,
    pub waiting: Vec<Vec<u32>>,
}

/// For each node that it is placed.
fn all_placed(alloc: Global, count: u32) -> Result<Vec<bool>, Want>
    ensures { IfOk result (λ placed. placed.items ≡ replicate count true) }
{
    Ok(vec![in alloc; true; count as usize]?)
}

/// A ranking in which no node is to be placed.
pub(crate) fn new_ranking(alloc: Global, count: u32) -> Result<Ranking, Want>
    ensures { IfOk result (λ ranking. IsReady count ranking) }
{
    let placed = all_placed(alloc, count)?;
    let mut waiting = Vec::new(alloc);
    for _row in 0..count {
        waiting.push(Vec::new(alloc))?;
    }
    Ok(Ranking { placed, waiting })
}

/// A successor of a node that is to be placed before it.
fn first_unplaced(
    graph: &Graph,
    loops: &[Loop],
    places: &[Option<usize>],
    placed: &[bool],
    node: u32,
) -> Option<u32>
    requires loops { AreLoopsBelow (length places.now) loops.now }
    requires places { ArePlaces loops.now places.now }
    requires count { length places.now ≡ length graph.now }
    requires placed { length placed.now ≡ length graph.now }
    requires node { node < length graph.now }
    ensures cases { MatchOption result (AllArePlaced (is_edge graph.now) (loops_in loops.now) placed.now node) (IsUnplaced (is_edge graph.now) (loops_in loops.now) placed.now node) }
    ensures within { MatchOption result (Unit {0}) (λ next. next < length graph.now) }
{
    for next in graph.next(node) {
        if !placed[*next as usize] && !is_back(loops, places, node, *next) {
            return Some(*next);
        }
    }
    None
}

/// Places a node, or has it wait for a successor, unless it is placed.
fn advance(
    graph: &Graph,
    loops: &[Loop],
    places: &[Option<usize>],
    ranking: &mut Ranking,
    order: &mut Vec<u32>,
    node: u32,
) -> Result<(), Want>
    requires loops { AreLoopsBelow (length places.now) loops.now }
    requires places { ArePlaces loops.now places.now }
    requires count { length places.now ≡ length graph.now }
    requires placed { length ranking.old.placed.items ≡ length graph.now }
    requires waiting { length ranking.old.waiting.items ≡ length graph.now }
    requires node { node < length graph.now }
    ensures placed { OnOk result (length ranking.new.placed.items ≡ length graph.now) }
    ensures waiting { OnOk result (length ranking.new.waiting.items ≡ length graph.now) }
    ensures grown { OnOk result (HasGrown order.old.items order.new.items) }
    ensures ranking { OnOk result ((inside : ℕ → Bool) (done : List ℕ) (pending more : ℕ → Bool) → ((n : ℕ) → more n ≡ true → (n ≡ node) ⊎ (pending n ≡ true)) → inside node ≡ true
        → IsRanking (is_edge graph.now) (loops_in loops.now) (length graph.now) inside done more order.old.items ranking.old.placed.items ranking.old.waiting.items
        → IsRanking (is_edge graph.now) (loops_in loops.now) (length graph.now) inside done pending order.new.items ranking.new.placed.items ranking.new.waiting.items) }
{
    if ranking.placed[node as usize] {
        return Ok(());
    }
    match first_unplaced(graph, loops, places, &ranking.placed, node) {
        None => {
            order.push(node)?;
            ranking.placed[node as usize] = true;
        }
        Some(next) => ranking.waiting[next as usize].push(node)?,
    }
    Ok(())
}

/// Advances some nodes, the last first.
fn advance_all(
    graph: &Graph,
    loops: &[Loop],
    places: &[Option<usize>],
    ranking: &mut Ranking,
    order: &mut Vec<u32>,
    nodes: &[u32],
) -> Result<(), Want>
    requires loops { AreLoopsBelow (length places.now) loops.now }
    requires places { ArePlaces loops.now places.now }
    requires count { length places.now ≡ length graph.now }
    requires placed { length ranking.old.placed.items ≡ length graph.now }
    requires waiting { length ranking.old.waiting.items ≡ length graph.now }
    requires nodes { (n : ℕ) → has nodes.now n ≡ true → n < length graph.now }
    ensures placed { OnOk result (length ranking.new.placed.items ≡ length graph.now) }
    ensures waiting { OnOk result (length ranking.new.waiting.items ≡ length graph.now) }
    ensures grown { OnOk result (HasGrown order.old.items order.new.items) }
    ensures ranking { OnOk result ((inside : ℕ → Bool) (done : List ℕ) → ((n : ℕ) → has nodes.now n ≡ true → inside n ≡ true)
        → IsRanking (is_edge graph.now) (loops_in loops.now) (length graph.now) inside done (has nodes.now) order.old.items ranking.old.placed.items ranking.old.waiting.items
        → IsRanking (is_edge graph.now) (loops_in loops.now) (length graph.now) inside done (λ _. false) order.new.items ranking.new.placed.items ranking.new.waiting.items) }
{
    let mut left = nodes.len();
    while left > 0 {
        left -= 1;
        advance(graph, loops, places, ranking, order, nodes[left])?;
    }
    Ok(())
}

/// Says of some nodes that they are to be placed.
fn open(placed: &mut [bool], nodes: &[u32])
    requires { (n : ℕ) → has nodes.now n ≡ true → n < length placed.old }
    ensures { (n : ℕ) → is_placed placed.new n ≡ (if has nodes.now n then false else is_placed placed.old n) }
{
    for node in nodes {
        placed[*node as usize] = false;
    }
}

/// Some nodes in an order in which each comes after those of them to which its edges lead, but for edges back.
pub(crate) fn ranked(
    alloc: Global,
    graph: &Graph,
    loops: &[Loop],
    places: &[Option<usize>],
    ranking: &mut Ranking,
    nodes: &[u32],
) -> Result<Vec<u32>, Want>
    requires loops { AreLoopsBelow (length places.now) loops.now }
    requires places { ArePlaces loops.now places.now }
    requires count { length places.now ≡ length graph.now }
    requires ready { IsReady (length graph.now) ranking.old }
    requires nodes { (n : ℕ) → has nodes.now n ≡ true → n < length graph.now }
    requires ends { HaveEnds (is_edge graph.now) (loops_in loops.now) }
    ensures order { IfOk result (λ order. IsOrder (is_edge graph.now) (loops_in loops.now) (has nodes.now) order.items) }
    ensures ready { OnOk result (IsReady (length graph.now) ranking.new) }
{
    open(&mut ranking.placed, nodes);
    let mut order = Vec::new(alloc);
    advance_all(graph, loops, places, ranking, &mut order, nodes)?;
    for place in 0..usize::MAX {
        if place >= order.len() {
            return Ok(order);
        }
        let node = order[place];
        let woken = mem::replace(&mut ranking.waiting[node as usize], Vec::new(alloc));
        advance_all(graph, loops, places, ranking, &mut order, &woken)?;
    }
    Ok(order)
}
