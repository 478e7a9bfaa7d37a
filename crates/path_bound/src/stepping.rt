ghost use Rattle.std.specs.Prelude.{◌≡◌, ◌+◌, ℕ, length, slice_index, vec_len, IfOk};
ghost use Rattle.path_bound.specs.Capped.{cap};
ghost use Rattle.path_bound.specs.Places.{extra_at, extra_of, costs_in};
ghost use Rattle.path_bound.specs.Steps.{AreStepsOf, AreRows, moves};

use crate::adding::{capped, sum};
use crate::weights::Costs;
use bt_base::{Graph, Want};
use std::alloc::Global;

/// A step along an edge: the node to which it leads, and what the node from which it leads and the edge cost, or the limit
/// where that is more.
#[derive(Clone, Copy, Debug)]
pub(crate) struct Step {
    pub to: u32,
    pub cost: u64,
}

/// The steps to some nodes, of one cost each.
fn row_of(alloc: Global, next: &[u32], cost: u64) -> Result<Vec<Step>, Want>
    ensures { IfOk result (λ row. row.items ≡ moves (λ _. cost) next.now) }
{
    Ok(next.iter().map(|to| Step { to: *to, cost }).collect(alloc)?)
}

/// The steps from each node of a graph, without what edges cost.
fn plain_rows(alloc: Global, graph: &Graph, node: &[u64]) -> Result<Vec<Vec<Step>>, Want>
    requires { length node.now ≡ length graph.now }
    ensures { IfOk result (λ rows. AreStepsOf graph.now (λ n m. cap (slice_index node.now n)) rows.items) }
{
    let mut rows = Vec::new(alloc);
    for at in 0..graph.count() {
        let cost = capped(node[at as usize]);
        rows.push(row_of(alloc, graph.next(at), cost)?)?;
    }
    Ok(rows)
}

/// Adds what an edge costs to its step, if there is one.
fn add_extra(graph: &Graph, rows: &mut [Vec<Step>], from: u32, to: u32, cost: u64)
    requires { AreRows graph.now rows.old }
    ensures rows { AreRows graph.now rows.new }
    ensures added { (f : ℕ → ℕ → ℕ) → AreStepsOf graph.now (λ n m. cap (f n m)) rows.old → AreStepsOf graph.now (λ n m. cap (f n m + extra_at (from, to, cost) n m)) rows.new }
{
    if from >= graph.count() {
        return;
    }
    if let Ok(place) = graph.next(from).binary_search(&to) {
        let step = &mut rows[from as usize][place];
        step.cost = sum(step.cost, cost);
    }
}

/// Adds what some edges cost to their steps.
fn add_extras(graph: &Graph, rows: &mut [Vec<Step>], extra: &[(u32, u32, u64)])
    requires { AreRows graph.now rows.old }
    ensures { (f : ℕ → ℕ → ℕ) → AreStepsOf graph.now (λ n m. cap (f n m)) rows.old → AreStepsOf graph.now (λ n m. cap (f n m + extra_of extra.now n m)) rows.new }
{
    for (from, to, cost) in extra {
        add_extra(graph, rows, *from, *to, *cost);
    }
}

/// The steps from each node of a graph.
pub(crate) fn steps_of(alloc: Global, graph: &Graph, costs: &Costs) -> Result<Vec<Vec<Step>>, Want>
    requires { vec_len costs.now.node ≡ length graph.now }
    ensures { IfOk result (λ rows. AreStepsOf graph.now (λ n m. cap ((costs_in costs.now).node n + (costs_in costs.now).edge n m)) rows.items) }
{
    let mut rows = plain_rows(alloc, graph, &costs.node)?;
    add_extras(graph, &mut rows, &costs.extra);
    Ok(rows)
}
