ghost use Rattle.std.specs.Prelude.{◌≡◌, ◌<◌, ℕ, true, false, None, length, take, slice_index, replicate, IfOk, if◌then◌else◌};
ghost use Rattle.bt_base.specs.Graph.{has};
ghost use Rattle.path_bound.specs.Capped.{cap};
ghost use Rattle.path_bound.specs.Choosing.{label_at, start_at, cost_of};
ghost use Rattle.path_bound.specs.Steps.{steps_at, AreWithin};
ghost use Rattle.path_bound.specs.Turning.{NoLabels, ArePassed};

use crate::adding::capped;
use crate::choosing::{Label, best};
use crate::stepping::Step;
use bt_base::Want;
use std::alloc::Global;

/// Nothing for the further passes of each node of a graph.
pub(crate) fn no_laps(alloc: Global, count: u32) -> Result<Vec<u64>, Want>
    ensures { IfOk result (λ laps. laps.items ≡ replicate count 0) }
{
    Ok(vec![in alloc; 0; count as usize]?)
}

/// No label for each node of a graph.
pub(crate) fn no_labels(alloc: Global, count: u32) -> Result<Vec<Option<Label>>, Want>
    ensures { IfOk result (λ labels. labels.items ≡ replicate count None) }
{
    Ok(vec![in alloc; None; count as usize]?)
}

/// The label of a walk that ends at a node, where walks end anywhere.
fn start_of(head: Option<u32>, cost: u64) -> Option<Label>
    ensures { result ≡ start_at head (cap cost) }
{
    match head {
        None => Some(Label {
            cost: capped(cost),
            next: None,
        }),
        Some(_) => None,
    }
}

/// Labels some nodes, each after those to which its steps lead.
///
/// Where a head is said walks end by an edge to it, else at any node.
pub(crate) fn pass(
    order: &[u32],
    head: Option<u32>,
    node: &[u64],
    steps: &[Vec<Step>],
    laps: &[u64],
    labels: &mut [Option<Label>],
)
    requires nodes { (n : ℕ) → has order.now n ≡ true → n < length node.now }
    requires steps { length steps.now ≡ length node.now }
    requires laps { length laps.now ≡ length node.now }
    requires labels { length labels.old ≡ length node.now }
    requires within { (n : ℕ) → AreWithin (length node.now) (steps_at steps.now n) }
    requires once { (k : ℕ) → k < length order.now → has (take k order.now) (slice_index order.now k) ≡ false }
    requires none { NoLabels labels.old }
    ensures { ArePassed order.now head node.now steps.now laps.now labels.new }
{
    for at in order {
        let start = start_of(head, node[*at as usize]);
        labels[*at as usize] = best(head, laps, labels, start, &steps[*at as usize]);
    }
}

/// Takes the labels of some nodes away.
pub(crate) fn clear(labels: &mut [Option<Label>], nodes: &[u32])
    requires { (n : ℕ) → has nodes.now n ≡ true → n < length labels.old }
    ensures { (n : ℕ) → label_at labels.new n ≡ (if has nodes.now n then None else label_at labels.old n) }
{
    for node in nodes {
        labels[*node as usize] = None;
    }
}

/// What the label of a node says that a walk costs, or 0 where there is none.
pub(crate) fn cost_at(labels: &[Option<Label>], node: u32) -> u64
    requires { node < length labels.now }
    ensures { result ≡ cost_of (label_at labels.now node) }
{
    match labels[node as usize] {
        None => 0,
        Some(label) => label.cost,
    }
}
