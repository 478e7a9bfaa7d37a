ghost use Rattle.std.specs.Prelude.{◌≡◌, ◌==◌, ◌&&◌, ◌+◌, ◌<◌, not, true, false, ℕ, length, slice_index_or, slice_set, replicate, IfOk, if◌then◌else◌};
ghost use Rattle.bt_base.specs.Graph.{has, is_edge, IsGraph};
ghost use Rattle.turn_sums.specs.Label.{label, least_of, lowered};
ghost use Rattle.turn_sums.specs.Search.{steps_of, AreFound, base, all_nodes, AreBalanced, AreLower, IsAnswered, AreSettled, IsLeastSoFar, IsLeastTurn};

use bt_base::{Graph, Want};
use graph_laws::has_edge;
use std::alloc::Global;

/// What sums are counted from.
pub(crate) const BASE: u128 = 1 << 70;

/// Lowers the label of a node to a sum, and says whether it has changed.
fn lower(labels: &mut [Option<u128>], node: u32, sum: u128) -> bool
    requires { node < length labels.old }
    ensures labels { (n : ℕ) → label labels.new n ≡ (if n == node then least_of (label labels.old n) sum else label labels.old n) }
    ensures same { result ≡ false → (n : ℕ) → label labels.new n ≡ label labels.old n }
{
    if let Some(old) = labels[node as usize] {
        if old <= sum {
            return false;
        }
    }
    labels[node as usize] = Some(sum);
    true
}

/// Lowers the label of a node that isn't the head; whether one has changed, now or before.
fn lower_other(labels: &mut [Option<u128>], node: u32, head: u32, sum: u128, changed: bool) -> bool
    requires { node < length labels.old }
    ensures labels { (n : ℕ) → label labels.new n ≡ (if (n == node) && not (node == head) then least_of (label labels.old n) sum else label labels.old n) }
    ensures before { result ≡ false → changed ≡ false }
    ensures same { result ≡ false → (n : ℕ) → label labels.new n ≡ label labels.old n }
{
    if node == head {
        return changed;
    }
    if lower(labels, node, sum) {
        return true;
    }
    changed
}

/// Lowers the labels of some nodes but the head to a sum; whether one has changed, now or before.
pub(crate) fn lower_all(
    nodes: &[u32],
    head: u32,
    labels: &mut [Option<u128>],
    sum: u128,
    before: bool,
) -> bool
    requires { (n : ℕ) → has nodes.now n ≡ true → n < length labels.old }
    ensures labels { (n : ℕ) → label labels.new n ≡ lowered nodes.now head sum n (label labels.old n) }
    ensures before { result ≡ false → before ≡ false }
    ensures same { result ≡ false → (n : ℕ) → label labels.new n ≡ label labels.old n }
{
    let mut changed = before;
    for node in nodes {
        changed = lower_other(labels, *node, head, sum, changed);
    }
    changed
}

/// The sum behind a node with a label.
fn behind(
    graph: &Graph,
    head: u32,
    ups: &[u32],
    downs: &[u32],
    labels: &[Option<u128>],
    node: u32,
    sum: u128,
) -> u128
    requires node { node < length graph.now }
    requires ups { length ups.now ≡ length graph.now }
    requires downs { length downs.now ≡ length graph.now }
    requires found { AreFound (is_edge graph.now) head (steps_of ups.now downs.now) labels.now }
    requires balanced { AreBalanced (is_edge graph.now) head (steps_of ups.now downs.now) }
    requires label { label labels.now node ≡ Some sum }
    ensures sum { result + slice_index_or downs.now node 0 ≡ sum + slice_index_or ups.now node 0 }
    ensures graph { IsGraph graph.now }
{
    let _count = graph.count();
    sum + u128::from(ups[node as usize]) - u128::from(downs[node as usize])
}

/// Lowers what the label of a node asks of its successors but the head; whether a label has changed, now or before.
fn relax_node(
    graph: &Graph,
    head: u32,
    ups: &[u32],
    downs: &[u32],
    labels: &mut [Option<u128>],
    node: u32,
    before: bool,
) -> bool
    requires node { node < length graph.now }
    requires ups { length ups.now ≡ length graph.now }
    requires downs { length downs.now ≡ length graph.now }
    requires labels { length labels.old ≡ length graph.now }
    requires found { AreFound (is_edge graph.now) head (steps_of ups.now downs.now) labels.old }
    requires balanced { AreBalanced (is_edge graph.now) head (steps_of ups.now downs.now) }
    ensures found { AreFound (is_edge graph.now) head (steps_of ups.now downs.now) labels.new }
    ensures lower { AreLower labels.old labels.new }
    ensures answered { IsAnswered (is_edge graph.now) head (steps_of ups.now downs.now) labels.old labels.new node }
    ensures before { result ≡ false → before ≡ false }
    ensures same { result ≡ false → (n : ℕ) → label labels.new n ≡ label labels.old n }
{
    match labels[node as usize] {
        None => before,
        Some(sum) => {
            let behind = behind(graph, head, ups, downs, labels, node, sum);
            lower_all(graph.next(node), head, labels, behind, before)
        }
    }
}

/// Lowers what all labels ask, one node after the other; whether a label has changed.
fn relax_all(
    graph: &Graph,
    head: u32,
    ups: &[u32],
    downs: &[u32],
    labels: &mut [Option<u128>],
) -> bool
    requires ups { length ups.now ≡ length graph.now }
    requires downs { length downs.now ≡ length graph.now }
    requires labels { length labels.old ≡ length graph.now }
    requires found { AreFound (is_edge graph.now) head (steps_of ups.now downs.now) labels.old }
    requires balanced { AreBalanced (is_edge graph.now) head (steps_of ups.now downs.now) }
    ensures found { AreFound (is_edge graph.now) head (steps_of ups.now downs.now) labels.new }
    ensures lower { AreLower labels.old labels.new }
    ensures answered { (n : ℕ) → IsAnswered (is_edge graph.now) head (steps_of ups.now downs.now) labels.old labels.new n }
    ensures same { result ≡ false → (n : ℕ) → label labels.new n ≡ label labels.old n }
    ensures graph { IsGraph graph.now }
{
    let count = graph.count();
    let mut changed = false;
    for node in 0..count {
        changed = relax_node(graph, head, ups, downs, labels, node, changed);
    }
    changed
}

/// Lowers what the labels of some nodes ask, one after the other.
fn relax_in_order(
    graph: &Graph,
    head: u32,
    ups: &[u32],
    downs: &[u32],
    labels: &mut [Option<u128>],
    order: &[u32],
)
    requires order { (n : ℕ) → has order.now n ≡ true → n < length graph.now }
    requires ups { length ups.now ≡ length graph.now }
    requires downs { length downs.now ≡ length graph.now }
    requires labels { length labels.old ≡ length graph.now }
    requires found { AreFound (is_edge graph.now) head (steps_of ups.now downs.now) labels.old }
    requires balanced { AreBalanced (is_edge graph.now) head (steps_of ups.now downs.now) }
    ensures { AreFound (is_edge graph.now) head (steps_of ups.now downs.now) labels.new }
{
    for node in order {
        let _changed = relax_node(graph, head, ups, downs, labels, *node, false);
    }
}

/// Lowers what all labels ask, round by round, until all that is asked is met.
///
/// As many rounds as there are nodes are enough. Where little is left to ask, one round does the work, and a second one sees
/// that nothing is left to do.
fn settle(graph: &Graph, head: u32, ups: &[u32], downs: &[u32], labels: &mut [Option<u128>])
    requires ups { length ups.now ≡ length graph.now }
    requires downs { length downs.now ≡ length graph.now }
    requires labels { length labels.old ≡ length graph.now }
    requires found { AreFound (is_edge graph.now) head (steps_of ups.now downs.now) labels.old }
    requires balanced { AreBalanced (is_edge graph.now) head (steps_of ups.now downs.now) }
    ensures found { AreFound (is_edge graph.now) head (steps_of ups.now downs.now) labels.new }
    ensures settled { AreSettled (is_edge graph.now) head (steps_of ups.now downs.now) labels.new }
    ensures graph { IsGraph graph.now }
{
    let count = graph.count();
    for _round in 0..count {
        if !relax_all(graph, head, ups, downs, labels) {
            return;
        }
    }
}

/// The less of a sum and another, if there is another.
fn least(best: Option<u128>, sum: u128) -> Option<u128>
    ensures { result ≡ least_of best sum }
{
    match best {
        None => Some(sum),
        Some(old) => Some(old.min(sum)),
    }
}

/// The least sum of a turn so far, with those that end by the edge from a node to the head.
fn with_turn(
    graph: &Graph,
    head: u32,
    ups: &[u32],
    downs: &[u32],
    labels: &[Option<u128>],
    node: u32,
    best: Option<u128>,
) -> Option<u128>
    requires node { node < length graph.now }
    requires ups { length ups.now ≡ length graph.now }
    requires downs { length downs.now ≡ length graph.now }
    requires labels { length labels.now ≡ length graph.now }
    requires found { AreFound (is_edge graph.now) head (steps_of ups.now downs.now) labels.now }
    requires balanced { AreBalanced (is_edge graph.now) head (steps_of ups.now downs.now) }
    requires best { IsLeastSoFar (is_edge graph.now) head (steps_of ups.now downs.now) labels.now node best }
    ensures { IsLeastSoFar (is_edge graph.now) head (steps_of ups.now downs.now) labels.now (node + 1) result }
{
    if !has_edge(graph, node, head) {
        return best;
    }
    match labels[node as usize] {
        None => best,
        Some(sum) => least(best, behind(graph, head, ups, downs, labels, node, sum)),
    }
}

/// The least sum of a turn, by labels that meet all that is asked of them.
fn least_turn(
    graph: &Graph,
    head: u32,
    ups: &[u32],
    downs: &[u32],
    labels: &[Option<u128>],
) -> Option<u128>
    requires ups { length ups.now ≡ length graph.now }
    requires downs { length downs.now ≡ length graph.now }
    requires labels { length labels.now ≡ length graph.now }
    requires found { AreFound (is_edge graph.now) head (steps_of ups.now downs.now) labels.now }
    requires balanced { AreBalanced (is_edge graph.now) head (steps_of ups.now downs.now) }
    requires settled { AreSettled (is_edge graph.now) head (steps_of ups.now downs.now) labels.now }
    ensures { IsLeastTurn (is_edge graph.now) all_nodes head (steps_of ups.now downs.now) result }
{
    let count = graph.count();
    let mut best = None;
    for node in 0..count {
        best = with_turn(graph, head, ups, downs, labels, node, best);
    }
    best
}

/// The labels to begin with: that of the head alone.
fn first_labels(alloc: Global, count: u32, head: u32) -> Result<Vec<Option<u128>>, Want>
    requires { head < count }
    ensures { IfOk result (λ labels. labels.items ≡ slice_set (replicate count None) head (Some base)) }
{
    let mut labels = vec![in alloc; None; count as usize]?;
    labels[head as usize] = Some(BASE);
    Ok(labels)
}

/// The least sum of a turn of a loop, if there is a turn. The graph is that of the loop's body; `ups` has what each node
/// adds, and `downs` what it takes. The sum is counted from 2^70. The nodes are gone through in an order first, on which nothing
/// but speed rests.
pub(crate) fn least_sum(
    alloc: Global,
    graph: &Graph,
    head: u32,
    ups: &[u32],
    downs: &[u32],
    order: &[u32],
) -> Result<Option<u128>, Want>
    requires order { (n : ℕ) → has order.now n ≡ true → n < length graph.now }
    requires head { head < length graph.now }
    requires ups { length ups.now ≡ length graph.now }
    requires downs { length downs.now ≡ length graph.now }
    requires balanced { AreBalanced (is_edge graph.now) head (steps_of ups.now downs.now) }
    ensures { IfOk result (λ least. IsLeastTurn (is_edge graph.now) all_nodes head (steps_of ups.now downs.now) least) }
{
    let mut labels = first_labels(alloc, graph.count(), head)?;
    relax_in_order(graph, head, ups, downs, &mut labels, order);
    settle(graph, head, ups, downs, &mut labels);
    Ok(least_turn(graph, head, ups, downs, &labels))
}
