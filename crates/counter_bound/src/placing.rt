ghost use Rattle.std.specs.Prelude.{◌≡◌, ◌==◌, ◌||◌, ◌<◌, ℕ, true, false, Bool, List, length, vec_len, slice_index, replicate, IfOk, OnOk};
ghost use Rattle.std.specs.List.Sorted.{IsStrictlyIncreasing};
ghost use Rattle.bt_base.specs.Graph.{has, is_edge, IsGraph};
ghost use Rattle.counter_bound.specs.Body.{IsBodyGraph, HasBodyRow};

use bt_base::{Graph, Want};
use std::alloc::Global;

/// The place of a node in a body.
pub(crate) fn place_in(body: &[u32], node: u32) -> u32
    requires rising { IsStrictlyIncreasing body.now }
    requires few { length body.now < 4294967296 }
    requires there { has body.now node ≡ true }
    ensures within { result < length body.now }
    ensures node { slice_index body.now result ≡ node }
{
    match body.binary_search(&node) {
        Ok(place) => place as u32,
        Err(_) => unreachable!(),
    }
}

/// Adds an edge between two places to the graph of a body, where the node to which it leads is in the body.
fn add_edge(body: &[u32], small: &mut Graph, place: u32, next: u32) -> Result<(), Want>
    requires rising { IsStrictlyIncreasing body.now }
    requires few { length body.now < 4294967296 }
    requires count { length small.old ≡ length body.now }
    requires place { place < length body.now }
    ensures count { length small.new ≡ length small.old }
    ensures kept { OnOk result ((i j : ℕ) → (i == place) ≡ false → is_edge small.new i j ≡ is_edge small.old i j) }
    ensures row { OnOk result ((j : ℕ) → j < length body.now → is_edge small.new place j ≡ (is_edge small.old place j || (slice_index body.now j == next))) }
{
    match body.binary_search(&next) {
        Ok(to) => small.add(place, to as u32),
        Err(_) => Ok(()),
    }
}

/// Adds the edges from a node of a body to the graph of the body.
fn add_row(graph: &Graph, body: &[u32], small: &mut Graph, place: u32) -> Result<(), Want>
    requires rising { IsStrictlyIncreasing body.now }
    requires few { length body.now < 4294967296 }
    requires nodes { (n : ℕ) → has body.now n ≡ true → n < length graph.now }
    requires count { length small.old ≡ length body.now }
    requires place { place < length body.now }
    ensures count { length small.new ≡ length small.old }
    ensures row { OnOk result (HasBodyRow (is_edge graph.now) body.now place small.old small.new) }
{
    for next in graph.next(body[place as usize]) {
        add_edge(body, small, place, *next)?;
    }
    Ok(())
}

/// The graph of the edges between the nodes of a body, each by its place.
pub(crate) fn body_graph(alloc: Global, graph: &Graph, body: &[u32]) -> Result<Graph, Want>
    requires rising { IsStrictlyIncreasing body.now }
    requires few { length body.now < 4294967296 }
    requires nodes { (n : ℕ) → has body.now n ≡ true → n < length graph.now }
    ensures { IfOk result (IsBodyGraph (is_edge graph.now) body.now) }
{
    let count = body.len() as u32;
    let mut small = Graph::new(alloc, count)?;
    for place in 0..count {
        add_row(graph, body, &mut small, place)?;
    }
    Ok(small)
}
