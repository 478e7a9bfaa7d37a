//! What the steps of a context cost, as costs of the edges of its graph.
ghost use Rattle.std.specs.Prelude.{◌≡◌, ℕ, ◌<◌, true, length, ◌++◌, OnOk, IfOk, if◌then◌else◌};
ghost use Rattle.bt_base.specs.Graph.{IsGraph, has, is_edge};
ghost use Rattle.context_bounds.specs.Extras.{cost_between, extras_from, extras_of_row};
ghost use Rattle.path_bound.specs.Places.{extra_of};

use crate::spending::edge_cost;
use abs_state::Place;
use bt_base::{Graph, Want};
use bt_image::Image;
use cycle_table::Cycles;
use std::alloc::Global;

/// What the edges of a node cost.
fn push_row(
    list: &mut Vec<(u32, u32, u64)>,
    image: &Image,
    cycles: &Cycles,
    nodes: &[Place],
    n: u32,
    row: &[u32],
) -> Result<(), Want>
    requires node { n < length nodes.now }
    requires next { (m : ℕ) → has row.now m ≡ true → m < length nodes.now }
    ensures { OnOk result (list.new.items ≡ list.old.items ++ extras_of_row (cost_between image.now cycles.now nodes.now) n row.now) }
{
    for m in row {
        let cost = edge_cost(image, cycles, nodes[n as usize], nodes[*m as usize]);
        list.push((n, *m, cost))?;
    }
    Ok(())
}

/// What the edges of all nodes cost.
fn all_extras(
    alloc: Global,
    image: &Image,
    cycles: &Cycles,
    nodes: &[Place],
    graph: &Graph,
) -> Result<Vec<(u32, u32, u64)>, Want>
    requires { length graph.now ≡ length nodes.now }
    ensures graph { IsGraph graph.now }
    ensures items { IfOk result (λ list. list.items ≡ extras_from (cost_between image.now cycles.now nodes.now) 0 graph.now) }
{
    let mut list = Vec::new(alloc);
    let count = graph.count();
    for n in 0..count {
        push_row(&mut list, image, cycles, nodes, n, graph.next(n))?;
    }
    Ok(list)
}

/// What each edge of a graph of program points costs, each once.
pub fn extras_of(
    alloc: Global,
    image: &Image,
    cycles: &Cycles,
    nodes: &[Place],
    graph: &Graph,
) -> Result<Vec<(u32, u32, u64)>, Want>
    requires { length graph.now ≡ length nodes.now }
    ensures { IfOk result (λ list. (n m : ℕ) → extra_of list.items n m ≡ (if is_edge graph.now n m then cost_between image.now cycles.now nodes.now n m else 0)) }
{
    all_extras(alloc, image, cycles, nodes, graph)
}
