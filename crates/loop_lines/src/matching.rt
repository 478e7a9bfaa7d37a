//! Which nodes of a graph match asserted loops.
ghost use Rattle.std.specs.Prelude.{◌≡◌, ◌<◌, ◌↔◌, ℕ, Contains, IfOk, OnOk, length, map};
ghost use Rattle.bt_base.specs.Graph.{is_edge};
ghost use Rattle.graph_laws.specs.Nest.{IsReached};
ghost use Rattle.loop_lines.specs.Matched.{AreBelow, AreMatching, head_of};

use bt_base::{Graph, Want};
use loop_nest::{Loop, NestRefusal, nest};
use std::alloc::Global;

/// The heads of loops.
fn heads_of(alloc: Global, loops: &[Loop]) -> Result<Vec<u32>, Want>
    ensures { IfOk result (λ nodes. nodes.items ≡ map head_of loops.now) }
{
    let heads = loops.iter().map(|one| one.head).collect(alloc)?;
    Ok(heads)
}

/// All numbers below one.
fn all_below(alloc: Global, count: u32) -> Result<Vec<u32>, Want>
    ensures { IfOk result (λ nodes. AreBelow count nodes.items) }
{
    let mut nodes = Vec::new(alloc);
    for node in 0..count {
        nodes.push(node)?;
    }
    Ok(nodes)
}

/// The nodes that match asserted loops, of a graph whose nodes are all reached from the entry: the heads of its loops, or
/// all where some part of it is entered at two nodes.
pub(crate) fn matching_nodes(alloc: Global, graph: &Graph, entry: u32) -> Result<Vec<u32>, Want>
    requires entry { entry < length graph.now }
    requires reached { (n : ℕ) → n < length graph.now → IsReached (is_edge graph.now) entry n }
    ensures { IfOk result (λ nodes. AreMatching graph.now entry nodes.items) }
{
    match nest(alloc, graph, entry) {
        Ok(nest) => heads_of(alloc, nest.loops()),
        Err(NestRefusal::TwoEntries { .. }) => all_below(alloc, graph.count()),
        Err(NestRefusal::Want) => Err(Want),
    }
}
