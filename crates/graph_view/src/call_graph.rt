ghost use Rattle.std.specs.Prelude.{◌≡◌, ◌<◌, ◌^◌, Contains, IfOk, IfSome, IsSome, OnOk, length};
ghost use Rattle.std.specs.List.Sorted.{IsStrictlyIncreasing};
ghost use Rattle.graph_view.specs.CallGraph.{AddsCall, IsAt, IsCallGraph};

use crate::lists::Calling;
use bt_base::{Graph, Want};
use std::alloc::Global;

/// The number of a subprogram among some that rise.
pub(crate) fn place_of(subs: &[u32], sub: u32) -> Option<u32>
    requires rising { IsStrictlyIncreasing subs.now }
    requires counted { length subs.now < 2 ^ 32 }
    ensures number { IfSome result (IsAt subs.now sub) }
    ensures found { Contains subs.now sub → IsSome result }
{
    match subs.binary_search(&sub) {
        Ok(number) => Some(number as u32),
        Err(_) => None,
    }
}

/// Adds a call between two listed subprograms to a graph.
fn add_call(graph: &mut Graph, subs: &[u32], calling: &Calling) -> Result<(), Want>
    requires rising { IsStrictlyIncreasing subs.now }
    requires counted { length subs.now < 2 ^ 32 }
    requires count { length graph.old ≡ length subs.now }
    ensures { OnOk result (AddsCall subs.now calling.now graph.old graph.new) }
{
    let Some(from) = place_of(subs, calling.from.sub) else {
        return Ok(());
    };
    let Some(to) = place_of(subs, calling.callee) else {
        return Ok(());
    };
    graph.add(from, to)
}

/// The graph of calls between the listed subprograms, which rise, by their numbers.
pub(crate) fn call_graph_of(
    alloc: Global,
    subs: &[u32],
    callings: &[Calling],
) -> Result<Graph, Want>
    requires rising { IsStrictlyIncreasing subs.now }
    requires counted { length subs.now < 2 ^ 32 }
    ensures { IfOk result (IsCallGraph subs.now callings.now) }
{
    let mut graph = Graph::new(alloc, subs.len() as u32)?;
    for calling in callings {
        add_call(&mut graph, subs, calling)?;
    }
    Ok(graph)
}
