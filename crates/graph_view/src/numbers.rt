ghost use Rattle.std.specs.Prelude.{◌≡◌, ◌<◌, ◌^◌, Contains, IfOk, IfSome, IsSome, OnOk, length};
ghost use Rattle.std.specs.List.Sorted.{IsStrictlySortedBy};
ghost use Rattle.graph_view.specs.Numbers.{place_cmp, IsNumber, AddsStep, IsStepGraph};

use crate::lists::Step;
use abs_state::Place;
use bt_base::{Graph, Want};
use std::alloc::Global;

/// The number of a program point among those of a subprogram, which rise. It takes as many steps as the logarithm of
/// their count.
pub fn number_of(nodes: &[Place], place: &Place) -> Option<u32>
    requires rise { IsStrictlySortedBy place_cmp nodes.now }
    requires small { length nodes.now < 2 ^ 32 }
    ensures number { IfSome result (IsNumber nodes.now place.now) }
    ensures found { Contains nodes.now place.now → IsSome result }
{
    match nodes.binary_search(place) {
        Ok(number) => Some(number as u32),
        Err(_) => None,
    }
}

/// Adds a step between two numbered program points to a graph.
fn add_step(graph: &mut Graph, nodes: &[Place], step: &Step) -> Result<(), Want>
    requires rise { IsStrictlySortedBy place_cmp nodes.now }
    requires small { length nodes.now < 2 ^ 32 }
    requires count { length graph.old ≡ length nodes.now }
    ensures { OnOk result (AddsStep nodes.now step.now graph.old graph.new) }
{
    let Some(from) = number_of(nodes, &step.from) else {
        return Ok(());
    };
    let Some(to) = number_of(nodes, &step.to) else {
        return Ok(());
    };
    graph.add(from, to)
}

/// The graph of steps between the program points of a subprogram, which rise, by their numbers.
pub fn graph_of(alloc: Global, nodes: &[Place], steps: &[Step]) -> Result<Graph, Want>
    requires rise { IsStrictlySortedBy place_cmp nodes.now }
    requires small { length nodes.now < 2 ^ 32 }
    ensures { IfOk result (IsStepGraph nodes.now steps.now) }
{
    let mut graph = Graph::new(alloc, nodes.len() as u32)?;
    for step in steps {
        add_step(&mut graph, nodes, step)?;
    }
    Ok(graph)
}
