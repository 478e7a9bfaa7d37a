//! The graph of a context.
ghost use Rattle.std.specs.Prelude.{◌≡◌, ◌<◌, ◌^◌, true, IfOk, is_some, length};
ghost use Rattle.std.specs.List.Sorted.{IsStrictlySortedBy};
ghost use Rattle.std.specs.Map.{keys_of};
ghost use Rattle.abs_state.specs.Key.{compare};
ghost use Rattle.abs_state.specs.declared.key.Key.TheVariants as key;
ghost use Rattle.bt_base.specs.Graph.{IsGraph};
ghost use Rattle.context_bounds.specs.Laws.{IsAllLocal};
ghost use Rattle.context_inside.specs.Shaped.{IsShaped};
ghost use Rattle.flow_system.specs.Facts.{fact_at};
ghost use Rattle.graph_view.specs.Numbers.{IsStepGraph, place_cmp};
ghost use Rattle.graph_view.specs.View.{AreViewed, by_kind, nodes_of, steps_of};
ghost use Rattle.transfer_rules.specs.Give.{entry_of};

use crate::knowing::entry_of;
use crate::within::Within;
use abs_state::{Key, Place};
use bt_base::{Graph, Want};
use flow_system::Facts;
use graph_view::{KeyLists, graph_of, number_of, of_sub};
use std::alloc::Global;
use transfer_rules::Fact;
use value_lattice::Thresholds;

/// The program points of a subprogram among the keys of facts, rising, and its steps as a graph of their numbers.
fn graph_in(alloc: Global, facts: &Facts<Key, Fact>, sub: u32) -> Result<(Vec<Place>, Graph), Want>
    requires { AreViewed (keys_of facts.now) }
    ensures nodes { IfOk result (λ both. both.0.items ≡ nodes_of (by_kind (keys_of facts.now)) sub) }
    ensures steps { IfOk result (λ both. IsStepGraph (nodes_of (by_kind (keys_of facts.now)) sub) (steps_of (by_kind (keys_of facts.now)) sub) both.1) }
    ensures graph { IfOk result (λ both. IsGraph both.1) }
    ensures rise { IfOk result (λ both. IsStrictlySortedBy place_cmp both.0.items) }
    ensures small { IfOk result (λ both. length both.0.items < 2 ^ 32) }
{
    let keys = facts.keys(alloc)?;
    let lists = KeyLists::of(alloc, &keys)?;
    let points = of_sub(&lists.places, sub);
    let graph = graph_of(alloc, points, of_sub(&lists.steps, sub))?;
    let _count = graph.count();
    let nodes = Vec::from_slice(alloc, points)?;
    Ok((nodes, graph))
}

/// Facts of a subprogram that have its entry, as a graph.
pub fn shaped(
    alloc: Global,
    facts: Facts<Key, Fact>,
    sub: u32,
    thresholds: Thresholds,
) -> Result<Within, Want>
    requires viewed { AreViewed (keys_of facts) }
    requires local { IsAllLocal facts sub }
    requires entry { is_some (fact_at compare facts (key.Node (entry_of sub))) ≡ true }
    ensures { IfOk result (IsShaped facts sub thresholds) }
{
    let (nodes, graph) = graph_in(alloc, &facts, sub)?;
    match number_of(&nodes, &entry_of(sub)) {
        Some(entry) => Ok(Within {
            facts,
            nodes,
            graph,
            entry,
            thresholds,
        }),
        None => unreachable!(),
    }
}
