//! The loops of a context, and what bounds the passes of their heads.
ghost use Rattle.std.specs.Prelude.{◌≡◌, ◌<◌, All, IfOk, IfSome, List, Some, length, slice_get};
ghost use Rattle.abs_state.specs.Key.{compare};
ghost use Rattle.abs_state.specs.declared.key.Place.{Place as AnyPlace};
ghost use Rattle.bt_base.specs.Graph.{is_edge};
ghost use Rattle.context_bounds.specs.Heads.{AreHeadOutcomes, IsHeadOutcome};
ghost use Rattle.context_bounds.specs.Low.{IsLow};
ghost use Rattle.context_bounds.specs.States.{HasStateOver, left_at};
ghost use Rattle.context_heads.specs.Passes.{AllowsOne, CountsOne};
ghost use Rattle.context_outcomes.specs.Counting.{IsCounterOf};
ghost use Rattle.counter_bound.specs.Counts.{HasNest};
ghost use Rattle.flow_system.specs.Facts.{fact_at};
ghost use Rattle.loop_nest.specs.declared.natural_loop.Loop.{Loop as NaturalLoop};
ghost use Rattle.path_bound.specs.Places.{loops_in};

use abs_state::{AbsState, HeadBound, Key, Place};
use assert_bind::Binding;
use bt_base::{Graph, Want};
use context_bounds::{by_of, state_at};
use counter_bound::{Change, head_bound};
use flow_system::Facts;
use loop_nest::LoopNest;
use std::alloc::Global;
use transfer_rules::Fact;
use value_lattice::Thresholds;
use wcet_report::LoopOutcome;

/// What counts at the head of a loop, by what is left of its state; nothing where nothing is left.
fn counter_at(
    alloc: Global,
    graph: &Graph,
    nest: &LoopNest,
    number: u32,
    changes: &[Change],
    state: &Option<AbsState>,
) -> Result<Option<HeadBound>, Want>
    requires nest { HasNest graph.now nest.now }
    requires number { number < length nest.now }
    requires count { length changes.now ≡ length graph.now }
    requires low { All IsLow changes.now }
    ensures counts { IfOk result (λ counter. (one : NaturalLoop) → slice_get nest.now number ≡ Some one
        → IsCounterOf (is_edge graph.now) (loops_in nest.now) one.head changes.now state.now counter) }
    ensures passes { IfOk result (λ counter. IfSome counter CountsOne) }
{
    match state {
        None => Ok(None),
        Some(s) => head_bound(alloc, graph, nest, number, changes, s),
    }
}

/// The loop of this number with what bounds it: the counter of its head with the fewest passes, or what is asserted at the
/// head's address, whichever is less.
fn loop_outcome(
    alloc: Global,
    t: &Thresholds,
    binding: &Binding,
    facts: &Facts<Key, Fact>,
    graph: &Graph,
    nest: &LoopNest,
    number: u32,
    changes: &[Change],
    head: Place,
) -> Result<LoopOutcome, Want>
    requires nest { HasNest graph.now nest.now }
    requires number { number < length nest.now }
    requires count { length changes.now ≡ length graph.now }
    requires low { All IsLow changes.now }
    requires depth { head.depth < 2 }
    requires over { HasStateOver t.now (fact_at compare facts.now) head }
    ensures outcome { IfOk result (λ outcome. (nodes : List AnyPlace) (one : NaturalLoop) → slice_get nest.now number ≡ Some one
        → slice_get nodes one.head ≡ Some head
        → IsHeadOutcome graph.now nodes nest.now changes.now (left_at t.now binding.now (fact_at compare facts.now)) binding.now one outcome) }
    ensures passes { IfOk result AllowsOne }
{
    let state = state_at(alloc, t, binding, facts, head)?;
    let counter = counter_at(alloc, graph, nest, number, changes, &state)?;
    Ok(LoopOutcome {
        head,
        by: by_of(counter, binding.repeats(head.pc)),
    })
}

/// The loops of a context with what bounds each, in their order.
///
/// `nodes` are the program points of the context by number, `graph` its steps and `nest` their loops; `changes` has what
/// each program point changes, and `facts` has its states, over the thresholds `t`.
pub fn loop_outcomes(
    alloc: Global,
    t: &Thresholds,
    binding: &Binding,
    facts: &Facts<Key, Fact>,
    nodes: &[Place],
    graph: &Graph,
    nest: &LoopNest,
    changes: &[Change],
) -> Result<Vec<LoopOutcome>, Want>
    requires nest { HasNest graph.now nest.now }
    requires nodes { length nodes.now ≡ length graph.now }
    requires count { length changes.now ≡ length graph.now }
    requires low { All IsLow changes.now }
    requires depths { All (λ p. p.depth < 2) nodes.now }
    requires over { All (HasStateOver t.now (fact_at compare facts.now)) nodes.now }
    ensures outcomes { IfOk result (λ list. AreHeadOutcomes graph.now nodes.now nest.now changes.now
        (left_at t.now binding.now (fact_at compare facts.now)) binding.now (length nest.now) list.items) }
    ensures passes { IfOk result (λ list. All AllowsOne list.items) }
{
    let _count = graph.count();
    let loops = nest.loops();
    let mut list = Vec::with_capacity(alloc, loops.len())?;
    for (i, one) in loops.iter().enumerate() {
        let head = nodes[one.head as usize];
        let outcome = loop_outcome(
            alloc, t, binding, facts, graph, nest, i as u32, changes, head,
        )?;
        list.push(outcome)?;
    }
    Ok(list)
}
