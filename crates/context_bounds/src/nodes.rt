//! What program points cost with what they call, and the costs of a whole context.
ghost use Rattle.std.specs.Prelude.{◌≡◌, ◌<◌, ◌^◌, ℕ, List, length, IfOk, All, if◌then◌else◌};
ghost use Rattle.abs_state.specs.Key.{compare};
ghost use Rattle.bt_base.specs.Graph.{is_edge};
ghost use Rattle.context_bounds.specs.Extras.{cost_between};
ghost use Rattle.context_bounds.specs.Nodes.{IsTold, costs_at};
ghost use Rattle.context_bounds.specs.Setting.{setting_of};
ghost use Rattle.context_outcomes.specs.Spending.{called_cost, place_cost, start_cost};
ghost use Rattle.flow_system.specs.Facts.{fact_at};
ghost use Rattle.path_bound.specs.Places.{extra_of};
ghost use Rattle.transfer_rules.specs.Fact.{Piece};

use crate::extras::extras_of;
use crate::spending::{call_time, own_place_cost, start_cost};
use abs_state::{Key, Next, Place};
use assert_bind::Binding;
use bt_base::{Graph, Want};
use cycle_table::Cycles;
use flow_system::Facts;
use path_bound::Costs;
use std::alloc::Global;
use transfer_fns::SparcSystem;
use transfer_rules::Fact;

/// What is called at a program point costs, where the facts have the call.
fn called_cost(binding: &Binding, facts: &Facts<Key, Fact>, bound: Option<u64>, p: Place) -> u64
    requires { IsTold bound }
    ensures value { result ≡ called_cost binding.now (fact_at compare facts.now) bound p p.next }
    ensures told { result < 2 ^ 63 }
{
    match p.next {
        Next::At(_) => 0,
        Next::Into(t) => match facts.get(Key::Call { from: p, callee: t }) {
            None => 0,
            Some(_) => call_time(binding.stub(t), bound),
        },
        Next::Back => 0,
    }
}

/// What a program point costs: its instruction, and what it calls.
fn place_cost(
    system: &SparcSystem,
    cycles: &Cycles,
    facts: &Facts<Key, Fact>,
    bound: Option<u64>,
    p: Place,
) -> u64
    requires { IsTold bound }
    ensures { (pieces : List Piece) → result ≡ place_cost (setting_of system.now cycles.now pieces) (fact_at compare facts.now) bound p }
{
    own_place_cost(system.image(), cycles, p) + called_cost(system.binding(), facts, bound, p)
}

/// What the program points of a context cost, by the bounds of the contexts to which their calls lead.
fn node_costs(
    alloc: Global,
    system: &SparcSystem,
    cycles: &Cycles,
    facts: &Facts<Key, Fact>,
    nodes: &[Place],
    bounds: &[Option<u64>],
) -> Result<Vec<u64>, Want>
    requires count { length bounds.now ≡ length nodes.now }
    requires told { All IsTold bounds.now }
    ensures { (pieces : List Piece) → IfOk result (λ list. list.items ≡ costs_at (setting_of system.now cycles.now pieces) (fact_at compare facts.now) nodes.now bounds.now) }
{
    let mut list = Vec::with_capacity(alloc, nodes.len())?;
    for (i, p) in nodes.iter().enumerate() {
        list.push(place_cost(system, cycles, facts, bounds[i], *p))?;
    }
    Ok(list)
}

/// What the walks through a context cost, by the bounds of the contexts to which the calls at its program points lead: a
/// bound, or none, for each.
pub fn costs_of(
    alloc: Global,
    system: &SparcSystem,
    cycles: &Cycles,
    facts: &Facts<Key, Fact>,
    sub: u32,
    nodes: &[Place],
    graph: &Graph,
    bounds: &[Option<u64>],
) -> Result<Costs, Want>
    requires graph { length graph.now ≡ length nodes.now }
    requires count { length bounds.now ≡ length nodes.now }
    requires told { All IsTold bounds.now }
    ensures start { (pieces : List Piece) → IfOk result (λ costs. costs.start ≡ start_cost (setting_of system.now cycles.now pieces) sub) }
    ensures node { (pieces : List Piece) → IfOk result (λ costs. costs.node.items ≡ costs_at (setting_of system.now cycles.now pieces) (fact_at compare facts.now) nodes.now bounds.now) }
    ensures extra { IfOk result (λ costs. (n m : ℕ) → extra_of costs.extra.items n m ≡ (if is_edge graph.now n m then cost_between system.now.image cycles.now nodes.now n m else 0)) }
{
    let node = node_costs(alloc, system, cycles, facts, nodes, bounds)?;
    let extra = extras_of(alloc, system.image(), cycles, nodes, graph)?;
    Ok(Costs {
        start: start_cost(system.image(), cycles, sub),
        node,
        extra,
    })
}
