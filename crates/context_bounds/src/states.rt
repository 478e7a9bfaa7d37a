//! What is left of the states of a context where the assertions hold, and what its program points change.
ghost use Rattle.std.specs.Prelude.{◌≡◌, ◌<◌, ℕ, List, Some, IfOk, All, map};
ghost use Rattle.abs_state.specs.Key.{compare};
ghost use Rattle.abs_state.specs.State.{State};
ghost use Rattle.context_bounds.specs.Low.{IsLow};
ghost use Rattle.context_bounds.specs.Setting.{setting_of};
ghost use Rattle.context_bounds.specs.States.{HasStateOver, left_at};
ghost use Rattle.context_outcomes.specs.Counting.{change_at};
ghost use Rattle.flow_system.specs.Facts.{fact_at};

use crate::changing::change_at;
use abs_state::{AbsState, Key, Place};
use assert_bind::Binding;
use bt_base::Want;
use counter_bound::Change;
use flow_system::Facts;
use std::alloc::Global;
use transfer_fns::SparcSystem;
use transfer_rules::Fact;
use transfer_values::narrowed;
use value_lattice::Thresholds;

/// What is left of the state at a program point where the assertions there hold; none where the facts have no such point,
/// or nothing is left.
pub fn state_at(
    alloc: Global,
    t: &Thresholds,
    binding: &Binding,
    facts: &Facts<Key, Fact>,
    p: Place,
) -> Result<Option<AbsState>, Want>
    requires depth { p.depth < 2 }
    requires over { HasStateOver t.now (fact_at compare facts.now) p }
    ensures { IfOk result (λ s. s ≡ left_at t.now binding.now (fact_at compare facts.now) p) }
{
    match facts.get(Key::Node(p)) {
        Some(Fact::State(s)) => narrowed(alloc, t, binding, p, s),
        _ => Ok(None),
    }
}

/// What each program point of a context changes, in their order. `facts` are those of the context, over its thresholds, and
/// `whole` those of the whole program.
pub fn changes_of(
    alloc: Global,
    system: &SparcSystem,
    whole: &Facts<Key, Fact>,
    t: &Thresholds,
    facts: &Facts<Key, Fact>,
    nodes: &[Place],
) -> Result<Vec<Change>, Want>
    requires depths { All (λ p. p.depth < 2) nodes.now }
    requires over { All (HasStateOver t.now (fact_at compare facts.now)) nodes.now }
    ensures low { IfOk result (λ list. All IsLow list.items) }
    ensures value { (costs : List ℕ) → IfOk result (λ list. list.items ≡ map (λ p. change_at (setting_of system.now costs whole.now) p (left_at t.now system.now.binding (fact_at compare facts.now) p)) nodes.now) }
{
    let mut list = Vec::with_capacity(alloc, nodes.len())?;
    for p in nodes {
        let state = state_at(alloc, t, system.binding(), facts, *p)?;
        list.push(change_at(system, whole, *p, &state))?;
    }
    Ok(list)
}
