//! What a context comes to by the nest of its graph, or where this has none.
ghost use Rattle.std.specs.Prelude.{◌≡◌, ◌<◌, ℕ, List, All, IfOk, None, length};
ghost use Rattle.bt_base.specs.Graph.{is_edge};
ghost use Rattle.context_answers.specs.Adding.{IsPutInOrder};
ghost use Rattle.context_answers.specs.Found.{AreHeads, IsNested, IsReady, IsSplit};
ghost use Rattle.context_bounds.specs.Nodes.{IsTold};
ghost use Rattle.context_bounds.specs.Setting.{setting_of};
ghost use Rattle.context_heads.specs.Passes.{AllowsOne};
ghost use Rattle.loop_nest.specs.LoopNest.{IsLoopNest};

use crate::answer::Answer;
use crate::costing::costed;
use crate::gathering::push_loops;
use crate::ordering::put_in_order;
use abs_state::Key;
use bt_base::Want;
use context_bounds::changes_of;
use context_heads::loop_outcomes;
use context_inside::Within;
use cycle_table::Cycles;
use flow_system::Facts;
use loop_nest::LoopNest;
use std::alloc::Global;
use transfer_fns::SparcSystem;
use transfer_rules::Fact;
use wcet_report::{LoopOutcome, Loops, Reason, Reasons};

/// The loops of a context with what bounds each.
fn outcomes_of(
    alloc: Global,
    system: &SparcSystem,
    whole: &Facts<Key, Fact>,
    within: &Within,
    nest: &LoopNest,
) -> Result<Vec<LoopOutcome>, Want>
    requires ready { IsReady within.now }
    requires nest { IsLoopNest (is_edge within.now.graph) within.now.entry nest.now }
    ensures heads { (costs : List ℕ) → IfOk result (λ list. AreHeads (setting_of system.now costs whole.now) within.now nest.now list.items) }
    ensures passes { IfOk result (λ list. All AllowsOne list.items) }
{
    let changes = changes_of(
        alloc,
        system,
        whole,
        &within.thresholds,
        &within.facts,
        &within.nodes,
    )?;
    loop_outcomes(
        alloc,
        &within.thresholds,
        system.binding(),
        &within.facts,
        &within.nodes,
        &within.graph,
        nest,
        &changes,
    )
}

/// What a context comes to against whose bound there are reasons, in any order.
fn refused(outcomes: Vec<LoopOutcome>, mut reasons: Vec<Reason>) -> Answer
    ensures loops { result.loops ≡ outcomes.items }
    ensures reasons { IsPutInOrder reasons.items result.reasons }
    ensures bound { result.bound ≡ None }
{
    put_in_order(&mut reasons);
    Answer {
        loops: Loops::new(outcomes),
        reasons: Reasons::new(reasons),
        bound: None,
    }
}

/// What a context comes to whose graph has a nest, by the reasons that aren't of its loops nor of its cost.
pub fn nested(
    alloc: Global,
    system: &SparcSystem,
    cycles: &Cycles,
    whole: &Facts<Key, Fact>,
    sub: u32,
    within: &Within,
    bounds: &[Option<u64>],
    nest: &LoopNest,
    mut reasons: Vec<Reason>,
) -> Result<Answer, Want>
    requires ready { IsReady within.now }
    requires nest { IsLoopNest (is_edge within.now.graph) within.now.entry nest.now }
    requires count { length bounds.now ≡ length within.now.nodes.items }
    requires told { All IsTold bounds.now }
    ensures { IfOk result (IsNested (setting_of system.now cycles.now whole.now) sub within.now bounds.now nest.now reasons.items) }
{
    let outcomes = outcomes_of(alloc, system, whole, within, nest)?;
    push_loops(&mut reasons, &outcomes)?;
    if reasons.is_empty() {
        costed(alloc, system, cycles, sub, within, bounds, nest, outcomes)
    } else {
        Ok(refused(outcomes, reasons))
    }
}

/// What a context comes to whose graph has a part that is entered at two program points.
pub fn split(
    alloc: Global,
    within: &Within,
    x: u32,
    y: u32,
    mut reasons: Vec<Reason>,
) -> Result<Answer, Want>
    requires one { x < length within.now.nodes.items }
    requires two { y < length within.now.nodes.items }
    ensures { IfOk result (IsSplit within.now x y reasons.items) }
{
    let one = within.nodes[x as usize];
    let two = within.nodes[y as usize];
    reasons.push(Reason::Irreducible(one, two))?;
    Ok(refused(Vec::new(alloc), reasons))
}
