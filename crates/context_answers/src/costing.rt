//! The greatest cost of a context against whose bound there is no other reason.
ghost use Rattle.std.specs.Prelude.{◌≡◌, ◌∷◌, [], List, All, IfOk, Some, None, length, map, vec_len};
ghost use Rattle.bt_base.specs.Graph.{is_edge};
ghost use Rattle.context_answers.specs.Found.{IsCosted, IsLimited, IsReady, passes_in};
ghost use Rattle.context_bounds.specs.Nodes.{IsTold};
ghost use Rattle.context_bounds.specs.Setting.{setting_of};
ghost use Rattle.context_heads.specs.Passes.{AllowsOne};
ghost use Rattle.loop_nest.specs.LoopNest.{IsLoopNest};
ghost use Rattle.transfer_rules.specs.Fact.{Piece};
ghost use Rattle.wcet_report.specs.declared.reason.Reason.TheVariants as reason;

use crate::answer::Answer;
use abs_state::Place;
use bt_base::Want;
use context_bounds::{costs_of, passes_by};
use context_inside::Within;
use cycle_table::Cycles;
use loop_nest::LoopNest;
use path_bound::{PathRefusal, longest};
use std::alloc::Global;
use transfer_fns::SparcSystem;
use wcet_report::{LoopOutcome, Loops, Reason, Reasons};

/// How often the head of a loop is passed at most; 0 where nothing bounds it.
fn passes_at(outcome: &LoopOutcome) -> u64
    ensures { result ≡ passes_in outcome.now }
{
    passes_by(outcome.by).unwrap_or(0)
}

/// How often the head of each loop is passed at most.
fn passes_of(alloc: Global, outcomes: &[LoopOutcome]) -> Result<Vec<u64>, Want>
    ensures { IfOk result (λ passes. passes.items ≡ map passes_in outcomes.now) }
{
    let mut passes = Vec::with_capacity(alloc, outcomes.len())?;
    for outcome in outcomes {
        passes.push(passes_at(outcome))?;
    }
    Ok(passes)
}

/// What a context comes to whose greatest cost is told.
fn told(alloc: Global, outcomes: Vec<LoopOutcome>, cost: u64) -> Answer
    ensures loops { result.loops ≡ outcomes.items }
    ensures reasons { result.reasons ≡ [] }
    ensures bound { result.bound ≡ Some cost }
{
    Answer {
        loops: Loops::new(outcomes),
        reasons: Reasons::new(Vec::new(alloc)),
        bound: Some(cost),
    }
}

/// What a context comes to whose greatest cost is too large, with the program point that is named for it.
fn too_large(alloc: Global, outcomes: Vec<LoopOutcome>, place: Place) -> Result<Answer, Want>
    ensures loops { IfOk result (λ answer. answer.loops ≡ outcomes.items) }
    ensures reasons { IfOk result (λ answer. answer.reasons ≡ reason.TooLarge place ∷ []) }
    ensures bound { IfOk result (λ answer. answer.bound ≡ None) }
{
    let mut reasons = Vec::new(alloc);
    reasons.push(Reason::TooLarge(place))?;
    Ok(Answer {
        loops: Loops::new(outcomes),
        reasons: Reasons::new(reasons),
        bound: None,
    })
}

/// What a context comes to against whose bound there is no reason but perhaps its cost: the greatest cost of its walks, in
/// cycles, or that it is 2^63 or more, with the program point that is named for it.
pub fn costed(
    alloc: Global,
    system: &SparcSystem,
    cycles: &Cycles,
    sub: u32,
    within: &Within,
    bounds: &[Option<u64>],
    nest: &LoopNest,
    outcomes: Vec<LoopOutcome>,
) -> Result<Answer, Want>
    requires ready { IsReady within.now }
    requires nest { IsLoopNest (is_edge within.now.graph) within.now.entry nest.now }
    requires count { length bounds.now ≡ length within.now.nodes.items }
    requires told { All IsTold bounds.now }
    requires each { vec_len outcomes ≡ length nest.now }
    requires limited { All IsLimited outcomes.items }
    requires passes { All AllowsOne outcomes.items }
    ensures { (pieces : List Piece) → IfOk result (IsCosted (setting_of system.now cycles.now pieces) sub within.now bounds.now nest.now outcomes.items) }
{
    let passes = passes_of(alloc, &outcomes)?;
    let costs = costs_of(
        alloc,
        system,
        cycles,
        &within.facts,
        sub,
        &within.nodes,
        &within.graph,
        bounds,
    )?;
    match longest(alloc, &within.graph, nest, within.entry, &passes, &costs) {
        Ok(long) => Ok(told(alloc, outcomes, long.cost)),
        Err(PathRefusal::TooLarge { node }) => {
            too_large(alloc, outcomes, within.nodes[node as usize])
        }
        Err(PathRefusal::Want) => Err(Want),
    }
}
