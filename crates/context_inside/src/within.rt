//! A context from within: its facts and its graph.
ghost use Rattle.std.specs.Prelude.{◌≡◌, ℕ, List, IfOk, length};
ghost use Rattle.std.specs.Map.{keys_of};
ghost use Rattle.abs_state.specs.Key.{compare};
ghost use Rattle.context_bounds.specs.Own.{own_keys};
ghost use Rattle.context_bounds.specs.Setting.{setting_of};
ghost use Rattle.context_inside.specs.Within.{IsWithin};
ghost use Rattle.flow_system.specs.Facts.{fact_at};
ghost use Rattle.flow_system.specs.State.{IsDueGraph};
ghost use Rattle.graph_view.specs.View.{AreViewed};
ghost use Rattle.transfer_fns.specs.Setting.{rules_over};
ghost use Rattle.transfer_rules.specs.Closed.{HasState};
ghost use Rattle.transfer_rules.specs.Give.{entered_with, entry_of};

use crate::knowing::facts_of;
use crate::shaping::shaped;
use abs_state::{Args, Key, Place};
use bt_base::{Graph, Want};
use context_bounds::thresholds_with;
use flow_system::Facts;
use std::alloc::Global;
use transfer_fns::SparcSystem;
use transfer_rules::Fact;
use value_lattice::Thresholds;

/// A context from within.
#[derive(Drop)]
pub struct Within {
    /// Its facts: the program points, steps and calls of its subprogram that are reached with its arguments.
    pub facts: Facts<Key, Fact>,
    /// Its program points, rising; the number of each is its place here.
    pub nodes: Vec<Place>,
    /// Its steps, as a graph of the numbers of its program points.
    pub graph: Graph,
    /// The number of the program point at which it is entered.
    pub entry: u32,
    /// Its thresholds: those of the program, and the numbers of its arguments.
    pub thresholds: Thresholds,
}

/// The context of a subprogram that is entered with these arguments, 13 in all, from within.
///
/// `whole` are the facts of all runs of the program, `keep` those of its program points, steps and calls that are the
/// subprogram's, and `whole` has the entry with at least these arguments. The work is that of the least map over the kept
/// keys.
pub fn within_of(
    alloc: Global,
    system: &SparcSystem,
    whole: &Facts<Key, Fact>,
    keep: Vec<Key>,
    sub: u32,
    args: &Args,
) -> Result<Within, Want>
    requires count { length args.now ≡ 13 }
    requires due { IsDueGraph (rules_over system.now.thresholds system.now.image system.now.binding system.now.eight) (fact_at compare whole.now) }
    requires viewed { AreViewed (keys_of whole.now) }
    requires keep { keep.items ≡ own_keys (keys_of whole.now) sub }
    requires below { HasState (fact_at compare whole.now) (entry_of sub) (entered_with args.now) }
    ensures { IfOk result (λ within. (costs : List ℕ) → IsWithin (setting_of system.now costs whole.now) sub args.now within) }
{
    let program = system.thresholds();
    program.are_thresholds();
    let facts = facts_of(alloc, system, whole, keep, sub, &args.list)?;
    let _held = facts.len();
    let thresholds = thresholds_with(alloc, program, &args.list)?;
    shaped(alloc, facts, sub, thresholds)
}
