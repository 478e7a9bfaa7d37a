//! The contexts of a program, and what each comes to.
ghost use Rattle.std.specs.Prelude.{◌≡◌, ◌≤◌, IfErr, IfOk, MatchResult, length};
ghost use Rattle.std.specs.Map.{keys_of};
ghost use Rattle.abs_state.specs.Key.{compare};
ghost use Rattle.callee_context.specs.Answered.{AreAnswered, IsRefusal};
ghost use Rattle.callee_context.specs.Program.{IsKnown, setting_in};
ghost use Rattle.callee_context.specs.Worklist.{IsOverfull};
ghost use Rattle.context_bounds.specs.Setting.{setting_of};
ghost use Rattle.context_outcomes.specs.Outcomes.{AreOutcomes};
ghost use Rattle.context_outcomes.specs.Refusals.{most_contexts};
ghost use Rattle.flow_system.specs.Facts.{fact_at};
ghost use Rattle.flow_system.specs.State.{IsDueGraph};
ghost use Rattle.graph_view.specs.View.{AreViewed, by_kind};
ghost use Rattle.transfer_fns.specs.Setting.{rules_over};

use crate::ContextRefusal;
use crate::collecting::needed;
use crate::program::Program;
use crate::telling::{outcomes_of, roots_of};
use abs_state::Key;
use context_bounds::own_rows;
use context_order::answers_of;
use cycle_table::Cycles;
use flow_system::Facts;
use graph_view::View;
use loop_lines::unmatched;
use plain_bounds::plain_bounds;
use std::alloc::Global;
use transfer_fns::SparcSystem;
use transfer_rules::Fact;
use wcet_report::{OutcomeList, Outcomes};

/// What each context comes to that is needed for the roots.
fn told(alloc: Global, program: &Program<'_>) -> Result<Outcomes, ContextRefusal>
    requires known { IsKnown program.now }
    ensures outcomes { IfOk result (AreOutcomes (setting_in program.now)) }
    ensures few { IfOk result (λ outcomes. length outcomes.list ≤ most_contexts) }
    ensures refused { IfErr result (IsOverfull (setting_in program.now)) }
{
    let (found, opened) = needed(alloc, program)?;
    let answers = answers_of(
        alloc,
        program.system,
        program.cycles,
        program.facts,
        program.view,
        &found,
        &opened,
    )?;
    let list = outcomes_of(alloc, &found, answers)?;
    let roots = roots_of(alloc, program.system.binding())?;
    Ok(Outcomes {
        roots,
        list: OutcomeList::new(list),
    })
}

/// What each context comes to that is needed for the roots, by the due graph.
fn all_told(
    alloc: Global,
    system: &SparcSystem,
    cycles: &Cycles,
    facts: &Facts<Key, Fact>,
    view: &View,
) -> Result<Outcomes, ContextRefusal>
    requires due { IsDueGraph (rules_over system.now.thresholds system.now.image system.now.binding system.now.eight) (fact_at compare facts.now) }
    requires keys { AreViewed (keys_of facts.now) }
    requires view { view.now ≡ by_kind (keys_of facts.now) }
    ensures outcomes { IfOk result (AreOutcomes (setting_of system.now cycles.now facts.now)) }
    ensures few { IfOk result (λ outcomes. length outcomes.list ≤ most_contexts) }
    ensures refused { IfErr result (IsOverfull (setting_of system.now cycles.now facts.now)) }
{
    system.thresholds().are_thresholds();
    let plain = plain_bounds(alloc, system, cycles, facts, view)?;
    let keys = facts.keys(alloc)?;
    let rows = own_rows(alloc, &plain.subs, &keys)?;
    let program = Program {
        system,
        cycles,
        facts,
        view,
        plain: &plain,
        rows: &rows,
    };
    told(alloc, &program)
}

/// What each context comes to that is needed for the roots: its loops with what bounds them, the reasons why it has no
/// bound, and the bound of one that has none, in cycles.
///
/// The facts are those of all runs: the due graph of the system, and the view is of their keys. Unmatched comes exactly
/// where an asserted loop is matched by no loop, with the least line; TooMany exactly where all are matched and more than
/// 4,096 contexts are needed. The work is that of each subprogram once for each of its contexts.
pub fn contexts(
    alloc: Global,
    system: &SparcSystem,
    cycles: &Cycles,
    facts: &Facts<Key, Fact>,
    view: &View,
) -> Result<Outcomes, ContextRefusal>
    requires due { IsDueGraph (rules_over system.now.thresholds system.now.image system.now.binding system.now.eight) (fact_at compare facts.now) }
    requires keys { AreViewed (keys_of facts.now) }
    requires view { view.now ≡ by_kind (keys_of facts.now) }
    ensures { MatchResult result (AreAnswered (setting_of system.now cycles.now facts.now)) (IsRefusal (setting_of system.now cycles.now facts.now)) }
{
    match unmatched(alloc, system, facts, view)? {
        Some(line) => Err(ContextRefusal::Unmatched { line }),
        None => all_told(alloc, system, cycles, facts, view),
    }
}
