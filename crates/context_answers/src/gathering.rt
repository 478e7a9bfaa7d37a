//! The reasons against a bound that a view of the facts shows.
ghost use Rattle.std.specs.Prelude.{◌≡◌, ◌↔◌, ◌++◌, Contains, IfOk, OnOk, length, map};
ghost use Rattle.std.specs.List.{flat_map};
ghost use Rattle.abs_state.specs.Key.{compare};
ghost use Rattle.context_answers.specs.Adding.{IsCommon, gap_reason, loop_reasons, window_reasons};
ghost use Rattle.flow_system.specs.Facts.{fact_at};
ghost use Rattle.graph_view.specs.View.{IsViewed};
ghost use Rattle.wcet_report.specs.declared.reason.Reason.{Reason as AnyReason};
ghost use Rattle.wcet_report.specs.declared.reason.Reason.TheVariants as reason;

use crate::calling::push_calls;
use abs_state::GapKind;
use assert_bind::Binding;
use bt_base::Want;
use context_inside::Within;
use graph_view::View;
use std::alloc::Global;
use wcet_report::{By, LoopOutcome, Reason};

/// How many register windows there are below that of an entry: of eight one is kept free.
const WINDOWS: u32 = 6;

/// That something isn't known behind an instruction.
fn gap_reason(why: GapKind, pc: u32) -> Reason
    ensures { result ≡ gap_reason why pc }
{
    match why {
        GapKind::Jump => Reason::Jump(pc),
        GapKind::Call => Reason::Call(pc),
        GapKind::Instr => Reason::Instr(pc),
    }
}

/// Appends what isn't known behind instructions.
fn push_gaps(reasons: &mut Vec<Reason>, gaps: &[(GapKind, u32)]) -> Result<(), Want>
    ensures { OnOk result (reasons.new.items ≡ reasons.old.items ++ map (λ gap. gap_reason gap.0 gap.1) gaps.now) }
{
    for gap in gaps {
        reasons.push(gap_reason(gap.0, gap.1))?;
    }
    Ok(())
}

/// Appends calls inside a call cycle, by their addresses.
fn push_recursions(reasons: &mut Vec<Reason>, addresses: &[u32]) -> Result<(), Want>
    ensures { OnOk result (reasons.new.items ≡ reasons.old.items ++ map (λ pc. reason.Recursion pc) addresses.now) }
{
    for pc in addresses {
        reasons.push(Reason::Recursion(*pc))?;
    }
    Ok(())
}

/// Appends that more register windows are needed than there are, where they are.
fn push_windows(reasons: &mut Vec<Reason>, need: Option<u32>) -> Result<(), Want>
    ensures { OnOk result (reasons.new.items ≡ reasons.old.items ++ window_reasons need) }
{
    match need {
        None => Ok(()),
        Some(need) => {
            if WINDOWS < need {
                reasons.push(Reason::Windows(need))?;
            }
            Ok(())
        }
    }
}

/// Appends that nothing bounds a loop, where nothing does.
fn push_loop(reasons: &mut Vec<Reason>, outcome: &LoopOutcome) -> Result<(), Want>
    ensures { OnOk result (reasons.new.items ≡ reasons.old.items ++ loop_reasons outcome.now) }
{
    match outcome.by {
        By::Counter(_) => Ok(()),
        By::Asserted(_) => Ok(()),
        By::Nothing => {
            reasons.push(Reason::Loop(outcome.head))?;
            Ok(())
        }
    }
}

/// Appends the loops that nothing bounds.
pub fn push_loops(reasons: &mut Vec<Reason>, outcomes: &[LoopOutcome]) -> Result<(), Want>
    ensures { OnOk result (reasons.new.items ≡ reasons.old.items ++ flat_map loop_reasons outcomes.now) }
{
    for outcome in outcomes {
        push_loop(reasons, outcome)?;
    }
    Ok(())
}

/// The reasons against a bound of a context but those of its loops and of its cost: what isn't known in its subprogram, the
/// calls inside the subprogram's call cycle, too many register windows, and calls into contexts without a bound.
pub fn common_reasons(
    alloc: Global,
    binding: &Binding,
    view: &View,
    sub: u32,
    within: &Within,
    bounds: &[Option<u64>],
) -> Result<Vec<Reason>, Want>
    requires viewed { IsViewed view.now sub }
    requires count { length bounds.now ≡ length within.now.nodes.items }
    ensures { IfOk result (λ list. (one : AnyReason) → Contains list.items one
        ↔ IsCommon binding.now view.now (fact_at compare within.now.facts) sub within.now.nodes.items bounds.now one) }
{
    let mut reasons = Vec::new(alloc);
    push_gaps(&mut reasons, view.gaps(sub))?;
    push_recursions(&mut reasons, view.recursive(sub))?;
    push_windows(&mut reasons, view.need(sub))?;
    push_calls(
        &mut reasons,
        binding,
        &within.facts,
        view,
        sub,
        &within.nodes,
        bounds,
    )?;
    Ok(reasons)
}
