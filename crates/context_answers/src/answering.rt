//! What one context comes to.
ghost use Rattle.std.specs.Prelude.{◌≡◌, List, All, IfOk, length, map};
ghost use Rattle.std.specs.Map.{keys_of};
ghost use Rattle.context_answers.specs.Answered.{IsAnswer, IsOpened};
ghost use Rattle.context_bounds.specs.Nodes.{IsTold};
ghost use Rattle.context_bounds.specs.Setting.{setting_of};
ghost use Rattle.context_inside.specs.Within.{IsWithin, inside_of};
ghost use Rattle.context_outcomes.specs.Arguments.{AreArgumentsOf};
ghost use Rattle.context_outcomes.specs.Spending.{Callees};
ghost use Rattle.graph_view.specs.View.{by_kind};
ghost use Rattle.value_lattice.specs.declared.value.Value.{Value as Known};
ghost use Rattle.wcet_report.specs.declared.context.Context.{Context};

use crate::answer::Answer;
use crate::gathering::common_reasons;
use crate::nesting::{nested, split};
use abs_state::Key;
use bt_base::Want;
use context_inside::Within;
use cycle_table::Cycles;
use flow_system::Facts;
use graph_view::View;
use loop_nest::{NestRefusal, nest};
use std::alloc::Global;
use transfer_fns::SparcSystem;
use transfer_rules::Fact;

/// What a context of a subprogram comes to: its loops with what bounds each, all reasons against a bound, and where there
/// is none the greatest cost of its walks, in cycles.
///
/// `whole` are the facts of all runs of the program and `view` shows their keys; `within` is the context, and `bounds` has
/// for each of its program points, in their order, the bound of the context to which its call leads, if it has one.
pub fn answer_of(
    alloc: Global,
    system: &SparcSystem,
    cycles: &Cycles,
    whole: &Facts<Key, Fact>,
    view: &View,
    sub: u32,
    within: &Within,
    bounds: &[Option<u64>],
) -> Result<Answer, Want>
    requires view { view.now ≡ by_kind (keys_of whole.now) }
    requires opened { IsOpened (setting_of system.now cycles.now whole.now) sub within.now }
    requires count { length bounds.now ≡ length within.now.nodes.items }
    requires told { All IsTold bounds.now }
    ensures { (context : Context) (args : List Known) (callees : Callees)
        (arguments : AreArgumentsOf (setting_of system.now cycles.now whole.now) sub context args)
        (is : IsWithin (setting_of system.now cycles.now whole.now) sub args within.now)
        → map callees within.now.nodes.items ≡ bounds.now
        → IfOk result (IsAnswer (setting_of system.now cycles.now whole.now) (inside_of context arguments is) callees) }
{
    let reasons = common_reasons(alloc, system.binding(), view, sub, within, bounds)?;
    match nest(alloc, &within.graph, within.entry) {
        Ok(nest) => nested(
            alloc, system, cycles, whole, sub, within, bounds, &nest, reasons,
        ),
        Err(NestRefusal::TwoEntries { x, y }) => split(alloc, within, x, y, reasons),
        Err(NestRefusal::Want) => Err(Want),
    }
}
