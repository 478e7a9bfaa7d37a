//! What all contexts of a list come to.
ghost use Rattle.std.specs.Prelude.{◌≡◌, IfOk, length};
ghost use Rattle.std.specs.Map.{keys_of};
ghost use Rattle.context_bounds.specs.Setting.{setting_of};
ghost use Rattle.context_order.specs.Answered.{AreAnswers};
ghost use Rattle.context_order.specs.Filled.{AreFilled};
ghost use Rattle.context_order.specs.Opened.{AreOpened};
ghost use Rattle.graph_view.specs.View.{by_kind};

use crate::opened::Opened;
use crate::ordering::order;
use crate::rounds::{filled_table, first_table};
use crate::taking::taken;
use abs_state::Key;
use bt_base::Want;
use context_answers::Answer;
use context_list::Found;
use cycle_table::Cycles;
use flow_system::Facts;
use graph_view::View;
use std::alloc::Global;
use transfer_fns::SparcSystem;
use transfer_rules::Fact;

/// What each context of a list comes to, in their order, where a table has the answers of some. The others are worked out.
pub fn completed(
    alloc: Global,
    system: &SparcSystem,
    cycles: &Cycles,
    whole: &Facts<Key, Fact>,
    view: &View,
    found: &Found,
    opened: &[Opened],
    table: Vec<Option<Answer>>,
) -> Result<Vec<Answer>, Want>
    requires view { view.now ≡ by_kind (keys_of whole.now) }
    requires opened { AreOpened (setting_of system.now cycles.now whole.now) found.now opened.now }
    requires count { length opened.now ≡ length found.now }
    requires filled { AreFilled (setting_of system.now cycles.now whole.now) found.now table.items }
    ensures { IfOk result (λ answers. AreAnswers (setting_of system.now cycles.now whole.now) found.now answers.items) }
{
    let table = filled_table(alloc, system, cycles, whole, view, found, opened, table)?;
    let answers = taken(alloc, table)?;
    Ok(answers)
}

/// What each context of a list comes to, in their order: its loops with what bounds each, all reasons against a bound, and where
/// there is none the bound, in cycles.
///
/// `whole` are the facts of all runs of the program and `view` shows their keys; `opened` has each context from within, and its
/// calls lead to contexts of the list. Each is worked out once.
pub fn answers_of(
    alloc: Global,
    system: &SparcSystem,
    cycles: &Cycles,
    whole: &Facts<Key, Fact>,
    view: &View,
    found: &Found,
    opened: &[Opened],
) -> Result<Vec<Answer>, Want>
    requires view { view.now ≡ by_kind (keys_of whole.now) }
    requires opened { AreOpened (setting_of system.now cycles.now whole.now) found.now opened.now }
    requires count { length opened.now ≡ length found.now }
    ensures { IfOk result (λ answers. AreAnswers (setting_of system.now cycles.now whole.now) found.now answers.items) }
{
    let order = order(alloc, opened)?;
    let table = first_table(alloc, system, cycles, whole, view, found, opened, &order)?;
    completed(alloc, system, cycles, whole, view, found, opened, table)
}
