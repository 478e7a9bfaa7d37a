//! The answer of one context, by those of its callees.
ghost use Rattle.std.specs.Prelude.{◌≡◌, ◌<◌, IfOk, length};
ghost use Rattle.std.specs.Map.{keys_of};
ghost use Rattle.context_bounds.specs.Setting.{setting_of};
ghost use Rattle.context_order.specs.Filled.{AreFilled, IsFound};
ghost use Rattle.context_order.specs.Opened.{AreOpened};
ghost use Rattle.graph_view.specs.View.{by_kind};

use crate::known::{are_known, bounds_by};
use crate::opened::Opened;
use abs_state::Key;
use bt_base::Want;
use context_answers::{Answer, answer_of};
use context_list::Found;
use cycle_table::Cycles;
use flow_system::Facts;
use graph_view::View;
use std::alloc::Global;
use transfer_fns::SparcSystem;
use transfer_rules::Fact;

/// What the context with a number in a list comes to; nothing yet where one of its calls leads to a context of which the table
/// has no answer.
pub fn answer_at(
    alloc: Global,
    system: &SparcSystem,
    cycles: &Cycles,
    whole: &Facts<Key, Fact>,
    view: &View,
    found: &Found,
    opened: &[Opened],
    table: &[Option<Answer>],
    number: usize,
) -> Result<Option<Answer>, Want>
    requires view { view.now ≡ by_kind (keys_of whole.now) }
    requires opened { AreOpened (setting_of system.now cycles.now whole.now) found.now opened.now }
    requires count { length opened.now ≡ length found.now }
    requires filled { AreFilled (setting_of system.now cycles.now whole.now) found.now table.now }
    requires within { number < length found.now }
    ensures { IfOk result (IsFound (setting_of system.now cycles.now whole.now) found.now table.now number) }
{
    let one = &opened[number];
    if !are_known(table, &one.links) {
        return Ok(None);
    }
    let bounds = bounds_by(alloc, table, &one.links)?;
    let sub = found.get(number).0;
    let answer = answer_of(
        alloc,
        system,
        cycles,
        whole,
        view,
        sub,
        &one.within,
        &bounds,
    )?;
    Ok(Some(answer))
}
