//! Which subprograms are plain.
ghost use Rattle.std.specs.Prelude.{◌≡◌, IfOk};
ghost use Rattle.std.specs.Map.{keys_of};
ghost use Rattle.abs_state.specs.Key.{compare};
ghost use Rattle.context_bounds.specs.Setting.{setting_of};
ghost use Rattle.flow_system.specs.Facts.{fact_at};
ghost use Rattle.flow_system.specs.State.{IsDueGraph};
ghost use Rattle.graph_view.specs.View.{AreViewed, by_kind};
ghost use Rattle.plain_bounds.specs.Table.{ArePlainBounds};
ghost use Rattle.transfer_fns.specs.Setting.{rules_over};

use crate::contexts::contexts_of;
use crate::rounds::filled_table;
use crate::table::PlainBounds;
use abs_state::Key;
use bt_base::Want;
use cycle_table::Cycles;
use flow_system::Facts;
use graph_view::View;
use plain_parts::{order, settled_all};
use std::alloc::Global;
use transfer_fns::SparcSystem;
use transfer_rules::Fact;

/// Of each subprogram that is a root, or is called and no stub, the arguments of its plain context, and the bound of that where
/// the subprogram is plain.
///
/// `whole` are the facts of all runs of the program, and `view` shows their keys. The work is that of the least map of each
/// plain context, and of what that comes to.
pub fn plain_bounds(
    alloc: Global,
    system: &SparcSystem,
    cycles: &Cycles,
    whole: &Facts<Key, Fact>,
    view: &View,
) -> Result<PlainBounds, Want>
    requires due { IsDueGraph (rules_over system.now.thresholds system.now.image system.now.binding system.now.eight) (fact_at compare whole.now) }
    requires viewed { AreViewed (keys_of whole.now) }
    requires view { view.now ≡ by_kind (keys_of whole.now) }
    ensures { IfOk result (ArePlainBounds (setting_of system.now cycles.now whole.now)) }
{
    system.thresholds().are_thresholds();
    let keys = whole.keys(alloc)?;
    let contexts = contexts_of(alloc, system, whole, &keys)?;
    let order = order(alloc, &contexts.subs, &keys)?;
    let table = filled_table(alloc, system, cycles, whole, view, &contexts, &order)?;
    let bounds = settled_all(alloc, &table)?;
    Ok(PlainBounds {
        subs: contexts.subs,
        arguments: contexts.arguments,
        bounds,
    })
}
