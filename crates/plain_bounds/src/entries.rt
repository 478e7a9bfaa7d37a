//! What a table shows of the bound of one subprogram.
ghost use Rattle.std.specs.Prelude.{◌≡◌, ◌<◌, IfOk, length, slice_index_or};
ghost use Rattle.std.specs.Map.{keys_of};
ghost use Rattle.context_bounds.specs.Setting.{setting_of};
ghost use Rattle.context_inside.specs.Laws.{AreDue};
ghost use Rattle.graph_view.specs.View.{AreViewed, by_kind};
ghost use Rattle.plain_bounds.specs.Contexts.{ArePlainContexts, IsPlainWithin};
ghost use Rattle.plain_bounds.specs.Filled.{AllBounded, AreKnown, IsFound};
ghost use Rattle.plain_bounds.specs.Table.{IsPlainBound};

use crate::contexts::Contexts;
use abs_state::Key;
use bt_base::Want;
use context_answers::answer_of;
use context_inside::{Within, within_of};
use cycle_table::Cycles;
use flow_system::Facts;
use graph_view::View;
use plain_parts::{Standing, bounds_at, standing_of};
use std::alloc::Global;
use transfer_fns::SparcSystem;
use transfer_rules::Fact;

/// The same keys.
fn copy_keys(alloc: Global, keys: &[Key]) -> Result<Vec<Key>, Want>
    ensures { IfOk result (λ copy. copy.items ≡ keys.now) }
{
    let copy = keys.iter().copied().collect(alloc)?;
    Ok(copy)
}

/// The bound of a plain context all of whose followed calls a table has a bound for, or none where there is a reason against it.
fn bound_within(
    alloc: Global,
    system: &SparcSystem,
    cycles: &Cycles,
    whole: &Facts<Key, Fact>,
    view: &View,
    subs: &[u32],
    table: &[Option<Option<u64>>],
    sub: u32,
    within: &Within,
) -> Result<Option<u64>, Want>
    requires due { AreDue (setting_of system.now cycles.now whole.now) }
    requires view { view.now ≡ by_kind (keys_of whole.now) }
    requires known { AreKnown (setting_of system.now cycles.now whole.now) subs.now table.now }
    requires within { IsPlainWithin (setting_of system.now cycles.now whole.now) sub within.now }
    requires entered { AllBounded (setting_of system.now cycles.now whole.now) subs.now table.now sub within.now }
    ensures { IfOk result (IsPlainBound (setting_of system.now cycles.now whole.now) sub) }
{
    let bounds = bounds_at(alloc, subs, table, &within.nodes)?;
    let answer = answer_of(alloc, system, cycles, whole, view, sub, within, &bounds)?;
    Ok(answer.bound)
}

/// What a table shows of the bound of a subprogram, by its plain context: nothing yet where this enters one of which the table
/// has nothing, and else the bound, or that there is none.
fn entry_within(
    alloc: Global,
    system: &SparcSystem,
    cycles: &Cycles,
    whole: &Facts<Key, Fact>,
    view: &View,
    subs: &[u32],
    table: &[Option<Option<u64>>],
    sub: u32,
    within: &Within,
) -> Result<Option<Option<u64>>, Want>
    requires due { AreDue (setting_of system.now cycles.now whole.now) }
    requires view { view.now ≡ by_kind (keys_of whole.now) }
    requires known { AreKnown (setting_of system.now cycles.now whole.now) subs.now table.now }
    requires within { IsPlainWithin (setting_of system.now cycles.now whole.now) sub within.now }
    ensures { IfOk result (IsFound (setting_of system.now cycles.now whole.now) subs.now table.now sub) }
{
    match standing_of(
        system.binding(),
        view,
        subs,
        table,
        &within.facts,
        sub,
        &within.nodes,
    ) {
        Standing::Waits => Ok(None),
        Standing::Open => Ok(Some(None)),
        Standing::Bounded => {
            let bound = bound_within(alloc, system, cycles, whole, view, subs, table, sub, within)?;
            Ok(Some(bound))
        }
    }
}

/// What a table shows of the bound of a listed subprogram: nothing yet where its plain context enters one of which the table has
/// nothing, and else the bound, or that there is none.
pub fn entry_of(
    alloc: Global,
    system: &SparcSystem,
    cycles: &Cycles,
    whole: &Facts<Key, Fact>,
    view: &View,
    contexts: &Contexts,
    table: &[Option<Option<u64>>],
    number: usize,
) -> Result<Option<Option<u64>>, Want>
    requires due { AreDue (setting_of system.now cycles.now whole.now) }
    requires viewed { AreViewed (keys_of whole.now) }
    requires view { view.now ≡ by_kind (keys_of whole.now) }
    requires plain { ArePlainContexts (setting_of system.now cycles.now whole.now) contexts.now }
    requires known { AreKnown (setting_of system.now cycles.now whole.now) contexts.now.subs.items table.now }
    requires within { number < length contexts.now.subs.items }
    ensures { IfOk result (IsFound (setting_of system.now cycles.now whole.now) contexts.now.subs.items table.now
        (slice_index_or contexts.now.subs.items number 0)) }
{
    let keep = copy_keys(alloc, &contexts.keys[number])?;
    let sub = contexts.subs[number];
    let within = within_of(alloc, system, whole, keep, sub, &contexts.arguments[number])?;
    entry_within(
        alloc,
        system,
        cycles,
        whole,
        view,
        &contexts.subs,
        table,
        sub,
        &within,
    )
}
