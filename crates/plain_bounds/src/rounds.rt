//! The bounds of plain subprograms, as a table that is filled in rounds.
ghost use Rattle.std.specs.Prelude.{◌≡◌, ◌<◌, ◌+◌, true, false, ℕ, IfOk, OnOk, length};
ghost use Rattle.std.specs.Map.{keys_of};
ghost use Rattle.bt_base.specs.Graph.{has};
ghost use Rattle.context_bounds.specs.Setting.{setting_of};
ghost use Rattle.context_inside.specs.Laws.{AreDue};
ghost use Rattle.graph_view.specs.View.{AreViewed, by_kind};
ghost use Rattle.plain_bounds.specs.Contexts.{ArePlainContexts};
ghost use Rattle.plain_bounds.specs.Filled.{AreKnown, IsStuck};
ghost use Rattle.plain_parts.specs.Searched.{filled};

use crate::contexts::Contexts;
use crate::entries::entry_of;
use abs_state::Key;
use bt_base::Want;
use cycle_table::Cycles;
use flow_system::Facts;
use graph_view::View;
use plain_parts::empty_table;
use std::alloc::Global;
use transfer_fns::SparcSystem;
use transfer_rules::Fact;

/// Fills the entry of one subprogram, if it isn't known yet and can be found. Whether it was filled.
fn fill_at(
    alloc: Global,
    system: &SparcSystem,
    cycles: &Cycles,
    whole: &Facts<Key, Fact>,
    view: &View,
    contexts: &Contexts,
    table: &mut Vec<Option<Option<u64>>>,
    number: usize,
) -> Result<bool, Want>
    requires due { AreDue (setting_of system.now cycles.now whole.now) }
    requires viewed { AreViewed (keys_of whole.now) }
    requires view { view.now ≡ by_kind (keys_of whole.now) }
    requires plain { ArePlainContexts (setting_of system.now cycles.now whole.now) contexts.now }
    requires known { AreKnown (setting_of system.now cycles.now whole.now) contexts.now.subs.items table.old.items }
    requires within { number < length contexts.now.subs.items }
    ensures known { OnOk result (AreKnown (setting_of system.now cycles.now whole.now) contexts.now.subs.items table.new.items) }
    ensures more { IfOk result (λ full. full ≡ true → filled table.new.items ≡ 1 + filled table.old.items) }
    ensures same { IfOk result (λ full. full ≡ false → table.new.items ≡ table.old.items) }
    ensures stuck { IfOk result (λ full. full ≡ false → IsStuck (setting_of system.now cycles.now whole.now) contexts.now.subs.items table.new.items number) }
{
    if table[number].is_some() {
        return Ok(false);
    }
    match entry_of(alloc, system, cycles, whole, view, contexts, table, number)? {
        None => Ok(false),
        Some(bound) => {
            table[number] = Some(bound);
            Ok(true)
        }
    }
}

/// Fills what can be found, from the last of some numbers to the first.
fn pass_back(
    alloc: Global,
    system: &SparcSystem,
    cycles: &Cycles,
    whole: &Facts<Key, Fact>,
    view: &View,
    contexts: &Contexts,
    table: &mut Vec<Option<Option<u64>>>,
    order: &[u32],
) -> Result<(), Want>
    requires due { AreDue (setting_of system.now cycles.now whole.now) }
    requires viewed { AreViewed (keys_of whole.now) }
    requires view { view.now ≡ by_kind (keys_of whole.now) }
    requires plain { ArePlainContexts (setting_of system.now cycles.now whole.now) contexts.now }
    requires known { AreKnown (setting_of system.now cycles.now whole.now) contexts.now.subs.items table.old.items }
    requires order { (n : ℕ) → has order.now n ≡ true → n < length contexts.now.subs.items }
    ensures { OnOk result (AreKnown (setting_of system.now cycles.now whole.now) contexts.now.subs.items table.new.items) }
{
    for place in 0..order.len() {
        let number = order[order.len() - 1 - place] as usize;
        fill_at(alloc, system, cycles, whole, view, contexts, table, number)?;
    }
    Ok(())
}

/// Fills what can be found, in rising order. Whether an entry was filled.
fn pass_up(
    alloc: Global,
    system: &SparcSystem,
    cycles: &Cycles,
    whole: &Facts<Key, Fact>,
    view: &View,
    contexts: &Contexts,
    table: &mut Vec<Option<Option<u64>>>,
) -> Result<bool, Want>
    requires due { AreDue (setting_of system.now cycles.now whole.now) }
    requires viewed { AreViewed (keys_of whole.now) }
    requires view { view.now ≡ by_kind (keys_of whole.now) }
    requires plain { ArePlainContexts (setting_of system.now cycles.now whole.now) contexts.now }
    requires known { AreKnown (setting_of system.now cycles.now whole.now) contexts.now.subs.items table.old.items }
    ensures known { OnOk result (AreKnown (setting_of system.now cycles.now whole.now) contexts.now.subs.items table.new.items) }
    ensures more { IfOk result (λ changed. changed ≡ true → filled table.old.items < filled table.new.items) }
    ensures stuck { IfOk result (λ changed. changed ≡ false → (n : ℕ) → n < length contexts.now.subs.items
        → IsStuck (setting_of system.now cycles.now whole.now) contexts.now.subs.items table.new.items n) }
{
    let mut changed = false;
    for number in 0..contexts.subs.len() {
        if fill_at(alloc, system, cycles, whole, view, contexts, table, number)? {
            changed = true;
        }
    }
    Ok(changed)
}

/// What is known of the bound of each of the subprograms once no more can be found.
///
/// A table is filled by passes until one fills nothing. The first follows an order of the subprograms' numbers, from its end:
/// where callees come behind their callers there, it finds all, and the least map of each plain context is worked out once.
/// Each later pass works out again those of which nothing is known yet. What is found is the same whatever the order.
pub fn filled_table(
    alloc: Global,
    system: &SparcSystem,
    cycles: &Cycles,
    whole: &Facts<Key, Fact>,
    view: &View,
    contexts: &Contexts,
    order: &[u32],
) -> Result<Vec<Option<Option<u64>>>, Want>
    requires due { AreDue (setting_of system.now cycles.now whole.now) }
    requires viewed { AreViewed (keys_of whole.now) }
    requires view { view.now ≡ by_kind (keys_of whole.now) }
    requires plain { ArePlainContexts (setting_of system.now cycles.now whole.now) contexts.now }
    requires order { (n : ℕ) → has order.now n ≡ true → n < length contexts.now.subs.items }
    ensures known { IfOk result (λ table. AreKnown (setting_of system.now cycles.now whole.now) contexts.now.subs.items table.items) }
    ensures stuck { IfOk result (λ table. (n : ℕ) → n < length contexts.now.subs.items
        → IsStuck (setting_of system.now cycles.now whole.now) contexts.now.subs.items table.items n) }
{
    let mut table = empty_table(alloc, contexts.subs.len())?;
    pass_back(
        alloc, system, cycles, whole, view, contexts, &mut table, order,
    )?;
    for _round in 0..contexts.subs.len() + 1 {
        if !pass_up(alloc, system, cycles, whole, view, contexts, &mut table)? {
            return Ok(table);
        }
    }
    Ok(table)
}
