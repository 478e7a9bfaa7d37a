//! The answers of all contexts, as a table that is filled in rounds.
ghost use Rattle.std.specs.Prelude.{◌≡◌, ◌<◌, ◌+◌, true, false, ℕ, IfOk, OnOk, length};
ghost use Rattle.std.specs.Map.{keys_of};
ghost use Rattle.bt_base.specs.Graph.{has};
ghost use Rattle.context_bounds.specs.Setting.{setting_of};
ghost use Rattle.context_order.specs.Filled.{AreFilled, HasAnswer, IsStuck, filled};
ghost use Rattle.context_order.specs.Opened.{AreOpened};
ghost use Rattle.graph_view.specs.View.{by_kind};

use crate::entries::answer_at;
use crate::known::empty_table;
use crate::opened::Opened;
use abs_state::Key;
use bt_base::Want;
use context_answers::Answer;
use context_list::Found;
use cycle_table::Cycles;
use flow_system::Facts;
use graph_view::View;
use std::alloc::Global;
use transfer_fns::SparcSystem;
use transfer_rules::Fact;

/// Fills the entry of one context, if it has no answer yet and that can be found. Whether it was filled.
fn fill_at(
    alloc: Global,
    system: &SparcSystem,
    cycles: &Cycles,
    whole: &Facts<Key, Fact>,
    view: &View,
    found: &Found,
    opened: &[Opened],
    table: &mut Vec<Option<Answer>>,
    number: usize,
) -> Result<bool, Want>
    requires view { view.now ≡ by_kind (keys_of whole.now) }
    requires opened { AreOpened (setting_of system.now cycles.now whole.now) found.now opened.now }
    requires count { length opened.now ≡ length found.now }
    requires filled { AreFilled (setting_of system.now cycles.now whole.now) found.now table.old.items }
    requires within { number < length found.now }
    ensures filled { OnOk result (AreFilled (setting_of system.now cycles.now whole.now) found.now table.new.items) }
    ensures more { IfOk result (λ full. full ≡ true → filled table.new.items ≡ 1 + filled table.old.items) }
    ensures same { IfOk result (λ full. full ≡ false → table.new.items ≡ table.old.items) }
    ensures stuck { IfOk result (λ full. full ≡ false → IsStuck (setting_of system.now cycles.now whole.now) found.now table.new.items number) }
{
    if table[number].is_some() {
        return Ok(false);
    }
    match answer_at(
        alloc, system, cycles, whole, view, found, opened, table, number,
    )? {
        None => Ok(false),
        Some(answer) => {
            table[number] = Some(answer);
            Ok(true)
        }
    }
}

/// Fills what can be found, from the last of some numbers to the first.
fn pass_back(
    alloc: Global,
    system: &SparcSystem,
    cycles: &Cycles,
    whole: &Facts<Key, Fact>,
    view: &View,
    found: &Found,
    opened: &[Opened],
    table: &mut Vec<Option<Answer>>,
    order: &[u32],
) -> Result<(), Want>
    requires view { view.now ≡ by_kind (keys_of whole.now) }
    requires opened { AreOpened (setting_of system.now cycles.now whole.now) found.now opened.now }
    requires count { length opened.now ≡ length found.now }
    requires filled { AreFilled (setting_of system.now cycles.now whole.now) found.now table.old.items }
    requires order { (n : ℕ) → has order.now n ≡ true → n < length found.now }
    ensures { OnOk result (AreFilled (setting_of system.now cycles.now whole.now) found.now table.new.items) }
{
    for place in 0..order.len() {
        let number = order[order.len() - 1 - place] as usize;
        fill_at(
            alloc, system, cycles, whole, view, found, opened, table, number,
        )?;
    }
    Ok(())
}

/// Fills what can be found, in rising order. Whether an entry was filled.
fn pass_up(
    alloc: Global,
    system: &SparcSystem,
    cycles: &Cycles,
    whole: &Facts<Key, Fact>,
    view: &View,
    found: &Found,
    opened: &[Opened],
    table: &mut Vec<Option<Answer>>,
) -> Result<bool, Want>
    requires view { view.now ≡ by_kind (keys_of whole.now) }
    requires opened { AreOpened (setting_of system.now cycles.now whole.now) found.now opened.now }
    requires count { length opened.now ≡ length found.now }
    requires filled { AreFilled (setting_of system.now cycles.now whole.now) found.now table.old.items }
    ensures filled { OnOk result (AreFilled (setting_of system.now cycles.now whole.now) found.now table.new.items) }
    ensures more { IfOk result (λ changed. changed ≡ true → filled table.old.items < filled table.new.items) }
    ensures stuck { IfOk result (λ changed. changed ≡ false → (n : ℕ) → n < length found.now
        → IsStuck (setting_of system.now cycles.now whole.now) found.now table.new.items n) }
{
    let mut changed = false;
    for number in 0..opened.len() {
        if fill_at(
            alloc, system, cycles, whole, view, found, opened, table, number,
        )? {
            changed = true;
        }
    }
    Ok(changed)
}

/// A table with the answers that are found by one pass over an order of the contexts' numbers, from its end: where callees
/// come behind their callers there, it has all.
pub fn first_table(
    alloc: Global,
    system: &SparcSystem,
    cycles: &Cycles,
    whole: &Facts<Key, Fact>,
    view: &View,
    found: &Found,
    opened: &[Opened],
    order: &[u32],
) -> Result<Vec<Option<Answer>>, Want>
    requires view { view.now ≡ by_kind (keys_of whole.now) }
    requires opened { AreOpened (setting_of system.now cycles.now whole.now) found.now opened.now }
    requires count { length opened.now ≡ length found.now }
    requires order { (n : ℕ) → has order.now n ≡ true → n < length found.now }
    ensures { IfOk result (λ table. AreFilled (setting_of system.now cycles.now whole.now) found.now table.items) }
{
    let mut table = empty_table(alloc, opened.len())?;
    pass_back(
        alloc, system, cycles, whole, view, found, opened, &mut table, order,
    )?;
    Ok(table)
}

/// A table with the answer of each context of a list, from one that has some.
///
/// It is filled by passes until one fills nothing. What is found is the same whatever was there before.
pub fn filled_table(
    alloc: Global,
    system: &SparcSystem,
    cycles: &Cycles,
    whole: &Facts<Key, Fact>,
    view: &View,
    found: &Found,
    opened: &[Opened],
    mut table: Vec<Option<Answer>>,
) -> Result<Vec<Option<Answer>>, Want>
    requires view { view.now ≡ by_kind (keys_of whole.now) }
    requires opened { AreOpened (setting_of system.now cycles.now whole.now) found.now opened.now }
    requires count { length opened.now ≡ length found.now }
    requires filled { AreFilled (setting_of system.now cycles.now whole.now) found.now table.items }
    ensures filled { IfOk result (λ table. AreFilled (setting_of system.now cycles.now whole.now) found.now table.items) }
    ensures all { IfOk result (λ table. (n : ℕ) → n < length table.items → HasAnswer table.items n) }
{
    for _round in 0..opened.len() + 1 {
        if !pass_up(
            alloc, system, cycles, whole, view, found, opened, &mut table,
        )? {
            return Ok(table);
        }
    }
    Ok(table)
}
