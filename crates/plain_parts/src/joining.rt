//! The join of the arguments of all calls of each subprogram.
ghost use Rattle.std.specs.Prelude.{◌≡◌, ◌<◌, true, ℕ, All, IfOk, None, OnOk, Some, length, replicate, slice_set};
ghost use Rattle.std.specs.List.Sorted.{IsStrictlyIncreasing};
ghost use Rattle.abs_state.specs.Key.{compare};
ghost use Rattle.abs_state.specs.declared.key.Key.{Key as AnyKey};
ghost use Rattle.flow_system.specs.Facts.{fact_at};
ghost use Rattle.plain_parts.specs.Joined.{AreJoins, IsGiven, IsGivenOrNone, JoinsGiven, JoinsKey, entry_at, joined_with};
ghost use Rattle.transfer_rules.specs.Fact.{fits};
ghost use Rattle.transfer_rules.specs.declared.fact.Fact.{Fact as AnyFact};

use abs_state::Key;
use bt_base::Want;
use flow_system::Facts;
use std::alloc::Global;
use transfer_give::{copy, join};
use transfer_rules::Fact;
use value_lattice::Thresholds;

/// What a call hands on joined with what earlier calls do, if there are some.
fn joined_with(
    alloc: Global,
    t: &Thresholds,
    earlier: &Option<Fact>,
    given: &Fact,
) -> Result<Fact, Want>
    requires earlier { IsGivenOrNone t.now earlier.now }
    requires given { IsGiven t.now given.now }
    ensures { IfOk result (λ fact. fact ≡ joined_with t.now earlier.now given.now) }
{
    match earlier {
        None => copy(alloc, given),
        Some(fact) => join(alloc, fact, given, t),
    }
}

/// Joins what a call hands on into the entry at a place.
fn join_at(
    alloc: Global,
    t: &Thresholds,
    table: &mut Vec<Option<Fact>>,
    number: usize,
    given: &Fact,
) -> Result<(), Want>
    requires within { number < length table.old.items }
    requires all { All (IsGivenOrNone t.now) table.old.items }
    requires given { IsGiven t.now given.now }
    ensures { OnOk result (table.new.items ≡ slice_set table.old.items number (Some (joined_with t.now (entry_at table.old.items number) given.now))) }
{
    let fact = joined_with(alloc, t, &table[number], given)?;
    table[number] = Some(fact);
    Ok(())
}

/// Joins what a call hands on into the entry of the subprogram that it calls, if that is listed.
fn join_given(
    alloc: Global,
    t: &Thresholds,
    subs: &[u32],
    table: &mut Vec<Option<Fact>>,
    callee: u32,
    given: &Fact,
) -> Result<(), Want>
    requires rising { IsStrictlyIncreasing subs.now }
    requires count { length table.old.items ≡ length subs.now }
    requires all { All (IsGivenOrNone t.now) table.old.items }
    requires given { IsGiven t.now given.now }
    ensures { OnOk result (JoinsGiven t.now subs.now callee given.now table.old.items table.new.items) }
{
    t.are_thresholds();
    match subs.binary_search(&callee) {
        Ok(number) => join_at(alloc, t, table, number, given),
        Err(_) => Ok(()),
    }
}

/// Joins what a key hands on into the entry of the subprogram that it calls, if it is a call and that is listed.
fn join_key(
    alloc: Global,
    t: &Thresholds,
    facts: &Facts<Key, Fact>,
    subs: &[u32],
    table: &mut Vec<Option<Fact>>,
    key: Key,
) -> Result<(), Want>
    requires rising { IsStrictlyIncreasing subs.now }
    requires fit { (k : AnyKey) (v : AnyFact) → fact_at compare facts.now k ≡ Some v → fits t.now k v ≡ true }
    requires count { length table.old.items ≡ length subs.now }
    requires all { All (IsGivenOrNone t.now) table.old.items }
    ensures { OnOk result (JoinsKey t.now (fact_at compare facts.now) subs.now key table.old.items table.new.items) }
{
    match key {
        Key::Node(_) => Ok(()),
        Key::Edge { .. } => Ok(()),
        Key::Call { callee, .. } => match facts.get(key) {
            None => Ok(()),
            Some(given) => join_given(alloc, t, subs, table, callee, given),
        },
        Key::Summary { .. } => Ok(()),
        Key::Gap { .. } => Ok(()),
    }
}

/// So many empty entries.
fn empty_table(alloc: Global, count: usize) -> Result<Vec<Option<Fact>>, Want>
    ensures { IfOk result (λ table. table.items ≡ replicate count None) }
{
    let mut table = Vec::with_capacity(alloc, count)?;
    for _ in 0..count {
        table.push(None)?;
    }
    Ok(table)
}

/// For each listed subprogram, which rise, the join of the arguments of all its calls among some keys; nothing where there is
/// no such call.
pub fn joins(
    alloc: Global,
    t: &Thresholds,
    facts: &Facts<Key, Fact>,
    keys: &[Key],
    subs: &[u32],
) -> Result<Vec<Option<Fact>>, Want>
    requires rising { IsStrictlyIncreasing subs.now }
    requires fit { (k : AnyKey) (v : AnyFact) → fact_at compare facts.now k ≡ Some v → fits t.now k v ≡ true }
    ensures { IfOk result (λ table. AreJoins t.now (fact_at compare facts.now) subs.now keys.now table.items) }
{
    let mut table = empty_table(alloc, subs.len())?;
    for key in keys {
        join_key(alloc, t, facts, subs, &mut table, *key)?;
    }
    Ok(table)
}
