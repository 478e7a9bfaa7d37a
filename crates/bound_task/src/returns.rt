ghost use Rattle.std.specs.Prelude.{◌≡◌, ◌++◌, IfOk};
ghost use Rattle.std.specs.List.{flat_map};
ghost use Rattle.std.specs.List.Sorted.{IsStrictlyIncreasing};
ghost use Rattle.abs_state.specs.Key.{compare};
ghost use Rattle.flow_system.specs.Facts.{fact_at};
ghost use Rattle.bound_task.specs.Returning.{returning_at, returning_in};

use abs_state::Key;
use bt_base::Want;
use flow_system::Facts;
use std::alloc::Global;
use transfer_rules::Fact;

/// Appends the subprogram of a key, where it returns.
fn push_returning(list: &mut Vec<u32>, facts: &Facts<Key, Fact>, key: Key) -> Result<(), Want>
    ensures { IfOk result (λ _. list.new.items ≡ list.old.items ++ returning_at (fact_at compare facts.now) key) }
{
    if let Key::Summary { sub } = key {
        if let Some(Fact::Sum(effects)) = facts.get(key) {
            if effects.returns || effects.skips {
                list.push(sub)?;
            }
        }
    }
    Ok(())
}

/// The subprograms of keys, where they return.
fn returning_of(alloc: Global, facts: &Facts<Key, Fact>, keys: &[Key]) -> Result<Vec<u32>, Want>
    ensures { IfOk result (λ list. list.items ≡ flat_map (returning_at (fact_at compare facts.now)) keys.now) }
{
    let mut list = Vec::new(alloc);
    for key in keys {
        push_returning(&mut list, facts, *key)?;
    }
    Ok(list)
}

/// The subprograms that return by facts, by rising entries: those that may come back to either address behind a call.
pub fn returning(alloc: Global, facts: &Facts<Key, Fact>) -> Result<Vec<u32>, Want>
    ensures are { IfOk result (λ list. list.items ≡ returning_in facts.now) }
    ensures rise { IfOk result (λ list. IsStrictlyIncreasing list.items) }
{
    let keys = facts.keys(alloc)?;
    returning_of(alloc, facts, &keys)
}
