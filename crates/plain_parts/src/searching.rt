//! What a table has for a subprogram.
ghost use Rattle.std.specs.Prelude.{◌≡◌, ◌<◌, ◌^◌, ℕ, All, IfOk, Some, length, map};
ghost use Rattle.std.specs.List.Sorted.{IsStrictlyIncreasing};
ghost use Rattle.abs_state.specs.declared.key.Place.{Place as AnyPlace};
ghost use Rattle.plain_parts.specs.Searched.{bound_at, known_in, worth};

use abs_state::{Next, Place};
use bt_base::Want;
use std::alloc::Global;

/// What a table has for a subprogram: nothing where it isn't known yet or isn't listed, a bound, or that there is none.
pub fn known(subs: &[u32], table: &[Option<Option<u64>>], sub: u32) -> Option<Option<u64>>
    requires rising { IsStrictlyIncreasing subs.now }
    requires count { length table.now ≡ length subs.now }
    ensures { result ≡ known_in subs.now table.now sub }
{
    match subs.binary_search(&sub) {
        Ok(number) => table[number],
        Err(_) => None,
    }
}

/// The cycles of an entry, or 0 where it has none.
fn worth(entry: Option<Option<u64>>) -> u64
    ensures { result ≡ worth entry }
{
    match entry {
        None => 0,
        Some(None) => 0,
        Some(Some(bound)) => bound,
    }
}

/// The bound that a table has for what is called with a delay instruction, in cycles; 0 where it has none.
fn bound_at(subs: &[u32], table: &[Option<Option<u64>>], next: Next) -> u64
    requires rising { IsStrictlyIncreasing subs.now }
    requires count { length table.now ≡ length subs.now }
    ensures { result ≡ bound_at subs.now table.now next }
{
    match next {
        Next::At(_) => 0,
        Next::Into(target) => worth(known(subs, table, target)),
        Next::Back => 0,
    }
}

/// The bounds that a table has for what program points call, in their order.
pub fn bounds_at(
    alloc: Global,
    subs: &[u32],
    table: &[Option<Option<u64>>],
    nodes: &[Place],
) -> Result<Vec<Option<u64>>, Want>
    requires rising { IsStrictlyIncreasing subs.now }
    requires count { length table.now ≡ length subs.now }
    ensures { IfOk result (λ bounds. bounds.items ≡ map (λ (p : AnyPlace). Some (bound_at subs.now table.now p.next)) nodes.now) }
{
    let mut bounds = Vec::with_capacity(alloc, nodes.len())?;
    for place in nodes {
        bounds.push(Some(bound_at(subs, table, place.next)))?;
    }
    Ok(bounds)
}
