ghost use Rattle.std.specs.Prelude.{◌≡◌, ◌<◌, ◌≤◌, ℕ, true, length, slice_get, slice_index_or, Some, IfOk};
ghost use Rattle.bt_base.specs.Graph.{has};
ghost use Rattle.counter_bound.specs.Body.{AreUps, AreDowns};
ghost use Rattle.counter_bound.specs.Change.{up_in, down_in};

use crate::Change;
use bt_base::Want;
use std::alloc::Global;

/// How much a change adds to a cell.
fn up_in(change: Change, c: u8) -> u32
    ensures up { result ≡ up_in (Some change) c }
    ensures most { result ≤ 2147483647 }
{
    match change {
        Change::Add { cell, k } => { if c == cell && 0 < k { k as u32 } else { 0 } }
        Change::Other(_) => 0,
    }
}

/// How much a change takes from a cell.
fn down_in(change: Change, c: u8) -> u32
    ensures down { result ≡ down_in (Some change) c }
    ensures most { result ≤ 2147483648 }
{
    match change {
        Change::Add { cell, k } => {
            if c == cell && k < 0 {
                k.unsigned_abs()
            } else {
                0
            }
        }
        Change::Other(_) => 0,
    }
}

/// How much each node of a body adds to a cell.
pub(crate) fn ups_of(
    alloc: Global,
    body: &[u32],
    changes: &[Change],
    c: u8,
) -> Result<Vec<u32>, Want>
    requires nodes { (n : ℕ) → has body.now n ≡ true → n < length changes.now }
    ensures count { IfOk result (λ ups. length ups.items ≡ length body.now) }
    ensures ups { IfOk result (λ ups. AreUps body.now changes.now c ups.items) }
    ensures most { IfOk result (λ ups. (n : ℕ) → slice_index_or ups.items n 0 ≤ 2147483647) }
{
    let mut ups = Vec::with_capacity(alloc, body.len())?;
    for place in 0..body.len() {
        ups.push(up_in(changes[body[place] as usize], c))?;
    }
    Ok(ups)
}

/// How much each node of a body takes from a cell.
pub(crate) fn downs_of(
    alloc: Global,
    body: &[u32],
    changes: &[Change],
    c: u8,
) -> Result<Vec<u32>, Want>
    requires nodes { (n : ℕ) → has body.now n ≡ true → n < length changes.now }
    ensures count { IfOk result (λ downs. length downs.items ≡ length body.now) }
    ensures downs { IfOk result (λ downs. AreDowns body.now changes.now c downs.items) }
    ensures most { IfOk result (λ downs. (n : ℕ) → slice_index_or downs.items n 0 ≤ 2147483648) }
{
    let mut downs = Vec::with_capacity(alloc, body.len())?;
    for place in 0..body.len() {
        downs.push(down_in(changes[body[place] as usize], c))?;
    }
    Ok(downs)
}
