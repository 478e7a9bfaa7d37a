ghost use Rattle.std.specs.Prelude.{◌≡◌, ℕ, ◌+◌, ◌*◌, ◌%◌, ◌^◌, ◌<◌, ◌≤◌, ◌↔◌, ◌&&◌, IsTrue, IfOk, Contains, filter};
ghost use Rattle.std.specs.List.Sorted.{IsStrictlyIncreasing};
ghost use Rattle.bt_image.specs.Image.{is_code};
ghost use Rattle.value_lattice.specs.Order.{word_at};
ghost use Rattle.value_lattice.specs.Test.{may_have};
ghost use Rattle.value_lattice.specs.Value.{IsValue};
ghost use Rattle.jump_resolve.specs.Target.{may_go, target_list, is_whole, targets};

use crate::{Resolved, TargetList};
use bt_base::{Want, has, put_in_order};
use bt_image::Image;
use std::alloc::Global;
use value_lattice::{Value, rank, word_at_place};

/// The candidates of code that a value may be, in their order.
fn passing(alloc: Global, v: &Value, candidates: &[u32], image: &Image) -> Result<Vec<u32>, Want>
    ensures { IfOk result (λ list. list.items ≡ filter (may_go image.now v.now) candidates.now) }
{
    let mut list = Vec::new(alloc);
    for a in candidates {
        if v.may_have(*a) && image.code(*a) {
            list.push(*a)?;
        }
    }
    Ok(list)
}

/// The candidates of code that a value may be, rising.
fn target_list(
    alloc: Global,
    v: &Value,
    candidates: &[u32],
    image: &Image,
) -> Result<Vec<u32>, Want>
    ensures list { IfOk result (λ list. list.items ≡ target_list image.now v.now candidates.now) }
    ensures rising { IfOk result (λ list. IsStrictlyIncreasing list.items) }
{
    let mut list = passing(alloc, v, candidates, image)?;
    put_in_order(&mut list);
    Ok(list)
}

/// Whether a rising list has each multiple of 4 among words.
fn has_each(words: &[u32], list: &[u32]) -> bool
    requires { IsStrictlyIncreasing list.now }
    ensures { IsTrue result ↔ ((w : ℕ) → Contains words.now w → w % 4 ≡ 0 → Contains list.now w) }
{
    for word in words {
        if *word % 4 == 0 && !has(list, *word) {
            return false;
        }
    }
    true
}

/// The least number that is not below a quarter of this one.
fn quarter_above(low: u32) -> u32
    ensures above { low ≤ 4 * result }
    ensures least { 4 * result < low + 4 }
{
    if low % 4 == 0 { low / 4 } else { low / 4 + 1 }
}

/// Whether a rising list has each multiple of 4 whose place, as words are read with sign, is between two places.
fn has_between(low: u32, high: u32, list: &[u32]) -> bool
    requires { IsStrictlyIncreasing list.now }
    ensures { IsTrue result ↔ ((q : ℕ) → low ≤ 4 * q → 4 * q ≤ high → Contains list.now (word_at (4 * q))) }
{
    let first = quarter_above(low);
    let end = high / 4 + 1;
    for q in first..end {
        let found = has(list, word_at_place(4 * q));
        if !found {
            return false;
        }
    }
    true
}

/// Whether a rising list has each multiple of 4 of a range.
fn is_range_whole(lo: i32, hi: i32, list: &[u32]) -> bool
    requires range { IsValue (Value.Range lo hi) }
    requires rising { IsStrictlyIncreasing list.now }
    ensures { result ≡ is_whole (Value.Range lo hi) list.now }
{
    has_between(rank(lo), rank(hi), list)
}

/// Whether a rising list has each multiple of 4 that a value may be.
///
/// Of a range it looks up one word after the other, until the list lacks one: so at most one more than the list has.
fn is_whole(v: &Value, list: &[u32]) -> bool
    requires value { IsValue v.now }
    requires rising { IsStrictlyIncreasing list.now }
    ensures { result ≡ is_whole v.now list.now }
{
    match v {
        Value::Words(words) => has_each(words.members(), list),
        Value::Range { lo, hi } => is_range_whole(*lo, *hi, list),
        Value::Ret => has_between(0, u32::MAX, list),
    }
}

/// Where a jump or call to `v` may go: to those of the candidates that `v` may be and that are code, rising. It may go
/// nowhere else where the candidates are asserted, or each multiple of 4 that `v` may be is among them.
///
/// The return address may be any word.
pub fn targets(
    alloc: Global,
    v: &Value,
    candidates: &[u32],
    asserted: bool,
    image: &Image,
) -> Result<Resolved, Want>
    requires { IsValue v.now }
    ensures { IfOk result (λ resolved. resolved ≡ targets image.now v.now candidates.now asserted) }
{
    let list = target_list(alloc, v, candidates, image)?;
    let whole = asserted || is_whole(v, list.as_slice());
    Ok(Resolved {
        list: TargetList::new(list),
        whole,
    })
}
