ghost use Rattle.std.specs.Prelude.{◌≡◌, ℕ, ◌^◌, ◌<◌, ◌↔◌, IfOk, IfSome, Contains};
ghost use Rattle.value_lattice.specs.Order.{rank_of};
ghost use Rattle.value_lattice.specs.Set.{IsSet};
ghost use Rattle.value_lattice.specs.Value.{IsOver, IsValue, IsBetween, MayHave, IsLeastOrNone};
ghost use Rattle.value_refine.specs.Refinement.{IsWithin, within};
ghost use Rattle.value_refine.specs.Region.{IsInRegion};
ghost use Rattle.value_refine.specs.Restriction.{IsRestricted, IsShared};

use crate::ends::place_ends;
use crate::interval::Interval;
use crate::region::Region;
use bt_base::Want;
use std::alloc::Global;
use value_lattice::{Thresholds, Value, cover, rank, span_of_places};

/// Those of a list of words that are in a region.
fn in_region(alloc: Global, words: &[u32], region: &Region) -> Result<Vec<u32>, Want>
    ensures { IfOk result (λ v. (w : ℕ) → Contains v.items w ↔ (Contains words.now w × IsInRegion region.now w)) }
{
    let mut kept = Vec::new(alloc);
    for word in words {
        if region.has(*word) {
            kept.push(*word)?;
        }
    }
    Ok(kept)
}

/// Those of a list of words that a value may have: the return address may be any word, and so is asked for
/// where it is that word.
fn in_value(alloc: Global, words: &[u32], v: &Value) -> Result<Vec<u32>, Want>
    ensures { IfOk result (λ kept. (w : ℕ) → w < 2 ^ 32 → Contains kept.items w ↔ (Contains words.now w × MayHave v.now w)) }
{
    let mut kept = Vec::new(alloc);
    for word in words {
        if v.has(*word, *word) {
            kept.push(*word)?;
        }
    }
    Ok(kept)
}

/// The least value that has each of a list of words, if there is one.
fn cover_any(alloc: Global, words: &[u32], t: &Thresholds) -> Result<Option<Value>, Want>
    ensures { IfOk result (IsLeastOrNone t.now (Contains words.now)) }
{
    if words.is_empty() {
        return Ok(None);
    }
    Ok(Some(cover(alloc, words, t)?))
}

/// The least value that has all words with places in an interval, if there is one.
fn span_any(alloc: Global, places: Interval, t: &Thresholds) -> Result<Option<Value>, Want>
    ensures { IfOk result (IsLeastOrNone t.now (IsBetween places.low places.high)) }
{
    if places.high < places.low {
        return Ok(None);
    }
    Ok(Some(span_of_places(alloc, places.low, places.high, t)?))
}

/// The least value that has all words of a region, if there is one: the join of what each of its intervals has.
fn span_region(alloc: Global, region: Region, t: &Thresholds) -> Result<Option<Value>, Want>
    ensures { IfOk result (IsLeastOrNone t.now (IsInRegion region)) }
{
    let first = span_any(alloc, region.first, t)?;
    let second = span_any(alloc, region.second, t)?;
    match first {
        None => Ok(second),
        Some(a) => match second {
            None => Ok(Some(a)),
            Some(b) => Ok(Some(a.join(alloc, &b, t)?)),
        },
    }
}

/// The least value that has the words of a value that are in a region, if there is one.
pub(crate) fn restrict(
    alloc: Global,
    v: &Value,
    region: Region,
    t: &Thresholds,
) -> Result<Option<Value>, Want>
    requires { IsValue v.now }
    ensures { IfOk result (IsLeastOrNone t.now (IsRestricted v.now region)) }
{
    match v {
        Value::Words(words) => {
            let kept = in_region(alloc, words.members(), &region)?;
            cover_any(alloc, kept.as_slice(), t)
        }
        Value::Range { .. } => span_region(alloc, region.and(place_ends(v)), t),
        Value::Ret => span_region(alloc, region, t),
    }
}

/// The least value that has the words which two values both may have, if there is one.
pub(crate) fn meet(
    alloc: Global,
    a: &Value,
    b: &Value,
    t: &Thresholds,
) -> Result<Option<Value>, Want>
    requires left { IsValue a.now }
    requires right { IsValue b.now }
    ensures { IfOk result (IsLeastOrNone t.now (IsShared a.now b.now)) }
{
    match b {
        Value::Words(words) => {
            let kept = in_value(alloc, words.members(), a)?;
            cover_any(alloc, kept.as_slice(), t)
        }
        Value::Range { .. } => restrict(alloc, a, Region::of_places(place_ends(b)), t),
        Value::Ret => restrict(alloc, a, Region::all(), t),
    }
}

/// The least value that has the words of a value with places between two, if there is one.
fn within_places(
    alloc: Global,
    a: &Value,
    low: u32,
    high: u32,
    t: &Thresholds,
) -> Result<Option<Value>, Want>
    requires { IsValue a.now }
    ensures within { IfOk result (IsLeastOrNone t.now (IsWithin a.now low high)) }
    ensures over { IfOk result (λ r. IfSome r (IsOver t.now)) }
{
    restrict(alloc, a, Region::of_places(Interval { low, high }), t)
}

/// The least value that has the words of a value which, read with sign, are from `lo` to `hi`; None exactly
/// where there is no such word. The return address is taken as any word.
pub fn within(
    alloc: Global,
    a: &Value,
    lo: i32,
    hi: i32,
    t: &Thresholds,
) -> Result<Option<Value>, Want>
    requires { IsOver t.now a.now }
    ensures within { IfOk result (IsLeastOrNone t.now (IsWithin a.now (rank_of lo) (rank_of hi))) }
    ensures value { IfOk result (λ r. r ≡ within t.now a.now (rank_of lo) (rank_of hi)) }
    ensures over { IfOk result (λ r. IfSome r (IsOver t.now)) }
{
    t.are_thresholds();
    within_places(alloc, a, rank(lo), rank(hi), t)
}
