ghost use Rattle.std.specs.Prelude.{◌≡◌, IfOk, min, max};
ghost use Rattle.value_lattice.specs.Order.{rank_of};
ghost use Rattle.value_lattice.specs.Value.{IsOver, IsJoin, IsLeast, IsBetween};
ghost use Rattle.value_lattice.specs.Least.{join};

use crate::covering::cover_rising;
use crate::ends::ends_of;
use crate::order::rank;
use crate::rounding::range_between;
use crate::sorting::merge;
use crate::{Thresholds, Value, Words};
use bt_base::Want;
use std::alloc::Global;

/// The join of two sets.
fn join_sets(alloc: Global, a: &Words, b: &Words, t: &Thresholds) -> Result<Value, Want>
    ensures { IfOk result (IsJoin t.now (Value.Words a.now) (Value.Words b.now)) }
{
    let merged = merge(alloc, a.members(), b.members())?;
    Ok(cover_rising(merged, t))
}

/// The least range that has a range and all between two places.
fn widened(lo: i32, hi: i32, low: u32, high: u32, t: &Thresholds) -> Value
    requires { IsOver t.now (Value.Range lo hi) }
    ensures { IsLeast t.now (IsBetween (min (rank_of lo) low) (max (rank_of hi) high)) result }
{
    range_between(rank(lo).min(low), rank(hi).max(high), t)
}

/// The join of a set and a range.
fn join_set_range(set: &Words, lo: i32, hi: i32, t: &Thresholds) -> Value
    requires range { IsOver t.now (Value.Range lo hi) }
    ensures { IsJoin t.now (Value.Words set.now) (Value.Range lo hi) result }
{
    let (low, high) = ends_of(set.members());
    widened(lo, hi, low, high, t)
}

/// The join of a range and another value.
fn join_range(lo: i32, hi: i32, other: &Value, t: &Thresholds) -> Value
    requires range { IsOver t.now (Value.Range lo hi) }
    requires other { IsOver t.now other.now }
    ensures { IsJoin t.now (Value.Range lo hi) other.now result }
{
    let (low, high) = other.ends();
    widened(lo, hi, low, high, t)
}

/// The join of the return address and another value.
fn join_ret(other: &Value, t: &Thresholds) -> Value
    requires { IsOver t.now other.now }
    ensures { IsJoin t.now Value.Ret other.now result }
{
    match other {
        Value::Ret => Value::Ret,
        Value::Words(_) => range_between(0, u32::MAX, t),
        Value::Range { .. } => range_between(0, u32::MAX, t),
    }
}

/// The join of a set and another value.
fn join_set(alloc: Global, set: &Words, other: &Value, t: &Thresholds) -> Result<Value, Want>
    requires set { IsOver t.now (Value.Words set.now) }
    requires other { IsOver t.now other.now }
    ensures { IfOk result (IsJoin t.now (Value.Words set.now) other.now) }
{
    match other {
        Value::Words(others) => join_sets(alloc, set, others, t),
        Value::Range { lo, hi } => Ok(join_set_range(set, *lo, *hi, t)),
        Value::Ret => Ok(range_between(0, u32::MAX, t)),
    }
}

impl Value {
    /// The least value over the thresholds that is at least both.
    pub fn join(&self, alloc: Global, other: &Value, t: &Thresholds) -> Result<Value, Want>
        requires left { IsOver t.now self.now }
        requires right { IsOver t.now other.now }
        ensures join { IfOk result (IsJoin t.now self.now other.now) }
        ensures value { IfOk result (λ v. v ≡ join t.now self.now other.now) }
    {
        t.are_thresholds();
        match self {
            Value::Words(words) => join_set(alloc, words, other, t),
            Value::Range { lo, hi } => Ok(join_range(*lo, *hi, other, t)),
            Value::Ret => Ok(join_ret(other, t)),
        }
    }
}
