ghost use Rattle.std.specs.Prelude.{◌≡◌, ℕ, ◌^◌, ◌<◌, ◌≤◌, ◌↔◌, true, false, IfOk, IfSome};
ghost use Rattle.value_lattice.specs.Value.{IsOver, IsValue, IsLeastOrNone, is_zero};
ghost use Rattle.value_refine.specs.Comparison.{IsReached, IsOrdered};
ghost use Rattle.value_refine.specs.Interval.{IsIn};
ghost use Rattle.value_refine.specs.Refinement.{IsRefined, is_left_alone, refine};
ghost use Rattle.value_refine.specs.Region.{IsInRegion};
ghost use Rattle.value_refine.specs.Restriction.{IsCompared};

use crate::comparison::{Comparison, Relation, comparison_of};
use crate::ends::{place_ends, word_ends};
use crate::interval::Interval;
use crate::region::Region;
use crate::restricting::{meet, restrict};
use bt_base::Want;
use std::alloc::Global;
use value_lattice::{Thresholds, Value};

/// Whether a condition leaves the left side as it is.
fn is_left_alone(condition: u8, right: &Value) -> bool
    ensures { result ≡ is_left_alone condition right.now }
{
    match condition % 8 {
        7 => true,
        6 => !right.is_zero(),
        _ => false,
    }
}

/// The numbers that are less, or less or equal, or aren't, than one of an interval: its ends decide.
fn ordered(strict: bool, holds: bool, ends: Interval) -> Interval
    requires { ends.low ≤ ends.high }
    ensures { (k : ℕ) → k < 2 ^ 32 → IsIn result k ↔ IsOrdered strict holds ends k }
{
    match (strict, holds) {
        (true, true) => Interval::below(ends.high),
        (true, false) => Interval::from(ends.low),
        (false, true) => Interval::up_to(ends.high),
        (false, false) => Interval::above(ends.low),
    }
}

/// The words that differ from some word of a value: two words differ from any.
fn apart(right: &Value) -> Region
    requires { IsValue right.now }
    ensures { (w : ℕ) → w < 2 ^ 32 → IsInRegion result w ↔ IsReached (record { relation = Relation.Equal; holds = false }) right.now w }
{
    let ends = place_ends(right);
    if ends.low < ends.high {
        Region::all()
    } else {
        Region::all_but(ends.low)
    }
}

/// The words that compare so with some word of a value.
fn region_of(c: Comparison, right: &Value) -> Region
    requires value { IsValue right.now }
    requires no_meet { c.relation ≡ Relation.Equal → c.holds ≡ false }
    ensures { (w : ℕ) → w < 2 ^ 32 → IsInRegion result w ↔ IsReached c right.now w }
{
    match c.relation {
        Relation::Never => if c.holds {
            Region::of_places(Interval::none())
        } else {
            Region::all()
        },
        Relation::Equal => apart(right),
        Relation::LessOrEqual => Region::of_places(ordered(false, c.holds, place_ends(right))),
        Relation::Less => Region::of_places(ordered(true, c.holds, place_ends(right))),
        Relation::LessOrEqualUnsigned => {
            Region::of_words(ordered(false, c.holds, word_ends(right)))
        }
        Relation::LessUnsigned => Region::of_words(ordered(true, c.holds, word_ends(right))),
    }
}

/// The least value that has the words of the left side that compare so with some word of the right side, if
/// there is one.
fn compared(
    alloc: Global,
    c: Comparison,
    left: &Value,
    right: &Value,
    t: &Thresholds,
) -> Result<Option<Value>, Want>
    requires left { IsValue left.now }
    requires right { IsValue right.now }
    ensures { IfOk result (IsLeastOrNone t.now (IsCompared c left.now right.now)) }
{
    match (c.relation, c.holds) {
        (Relation::Equal, true) => meet(alloc, left, right, t),
        _ => restrict(alloc, left, region_of(c, right), t),
    }
}

/// What is left of the left side of a comparison where a condition of a branch, over the flags of the left side
/// less the right one, is true or is false.
///
/// It is the least value that has each word of the left side with which some word of the right side makes the
/// condition so, and None exactly where there is no such word. The return address is taken as any word. The
/// conditions vs and vc leave the left side as it is, and so do neg and pos unless the right side is exactly the
/// word 0.
pub fn refine(
    alloc: Global,
    cond: u8,
    truth: bool,
    left: &Value,
    right: &Value,
    t: &Thresholds,
) -> Result<Option<Value>, Want>
    requires condition { cond < 16 }
    requires left { IsOver t.now left.now }
    requires right { IsOver t.now right.now }
    ensures refined { IfOk result (IsRefined t.now cond truth left.now right.now) }
    ensures value { IfOk result (λ r. r ≡ refine t.now cond truth left.now right.now) }
    ensures over { IfOk result (λ r. IfSome r (IsOver t.now)) }
{
    t.are_thresholds();
    if is_left_alone(cond, right) {
        return Ok(Some(left.copy(alloc)?));
    }
    compared(alloc, comparison_of(cond, truth), left, right, t)
}
