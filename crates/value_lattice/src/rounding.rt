ghost use Rattle.std.specs.Prelude.{◌≡◌, ℕ, ◌+◌, ◌^◌, ◌<◌, ◌≤◌, Contains};
ghost use Rattle.std.specs.Int.{w32};
ghost use Rattle.value_lattice.specs.Rounding.{IsRoundedDown, IsRoundedUp};
ghost use Rattle.value_lattice.specs.Value.{IsLeast, IsBetween};

use crate::order::number_at_place;
use crate::{Thresholds, Value};

impl Thresholds {
    /// The greatest threshold at or below a place.
    pub(crate) fn at_or_below(&self, place: u32) -> u32
        ensures { IsRoundedDown self.now place result }
    {
        let places = self.places();
        match places.binary_search(&place) {
            Ok(_) => place,
            Err(i) => places[i - 1],
        }
    }

    /// The least threshold at or above a place.
    pub(crate) fn at_or_above(&self, place: u32) -> u32
        ensures { IsRoundedUp self.now place result }
    {
        let places = self.places();
        match places.binary_search(&place) {
            Ok(_) => place,
            Err(i) => places[i],
        }
    }
}

/// The least range between thresholds that has all between two places, which are so far apart that no set has.
pub(crate) fn range_between(low: u32, high: u32, t: &Thresholds) -> Value
    requires { low + 128 ≤ high }
    ensures { IsLeast t.now (IsBetween low high) result }
{
    Value::Range {
        lo: number_at_place(t.at_or_below(low)),
        hi: number_at_place(t.at_or_above(high)),
    }
}
