ghost use Rattle.std.specs.Prelude.{◌≡◌, ℕ, ◌^◌, ◌<◌, ◌≤◌, ◌↔◌, IsTrue};
ghost use Rattle.value_lattice.specs.Order.{place_of};
ghost use Rattle.value_refine.specs.Interval.{IsIn};
ghost use Rattle.value_refine.specs.Region.{IsInRegion};

use crate::interval::Interval;
use value_lattice::place;

/// The words whose places, as they are read with sign, are in one of two intervals.
#[derive(Clone, Copy, Debug)]
pub(crate) struct Region {
    pub first: Interval,
    pub second: Interval,
}

/// The negative ones of the words of an interval, by their places: words from 2 ^ 31 on have places below 2 ^ 31.
fn negative(words: Interval) -> Interval
    ensures { (w : ℕ) → w < 2 ^ 32 → IsIn result (place_of w) ↔ (IsIn words w × (2 ^ 31 ≤ w)) }
{
    if words.high < 0x8000_0000 {
        return Interval::none();
    }
    Interval {
        low: words.low.max(0x8000_0000) - 0x8000_0000,
        high: words.high - 0x8000_0000,
    }
}

/// The words of an interval that aren't negative, by their places.
fn not_negative(words: Interval) -> Interval
    ensures { (w : ℕ) → w < 2 ^ 32 → IsIn result (place_of w) ↔ (IsIn words w × (w < 2 ^ 31)) }
{
    if words.low >= 0x8000_0000 {
        return Interval::none();
    }
    Interval {
        low: words.low + 0x8000_0000,
        high: words.high.min(0x7fff_ffff) + 0x8000_0000,
    }
}

impl Region {
    /// All words.
    pub(crate) fn all() -> Region
        ensures { (w : ℕ) → w < 2 ^ 32 → IsInRegion result w }
    {
        Region::of_places(Interval::all())
    }

    /// The words with places in an interval.
    pub(crate) fn of_places(places: Interval) -> Region
        ensures { (w : ℕ) → w < 2 ^ 32 → IsInRegion result w ↔ IsIn places (place_of w) }
    {
        Region {
            first: places,
            second: Interval::none(),
        }
    }

    /// The words that, read without sign, are in an interval.
    pub(crate) fn of_words(words: Interval) -> Region
        ensures { (w : ℕ) → w < 2 ^ 32 → IsInRegion result w ↔ IsIn words w }
    {
        Region {
            first: negative(words),
            second: not_negative(words),
        }
    }

    /// All words but the one at a place.
    pub(crate) fn all_but(place: u32) -> Region
        ensures { (w : ℕ) → w < 2 ^ 32 → IsInRegion result w ↔ (place_of w ≡ place → ⊥) }
    {
        Region {
            first: Interval::below(place),
            second: Interval::above(place),
        }
    }

    /// The words with places in an interval too.
    pub(crate) fn and(self, places: Interval) -> Region
        ensures { (w : ℕ) → IsInRegion result w ↔ (IsInRegion self w × IsIn places (place_of w)) }
    {
        Region {
            first: self.first.and(places),
            second: self.second.and(places),
        }
    }

    /// Whether a word is one of them.
    pub(crate) fn has(&self, w: u32) -> bool
        ensures { IsTrue result ↔ IsInRegion self.now w }
    {
        let place = place(w);
        self.first.has(place) || self.second.has(place)
    }
}
