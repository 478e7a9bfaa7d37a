ghost use Rattle.std.specs.Prelude.{◌≡◌, ℕ, ◌^◌, ◌<◌, ◌≤◌, ◌↔◌, IsTrue};
ghost use Rattle.value_refine.specs.Interval.{IsIn};

/// The numbers from the least to the greatest; none where the least is above the greatest.
#[derive(Clone, Copy, Debug)]
pub(crate) struct Interval {
    pub low: u32,
    pub high: u32,
}

impl Interval {
    /// All numbers of 32 bits.
    pub(crate) fn all() -> Interval
        ensures { (result.low ≡ 0) × (result.high ≡ 4294967295) }
    {
        Interval {
            low: 0,
            high: u32::MAX,
        }
    }

    /// No number.
    pub(crate) fn none() -> Interval
        ensures { (k : ℕ) → IsIn result k → ⊥ }
    {
        Interval { low: 1, high: 0 }
    }

    /// The numbers up to one.
    pub(crate) fn up_to(high: u32) -> Interval
        ensures { (k : ℕ) → k < 2 ^ 32 → IsIn result k ↔ (k ≤ high) }
    {
        Interval { low: 0, high }
    }

    /// The numbers from one on.
    pub(crate) fn from(low: u32) -> Interval
        ensures { (k : ℕ) → k < 2 ^ 32 → IsIn result k ↔ (low ≤ k) }
    {
        Interval {
            low,
            high: u32::MAX,
        }
    }

    /// The numbers below one.
    pub(crate) fn below(end: u32) -> Interval
        ensures { (k : ℕ) → k < 2 ^ 32 → IsIn result k ↔ (k < end) }
    {
        if end == 0 {
            return Interval::none();
        }
        Interval {
            low: 0,
            high: end - 1,
        }
    }

    /// The numbers above one.
    pub(crate) fn above(end: u32) -> Interval
        ensures { (k : ℕ) → k < 2 ^ 32 → IsIn result k ↔ (end < k) }
    {
        if end == u32::MAX {
            return Interval::none();
        }
        Interval {
            low: end + 1,
            high: u32::MAX,
        }
    }

    /// The numbers of both.
    pub(crate) fn and(self, other: Interval) -> Interval
        ensures { (k : ℕ) → IsIn result k ↔ (IsIn self k × IsIn other k) }
    {
        Interval {
            low: self.low.max(other.low),
            high: self.high.min(other.high),
        }
    }

    /// Whether a number is one of them.
    pub(crate) fn has(self, k: u32) -> bool
        ensures { IsTrue result ↔ IsIn self k }
    {
        self.low <= k && k <= self.high
    }
}
