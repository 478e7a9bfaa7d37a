ghost use Rattle.std.specs.Prelude.{◌≡◌, ◌+◌, ◌*◌};
ghost use Rattle.path_bound.specs.Capped.{cap};

/// More than any cost that is told as it is: 2^63.
pub(crate) const LIMIT: u64 = 1 << 63;

/// A cost, or the limit where it is more.
pub(crate) fn capped(cost: u64) -> u64
    ensures { result ≡ cap cost }
{
    cost.min(LIMIT)
}

/// The sum of two costs, or the limit where it is more.
pub(crate) fn sum(one: u64, two: u64) -> u64
    ensures { result ≡ cap (one + two) }
{
    one.saturating_add(two).min(LIMIT)
}

/// The product of two numbers, or the limit where it is more.
pub(crate) fn product(one: u64, two: u64) -> u64
    ensures { result ≡ cap (one * two) }
{
    one.saturating_mul(two).min(LIMIT)
}
