ghost use Rattle.std.specs.Prelude.{◌≡◌, ℕ, ◌<◌, ◌≤◌, length, nat_le, nat_lt, slice_index_or};
ghost use Rattle.std.specs.List.Sorted.{IsNonDecreasingBy};
ghost use Rattle.graph_view.specs.Subs.{of_one, place_sub, step_sub, calling_sub, open_sub};

use crate::lists::{Calling, OpenPoint, Step};
use abs_state::Place;

/// What is of a subprogram.
pub trait OfSub {
    ghost owner: { Self → ℕ };

    /// The entry address of its subprogram.
    fn sub(&self) -> u32
        ensures { result ≡ owner self.now };
}

impl OfSub for Place {
    ghost owner = { place_sub };

    fn sub(&self) -> u32 {
        self.sub
    }
}

impl OfSub for Step {
    ghost owner = { step_sub };

    fn sub(&self) -> u32 {
        self.from.sub
    }
}

impl OfSub for Calling {
    ghost owner = { calling_sub };

    fn sub(&self) -> u32 {
        self.from.sub
    }
}

impl OfSub for OpenPoint {
    ghost owner = { open_sub };

    fn sub(&self) -> u32 {
        self.sub
    }
}

/// How many are of a subprogram below one.
fn below<T: OfSub>(list: &[T], sub: u32) -> usize
    requires { IsNonDecreasingBy T.owner list.now }
    ensures within { result ≤ length list.now }
    ensures before { (k : ℕ) (d : T) → k < result → T.owner (slice_index_or list.now k d) < sub }
    ensures behind { (k : ℕ) (d : T) → result ≤ k → k < length list.now → sub ≤ T.owner (slice_index_or list.now k d) }
{
    list.partition_point(
        |x: &T| -> bool
            ensures { result ≡ nat_lt (T.owner x.now) sub }
        { x.sub() < sub },
    )
}

/// How many are of a subprogram that is at most one.
fn up_to<T: OfSub>(list: &[T], sub: u32) -> usize
    requires { IsNonDecreasingBy T.owner list.now }
    ensures within { result ≤ length list.now }
    ensures before { (k : ℕ) (d : T) → k < result → T.owner (slice_index_or list.now k d) ≤ sub }
    ensures behind { (k : ℕ) (d : T) → result ≤ k → k < length list.now → sub < T.owner (slice_index_or list.now k d) }
{
    list.partition_point(
        |x: &T| -> bool
            ensures { result ≡ nat_le (T.owner x.now) sub }
        { x.sub() <= sub },
    )
}

/// Those of a list, which is by rising subprograms, that are of one. It takes as many steps as the logarithm of its
/// length.
pub fn of_sub<T: OfSub>(list: &[T], sub: u32) -> &[T]
    requires { IsNonDecreasingBy T.owner list.now }
    ensures { result.now ≡ of_one T.owner sub list.now }
{
    let low = below(list, sub);
    let high = up_to(list, sub);
    if low < high {
        return &list[low..high];
    }
    &list[..0]
}
