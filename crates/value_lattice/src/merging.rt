ghost use Rattle.std.specs.Prelude.{◌≡◌, ◌<◌, ◌≤◌, ◌⊎◌, IfOk, length, slice_index};
ghost use Rattle.std.specs.List.Sorted.{IsStrictlyIncreasing};
ghost use Rattle.value_lattice.specs.Merge.{IsStep, IsMerge};

use bt_base::Want;
use std::alloc::Global;

/// The least of the numbers that are left of two rising lists, of which `i` and `j` are taken.
fn next_of(xs: &[u32], i: usize, ys: &[u32], j: usize) -> u32
    requires left { (i < length xs.now) ⊎ (j < length ys.now) }
    ensures first { i < length xs.now → result ≤ slice_index xs.now i }
    ensures second { j < length ys.now → result ≤ slice_index ys.now j }
    ensures one { ((i < length xs.now) × (slice_index xs.now i ≡ result)) ⊎ ((j < length ys.now) × (slice_index ys.now j ≡ result)) }
{
    if i >= xs.len() {
        return ys[j];
    }
    if j >= ys.len() || xs[i] <= ys[j] {
        return xs[i];
    }
    ys[j]
}

/// How many of a list are taken once a number is that is at most the first that is left.
fn step(numbers: &[u32], i: usize, number: u32) -> usize
    requires within { i ≤ length numbers.now }
    requires next { i < length numbers.now → number ≤ slice_index numbers.now i }
    ensures step { IsStep numbers.now i number result }
{
    if i < numbers.len() && numbers[i] == number {
        i + 1
    } else {
        i
    }
}

/// The numbers of two rising lists, rising.
pub(crate) fn merge(alloc: Global, xs: &[u32], ys: &[u32]) -> Result<Vec<u32>, Want>
    requires left { IsStrictlyIncreasing xs.now }
    requires right { IsStrictlyIncreasing ys.now }
    ensures { IfOk result (λ v. IsMerge xs.now ys.now v.items) }
{
    let mut merged = Vec::new(alloc);
    let mut i = 0;
    let mut j = 0;
    while i < xs.len() || j < ys.len() {
        let number = next_of(xs, i, ys, j);
        merged.push(number)?;
        i = step(xs, i, number);
        j = step(ys, j, number);
    }
    Ok(merged)
}
