//! Numbers that rise: put in order, searched, cut, and compared with others.
ghost use Rattle.std.specs.Prelude.{◌≡◌, ◌<◌, ◌≤◌, ◌↔◌, ℕ, length, slice_index_or, All, Contains, IfOk, IsTrue};
ghost use Rattle.bt_image.specs.Extent.{Rise};
ghost use Rattle.bt_image.specs.Values.{AreShared};

use std::alloc::{AllocError, Global};

/// Puts numbers in order, each once.
pub fn put_in_order(numbers: &mut Vec<u32>)
    ensures rise { Rise numbers.new.items }
    ensures keeps { (a : ℕ) → Contains numbers.old.items a → Contains numbers.new.items a }
    ensures adds_none { (a : ℕ) → Contains numbers.new.items a → Contains numbers.old.items a }
{
    numbers.sort_unstable();
    numbers.dedup();
}

/// Whether the numbers have `a`.
fn has(numbers: &[u32], a: u32) -> bool
    requires { Rise numbers.now }
    ensures { IsTrue result ↔ Contains numbers.now a }
{
    numbers.binary_search(&a).is_ok()
}

/// How many of the numbers are below `a`.
fn below(numbers: &[u32], a: u64) -> usize
    requires { Rise numbers.now }
    ensures within { result ≤ length numbers.now }
    ensures below { (k : ℕ) → k < result → slice_index_or numbers.now k 0 < a }
    ensures above { (k : ℕ) → result ≤ k → k < length numbers.now → a ≤ slice_index_or numbers.now k 0 }
{
    numbers.partition_point(|x| u64::from(*x) < a)
}

/// The numbers from `low` to below `high`.
pub fn between(numbers: &[u32], low: u32, high: u64) -> &[u32]
    requires { Rise numbers.now }
    ensures rise { Rise result.now }
    ensures each { All (λ a. Contains numbers.now a × (low ≤ a) × (a < high)) result.now }
    ensures all { (a : ℕ) → Contains numbers.now a → low ≤ a → a < high → Contains result.now a }
{
    let from = below(numbers, u64::from(low));
    let to = below(numbers, high);
    if to <= from {
        return &numbers[..0];
    }
    &numbers[from..to]
}

/// The numbers that others have too.
pub fn shared(alloc: Global, numbers: &[u32], others: &[u32]) -> Result<Vec<u32>, AllocError>
    requires numbers { Rise numbers.now }
    requires others { Rise others.now }
    ensures { IfOk result (λ found. AreShared numbers.now others.now (length numbers.now) found.items) }
{
    let mut found = Vec::new(alloc);
    for i in 0..numbers.len() {
        if has(others, numbers[i]) {
            found.push(numbers[i])?;
        }
    }
    Ok(found)
}
