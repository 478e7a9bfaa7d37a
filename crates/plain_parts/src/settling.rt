//! A table before it is filled, and once it is.
ghost use Rattle.std.specs.Prelude.{◌≡◌, IfOk, None, map, replicate};
ghost use Rattle.plain_parts.specs.Searched.{settled};

use bt_base::Want;
use std::alloc::Global;

/// So many entries of which nothing is known.
pub fn empty_table(alloc: Global, count: usize) -> Result<Vec<Option<Option<u64>>>, Want>
    ensures { IfOk result (λ table. table.items ≡ replicate count None) }
{
    let mut table = Vec::with_capacity(alloc, count)?;
    for _ in 0..count {
        table.push(None)?;
    }
    Ok(table)
}

/// An entry once no more can be found: what isn't known has no bound.
fn settled(entry: Option<Option<u64>>) -> Option<u64>
    ensures { result ≡ settled entry }
{
    match entry {
        None => None,
        Some(bound) => bound,
    }
}

/// The entries once no more can be found.
pub fn settled_all(alloc: Global, table: &[Option<Option<u64>>]) -> Result<Vec<Option<u64>>, Want>
    ensures { IfOk result (λ bounds. bounds.items ≡ map settled table.now) }
{
    let mut bounds = Vec::with_capacity(alloc, table.len())?;
    for entry in table {
        bounds.push(settled(*entry))?;
    }
    Ok(bounds)
}
