//! What a table has of the contexts to which calls lead.
ghost use Rattle.std.specs.Prelude.{◌≡◌, ◌<◌, true, false, All, IfOk, IfSome, None, length, map, replicate};
ghost use Rattle.context_order.specs.Filled.{HasUnknown, IsKnown, IsUnknown, bound_by, bound_in};

use bt_base::Want;
use context_answers::Answer;
use std::alloc::Global;

/// So many entries without an answer yet.
pub fn empty_table(alloc: Global, count: usize) -> Result<Vec<Option<Answer>>, Want>
    ensures { IfOk result (λ table. table.items ≡ replicate count None) }
{
    let mut table = Vec::with_capacity(alloc, count)?;
    for _ in 0..count {
        table.push(None)?;
    }
    Ok(table)
}

/// Whether a table has an answer of the context to which a call leads; so it is where no call is followed.
fn is_known(table: &[Option<Answer>], link: Option<usize>) -> bool
    requires { IfSome link (λ number. number < length table.now) }
    ensures known { result ≡ true → IsKnown table.now link }
    ensures unknown { result ≡ false → IsUnknown table.now link }
{
    match link {
        None => true,
        Some(number) => table[number].is_some(),
    }
}

/// Whether a table has an answer of each context to which calls lead.
pub fn are_known(table: &[Option<Answer>], links: &[Option<usize>]) -> bool
    requires { All (λ link. IfSome link (λ number. number < length table.now)) links.now }
    ensures known { result ≡ true → All (IsKnown table.now) links.now }
    ensures unknown { result ≡ false → HasUnknown table.now links.now }
{
    for link in links {
        if !is_known(table, *link) {
            return false;
        }
    }
    true
}

/// The bound of an answer, if there is one.
fn bound_in(entry: &Option<Answer>) -> Option<u64>
    ensures { result ≡ bound_in entry.now }
{
    match entry {
        None => None,
        Some(answer) => answer.bound,
    }
}

/// The bound that a table has of the context to which a call leads; none where no call is followed.
fn bound_by(table: &[Option<Answer>], link: Option<usize>) -> Option<u64>
    requires { IfSome link (λ number. number < length table.now) }
    ensures { result ≡ bound_by table.now link }
{
    match link {
        None => None,
        Some(number) => bound_in(&table[number]),
    }
}

/// The bounds that a table has of the contexts to which calls lead, in their order; none where no call is followed.
pub fn bounds_by(
    alloc: Global,
    table: &[Option<Answer>],
    links: &[Option<usize>],
) -> Result<Vec<Option<u64>>, Want>
    requires { All (λ link. IfSome link (λ number. number < length table.now)) links.now }
    ensures { IfOk result (λ bounds. bounds.items ≡ map (bound_by table.now) links.now) }
{
    let mut bounds = Vec::with_capacity(alloc, links.len())?;
    for link in links {
        bounds.push(bound_by(table, *link))?;
    }
    Ok(bounds)
}
