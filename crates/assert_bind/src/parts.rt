//! What single assertions give.
ghost use Rattle.std.specs.Prelude.{◌≡◌, IfSome, IfOk};
ghost use Rattle.std.specs.Option.{option_copied};
ghost use Rattle.assert_lang.specs.Bounds.{IsCount};
ghost use Rattle.assert_bind.specs.Binding.{root_in, stub_in, time_in, range_in, targets_in, count_in, loop_in, roots, stubs, loops, ends, ends_in};
ghost use Rattle.assert_bind.specs.Body.{IsWithin};

use crate::{BoundAssertion, BoundBody, LoopLine};
use bt_base::Want;
use std::alloc::Global;

/// The entry of a root.
fn root_in(body: &BoundBody) -> Option<u32>
    ensures { result ≡ root_in body.now }
{
    match body {
        BoundBody::Root(entry) => Some(*entry),
        _ => None,
    }
}

/// The entry of a stub.
fn stub_in(body: &BoundBody) -> Option<u32>
    ensures { result ≡ stub_in body.now }
{
    match body {
        BoundBody::Stub { entry, .. } => Some(*entry),
        _ => None,
    }
}

/// The time of a stub.
pub fn time_in(body: &BoundBody) -> Option<u64>
    ensures value { result ≡ time_in body.now }
    ensures within { IsWithin body.now → IfSome result IsCount }
{
    match body {
        BoundBody::Stub { time, .. } => Some(*time),
        _ => None,
    }
}

/// The ends of a register's range.
pub fn range_in(body: &BoundBody) -> Option<(i32, i32)>
    ensures { result ≡ range_in body.now }
{
    match body {
        BoundBody::At { lo, hi, .. } => Some((*lo, *hi)),
        _ => None,
    }
}

/// The targets of a jump or a call.
pub fn targets_in(body: &BoundBody) -> Option<&[u32]>
    ensures { option_copied result ≡ targets_in body.now }
{
    match body {
        BoundBody::Jump { to, .. } => Some(to.as_slice()),
        BoundBody::CallTo { to, .. } => Some(to.as_slice()),
        _ => None,
    }
}

/// The count of a loop.
pub fn count_in(body: &BoundBody) -> Option<u64>
    ensures value { result ≡ count_in body.now }
    ensures within { IsWithin body.now → IfSome result IsCount }
{
    match body {
        BoundBody::Loop { count, .. } => Some(*count),
        _ => None,
    }
}

/// The line of a loop.
fn loop_in(line: u32, body: &BoundBody) -> Option<LoopLine>
    ensures { result ≡ loop_in line body.now }
{
    match body {
        BoundBody::Loop { pc, count } => Some(LoopLine {
            line,
            pc: *pc,
            count: *count,
        }),
        _ => None,
    }
}

/// The entries of the roots, in the file's order.
pub fn roots(alloc: Global, list: &[BoundAssertion]) -> Result<Vec<u32>, Want>
    ensures { IfOk result (λ entries. entries.items ≡ roots list.now) }
{
    let mut entries = Vec::new(alloc);
    for assertion in list {
        if let Some(entry) = root_in(&assertion.body) {
            entries.push(entry)?;
        }
    }
    Ok(entries)
}

/// The entries of the stubs, in the file's order.
pub fn stubs(alloc: Global, list: &[BoundAssertion]) -> Result<Vec<u32>, Want>
    ensures { IfOk result (λ entries. entries.items ≡ stubs list.now) }
{
    let mut entries = Vec::new(alloc);
    for assertion in list {
        if let Some(entry) = stub_in(&assertion.body) {
            entries.push(entry)?;
        }
    }
    Ok(entries)
}

/// The loops, in the file's order.
pub fn loops(alloc: Global, list: &[BoundAssertion]) -> Result<Vec<LoopLine>, Want>
    ensures { IfOk result (λ lines. lines.items ≡ loops list.now) }
{
    let mut lines = Vec::new(alloc);
    for assertion in list {
        if let Some(line) = loop_in(assertion.line, &assertion.body) {
            lines.push(line)?;
        }
    }
    Ok(lines)
}

/// The lower and then the upper end of each range, in the file's order.
pub fn ends(alloc: Global, list: &[BoundAssertion]) -> Result<Vec<i32>, Want>
    ensures { IfOk result (λ numbers. numbers.items ≡ ends list.now) }
{
    let mut numbers = Vec::new(alloc);
    for assertion in list {
        if let Some((lo, hi)) = range_in(&assertion.body) {
            numbers.push(lo)?;
            numbers.push(hi)?;
        }
    }
    Ok(numbers)
}
