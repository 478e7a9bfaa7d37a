//! An order of subprograms in which callers come before what they call.
ghost use Rattle.std.specs.Prelude.{◌≡◌, ◌<◌, ◌^◌, true, ℕ, IfOk, IfSome, length};
ghost use Rattle.std.specs.List.Sorted.{IsStrictlyIncreasing};
ghost use Rattle.bt_base.specs.Graph.{has};

use abs_state::Key;
use bt_base::{Graph, Want};
use cyclic_parts::order_of;
use std::alloc::Global;

/// The number of a subprogram among some that rise.
fn number_of(subs: &[u32], sub: u32) -> Option<u32>
    requires counted { length subs.now < 2 ^ 32 }
    ensures { IfSome result (λ number. number < length subs.now) }
{
    match subs.binary_search(&sub) {
        Ok(number) => Some(number as u32),
        Err(_) => None,
    }
}

/// Adds the call of a key between two listed subprograms to a graph.
fn add_call(graph: &mut Graph, subs: &[u32], key: &Key) -> Result<(), Want>
    requires counted { length subs.now < 2 ^ 32 }
    requires count { length graph.old ≡ length subs.now }
    ensures { length graph.new ≡ length graph.old }
{
    let Key::Call { from, callee } = key else {
        return Ok(());
    };
    let Some(caller) = number_of(subs, from.sub) else {
        return Ok(());
    };
    let Some(called) = number_of(subs, *callee) else {
        return Ok(());
    };
    graph.add(caller, called)
}

/// The numbers of listed subprograms, which rise: callers before what they call and that doesn't call them. There are none
/// where so many subprograms are listed that they have no numbers. It says only that it names listed ones, so that nothing
/// but speed rests on it.
pub fn order(alloc: Global, subs: &[u32], keys: &[Key]) -> Result<Vec<u32>, Want>
    ensures { IfOk result (λ order. (n : ℕ) → has order.items n ≡ true → n < length subs.now) }
{
    if subs.len() > 0xffff_ffff {
        return Ok(Vec::new(alloc));
    }
    let mut graph = Graph::new(alloc, subs.len() as u32)?;
    for key in keys {
        add_call(&mut graph, subs, key)?;
    }
    order_of(alloc, &graph)
}
