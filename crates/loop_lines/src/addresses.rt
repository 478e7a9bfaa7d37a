//! The addresses of program points that match asserted loops.
ghost use Rattle.std.specs.Prelude.{◌≡◌, ◌<◌, ◌^◌, ◌++◌, ℕ, Contains, IfOk, OnOk, length, map};
ghost use Rattle.std.specs.List.Sorted.{IsStrictlyIncreasing, IsStrictlySortedBy};
ghost use Rattle.graph_view.specs.Numbers.{IsNumber, place_cmp};
ghost use Rattle.graph_view.specs.View.{IsViewed};
ghost use Rattle.loop_lines.specs.Matched.{AddsMatched, AreAddresses, IsRooted, address_at};
ghost use Rattle.transfer_rules.specs.Give.{entry_of};

use crate::matching::matching_nodes;
use abs_state::{Next, Place};
use bt_base::{Want, put_in_order};
use graph_view::{View, number_of};
use std::alloc::Global;

/// The entry of a subprogram as a program point.
fn entry_place(sub: u32) -> Place
    ensures { result ≡ entry_of sub }
{
    Place {
        sub,
        pc: sub,
        next: Next::At(sub.wrapping_add(4)),
        depth: 0,
    }
}

/// The number of the entry of a subprogram among its program points, which rise.
fn entry_node(places: &[Place], sub: u32) -> u32
    requires rise { IsStrictlySortedBy place_cmp places.now }
    requires small { length places.now < 2 ^ 32 }
    requires there { Contains places.now (entry_of sub) }
    ensures { IsNumber places.now (entry_of sub) result }
{
    match number_of(places, &entry_place(sub)) {
        Some(node) => node,
        None => unreachable!(),
    }
}

/// Appends the addresses of the program points with these numbers.
fn push_addresses(addresses: &mut Vec<u32>, places: &[Place], nodes: &[u32]) -> Result<(), Want>
    requires { (n : ℕ) → Contains nodes.now n → n < length places.now }
    ensures { OnOk result (addresses.new.items ≡ addresses.old.items ++ map (address_at places.now) nodes.now) }
{
    for node in nodes {
        addresses.push(places[*node as usize].pc)?;
    }
    Ok(())
}

/// Appends the addresses of the program points of a subprogram that match asserted loops.
fn push_matched(addresses: &mut Vec<u32>, alloc: Global, view: &View, sub: u32) -> Result<(), Want>
    requires viewed { IsViewed view.now sub }
    requires rooted { IsRooted view.now sub }
    ensures { OnOk result (AddsMatched view.now sub addresses.old.items addresses.new.items) }
{
    let places = view.nodes(sub);
    let graph = view.graph(sub);
    // The successors of each node of a graph rise and are nodes.
    graph.count();
    let entry = entry_node(places, sub);
    let nodes = matching_nodes(alloc, graph, entry)?;
    push_addresses(addresses, places, &nodes)
}

/// The addresses of the program points that match asserted loops, of all subprograms, rising.
pub(crate) fn matched_addresses(alloc: Global, view: &View) -> Result<Vec<u32>, Want>
    requires { (sub : ℕ) → IsViewed view.now sub → IsRooted view.now sub }
    ensures rising { IfOk result (λ addresses. IsStrictlyIncreasing addresses.items) }
    ensures are { IfOk result (λ addresses. AreAddresses view.now addresses.items) }
{
    let mut addresses = Vec::new(alloc);
    let subs = view.subs();
    for sub in subs {
        push_matched(&mut addresses, alloc, view, *sub)?;
    }
    put_in_order(&mut addresses);
    Ok(addresses)
}
