ghost use Rattle.std.specs.Prelude.{◌≡◌, ◌<◌, ◌^◌, ℕ, Contains, IfOk, length, map, slice_index_or, vec_len};
ghost use Rattle.std.specs.List.Sorted.{IsStrictlyIncreasing};
ghost use Rattle.graph_view.specs.Details.{AreDetails, AreReady, IsFound, shown};
ghost use Rattle.graph_view.specs.View.{gap_of};
ghost use Rattle.graph_view.specs.declared.details.Details.{Details};

use crate::call_graph::place_of;
use crate::lists::{KeyLists, OpenPoint};
use crate::numbers::graph_of;
use crate::owned::of_sub;
use crate::sites::{CallSite, sites_of};
use abs_state::GapKind;
use bt_base::{Graph, Want};
use std::alloc::Global;

/// What a view keeps of a subprogram.
#[derive(Debug, Drop)]
pub struct Details {
    /// Its steps, as a graph of the numbers of its program points.
    pub graph: Graph,
    /// Its calls, in the order of their program points and callees.
    pub calls: Vec<CallSite>,
    /// What isn't known behind instructions, and their addresses.
    pub gaps: Vec<(GapKind, u32)>,
}

/// What isn't known at some points, and their addresses.
fn gaps_of(alloc: Global, opens: &[OpenPoint]) -> Result<Vec<(GapKind, u32)>, Want>
    ensures { IfOk result (λ gaps. gaps.items ≡ map gap_of opens.now) }
{
    let gaps = opens
        .iter()
        .map(|point| (point.why, point.pc))
        .collect(alloc)?;
    Ok(gaps)
}

/// What a view keeps of a subprogram.
fn details_of(alloc: Global, lists: &KeyLists, sub: u32) -> Result<Details, Want>
    requires { AreReady (shown lists.now) }
    ensures { IfOk result (AreDetails (shown lists.now) sub) }
{
    let nodes = of_sub(&lists.places, sub);
    let steps = of_sub(&lists.steps, sub);
    let callings = of_sub(&lists.callings, sub);
    let opens = of_sub(&lists.opens, sub);
    let graph = graph_of(alloc, nodes, steps)?;
    let calls = sites_of(alloc, nodes, callings)?;
    let gaps = gaps_of(alloc, opens)?;
    Ok(Details { graph, calls, gaps })
}

/// What a view keeps of each of some subprograms.
pub(crate) fn details_of_all(
    alloc: Global,
    lists: &KeyLists,
    subs: &[u32],
) -> Result<Vec<Details>, Want>
    requires { AreReady (shown lists.now) }
    ensures count { IfOk result (λ all. vec_len all ≡ length subs.now) }
    ensures each { IfOk result (λ all. (k : ℕ) (d : Details) → k < length subs.now → AreDetails (shown lists.now) (slice_index_or subs.now k 0) (slice_index_or all.items k d)) }
{
    let mut all = Vec::new(alloc);
    for sub in subs {
        let details = details_of(alloc, lists, *sub)?;
        all.push(details)?;
    }
    Ok(all)
}

/// What is kept of a listed subprogram.
pub(crate) fn find<'a>(subs: &[u32], details: &'a [Details], sub: u32) -> &'a Details
    requires rising { IsStrictlyIncreasing subs.now }
    requires counted { length subs.now < 2 ^ 32 }
    requires count { length details.now ≡ length subs.now }
    requires listed { Contains subs.now sub }
    ensures { IsFound subs.now details.now sub result.now }
{
    match place_of(subs, sub) {
        Some(number) => &details[number as usize],
        None => unreachable!(),
    }
}
