ghost use Rattle.std.specs.Prelude.{◌≡◌, ◌<◌, ◌↔◌, ◌^◌, IfOk, length, map, true};
ghost use Rattle.std.specs.List.Sorted.{IsStrictlySortedBy};
ghost use Rattle.graph_laws.specs.Nest.{SamePart};
ghost use Rattle.graph_view.specs.Cycles.{AreCycleCalls, AreCycles};
ghost use Rattle.graph_view.specs.Details.{AreDetails};
ghost use Rattle.graph_view.specs.Need.{AreCounted, AreNeeds, IsNeed, calls_of};
ghost use Rattle.graph_view.specs.Numbers.{IsStepGraph, place_cmp};
ghost use Rattle.graph_view.specs.Sites.{AreSites};
ghost use Rattle.graph_view.specs.Subs.{AreSubs};
ghost use Rattle.graph_view.specs.View.{AreViewed, IsViewed, by_kind, callings_of, gap_of, nodes_of, opens_of, steps_of};

use crate::call_graph::{call_graph_of, place_of};
use crate::cycles::{Cycles, cycles_of};
use crate::details::{Details, details_of_all, find};
use crate::lists::{Calling, KeyLists};
use crate::needs::{entry, needs_of};
use crate::owned::of_sub;
use crate::sites::CallSite;
use crate::subs::subs_of;
use abs_state::{GapKind, Key, Place};
use bt_base::{Graph, Want};
use cyclic_parts::order_of;
use std::alloc::Global;
use std::marker::Model;

/// The call cycles of subprograms, and what each needs.
fn cycles_and_needs(
    alloc: Global,
    places: &[Place],
    callings: &[Calling],
    subs: &[u32],
) -> Result<(Cycles, Vec<Option<u32>>), Want>
    requires { AreCounted places.now callings.now subs.now }
    ensures cycles { IfOk result (λ both. AreCycles subs.now callings.now both.0) }
    ensures needs { IfOk result (λ both. AreNeeds places.now callings.now subs.now both.1.items) }
{
    let graph = call_graph_of(alloc, subs, callings)?;
    let order = order_of(alloc, &graph)?;
    let cycles = cycles_of(alloc, subs, callings, &graph, &order)?;
    let needs = needs_of(alloc, places, callings, subs, &order)?;
    Ok((cycles, needs))
}

/// The keys of some facts by subprogram: its program points by number, the graph of its steps, its calls and open
/// points, the calls inside its call cycle, and how many register windows it needs.
///
/// It is seen as the keys by their kind. Each look-up takes as many steps as the logarithm of the number of keys.
#[derive(Debug, Drop)]
pub struct View {
    lists: KeyLists,
    subs: Vec<u32>,
    details: Vec<Details>,
    cycles: Cycles,
    needs: Vec<Option<u32>>,
}

impl Model for View {
    ghost use Rattle.graph_view.specs.Details.{IsWhole, shown};
    ghost use Rattle.graph_view.specs.View.{ByKind};

    ghost Value = { ByKind };

    ghost view = { λ view. shown view.lists };

    ghost invariant = { λ view. IsWhole (shown view.lists) view.subs.items view.details.items view.cycles view.needs.items };
}

impl View {
    /// The view of keys, which rise, name fewer than 2^32 program points, none more than one window down, and have the
    /// program points of all steps and calls. The work grows as the number of keys times its logarithm.
    pub fn of(alloc: Global, keys: &[Key]) -> Result<View, Want>
        requires { AreViewed keys.now }
        ensures { IfOk result (λ view. view ≡ by_kind keys.now) }
    {
        let lists = KeyLists::of(alloc, keys)?;
        let subs = subs_of(alloc, &lists.places)?;
        let details = details_of_all(alloc, &lists, &subs)?;
        let (cycles, needs) = cycles_and_needs(alloc, &lists.places, &lists.callings, &subs)?;
        Ok(View {
            lists,
            subs,
            details,
            cycles,
            needs,
        })
    }

    /// The subprograms that have program points: their entry addresses, rising.
    pub fn subs(&self) -> &[u32]
        ensures { AreSubs self.now.places result.now }
    {
        &self.subs
    }

    /// The program points of a subprogram by address, what comes next, and depth; none where it isn't among `subs`.
    pub fn nodes(&self, sub: u32) -> &[Place]
        ensures nodes { result.now ≡ nodes_of self.now sub }
        ensures rise { IsStrictlySortedBy place_cmp result.now }
        ensures few { length result.now < 2 ^ 32 }
    {
        of_sub(&self.lists.places, sub)
    }

    /// What is kept of a subprogram.
    fn kept(&self, sub: u32) -> &Details
        requires { IsViewed self.now sub }
        ensures { AreDetails self.now sub result.now }
    {
        find(&self.subs, &self.details, sub)
    }

    /// The steps of a subprogram, as a graph of the numbers of its program points.
    pub fn graph(&self, sub: u32) -> &Graph
        requires { IsViewed self.now sub }
        ensures { IsStepGraph (nodes_of self.now sub) (steps_of self.now sub) result.now }
    {
        &self.kept(sub).graph
    }

    /// The calls of a subprogram, in the order of their program points and callees.
    pub fn calls(&self, sub: u32) -> &[CallSite]
        requires { IsViewed self.now sub }
        ensures { AreSites (nodes_of self.now sub) (callings_of self.now sub) result.now }
    {
        &self.kept(sub).calls
    }

    /// What isn't known behind instructions of a subprogram, and their addresses.
    pub fn gaps(&self, sub: u32) -> &[(GapKind, u32)]
        requires { IsViewed self.now sub }
        ensures { result.now ≡ map gap_of (opens_of self.now sub) }
    {
        &self.kept(sub).gaps
    }

    /// The addresses of all calls inside the call cycle of a subprogram, rising; none where it is in no cycle.
    pub fn recursive(&self, sub: u32) -> &[u32]
        requires { IsViewed self.now sub }
        ensures { AreCycleCalls self.now.callings sub result.now }
    {
        match place_of(&self.subs, sub) {
            Some(number) => self.cycles.of(number as usize),
            None => unreachable!(),
        }
    }

    /// Whether a subprogram and one that it calls are in one call cycle: each leads by calls to the other.
    pub fn is_cyclic(&self, caller: u32, callee: u32) -> bool
        ensures { (result ≡ true) ↔ SamePart (calls_of self.now.callings) caller callee }
    {
        self.cycles.has_both(&self.subs, caller, callee)
    }

    /// How many register windows a subprogram needs with all that it calls: the greatest number of nested SAVEs, or
    /// nothing exactly where a call cycle is reached. A subprogram without program points needs none.
    pub fn need(&self, sub: u32) -> Option<u32>
        ensures { IsNeed self.now.places self.now.callings sub result }
    {
        entry(&self.subs, &self.needs, sub)
    }
}
