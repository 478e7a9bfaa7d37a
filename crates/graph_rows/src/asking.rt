ghost use Rattle.std.specs.Prelude.{◌≡◌, ◌<◌, ℕ, length, IsTrue};
ghost use Rattle.path_bound.specs.Places.{AreBounds};

use crate::ordering::all_lead_on;
use crate::reaching::all_are_led_to;
use bt_base::{Graph, Want};
use loop_nest::{Loop, LoopNest, NestRefusal, nest};
use path_bound::{Costs, LongWalk, PathRefusal, longest};
use std::alloc::Global;
use turn_sums::{TurnStep, turn_step};

/// Why a graph wasn't asked about, or what it answered.
#[derive(Clone, Copy, Debug, PartialEq, Eq)]
pub enum AskRefusal {
    /// Memory is wanting.
    Want,
    /// A condition of the call doesn't hold.
    Condition,
    /// There is no nest.
    Nest(NestRefusal),
    /// There is no greatest cost.
    Path(PathRefusal),
}

impl From<Want> for AskRefusal {
    fn from(_: Want) -> AskRefusal {
        AskRefusal::Want
    }
}

/// The nest of a graph from its first node on. An edge must lead to each other node from one before it.
pub fn ask_nest(alloc: Global, graph: &Graph) -> Result<LoopNest, AskRefusal> {
    if !all_are_led_to(alloc, graph)? {
        return Err(AskRefusal::Condition);
    }
    match nest(alloc, graph, 0) {
        Ok(nest) => Ok(nest),
        Err(refused) => Err(AskRefusal::Nest(refused)),
    }
}

/// Whether there is a bound of at least 1 for each loop.
fn are_bounds(loops: &[Loop], bounds: &[u64]) -> bool
    ensures { IsTrue result → AreBounds loops.now bounds.now }
{
    if loops.len() != bounds.len() {
        return false;
    }
    for bound in bounds {
        if *bound == 0 {
            return false;
        }
    }
    true
}

/// The longest walk of a graph from its first node on.
pub fn ask_longest(
    alloc: Global,
    graph: &Graph,
    bounds: &[u64],
    costs: &Costs,
) -> Result<LongWalk, AskRefusal> {
    if !all_are_led_to(alloc, graph)? {
        return Err(AskRefusal::Condition);
    }
    let nest = match nest(alloc, graph, 0) {
        Ok(nest) => nest,
        Err(refused) => return Err(AskRefusal::Nest(refused)),
    };
    if !are_bounds(nest.loops(), bounds) || costs.node.len() != graph.count() as usize {
        return Err(AskRefusal::Condition);
    }
    match longest(alloc, graph, &nest, 0, bounds, costs) {
        Ok(long) => Ok(long),
        Err(refused) => Err(AskRefusal::Path(refused)),
    }
}

/// The step of the turns round the first node of a graph, whose other edges lead on.
pub fn ask_step(
    alloc: Global,
    graph: &Graph,
    ups: &[u32],
    downs: &[u32],
) -> Result<Option<TurnStep>, AskRefusal> {
    let count = graph.count() as usize;
    if count == 0 || ups.len() != count || downs.len() != count || !all_lead_on(graph) {
        return Err(AskRefusal::Condition);
    }
    Ok(turn_step(alloc, graph, 0, ups, downs)?)
}
