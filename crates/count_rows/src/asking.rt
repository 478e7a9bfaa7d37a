ghost use Rattle.std.specs.Prelude.{◌≡◌, ◌<◌, ◌≤◌, ℕ, ℤ, IfOk, IsTrue};
ghost use Rattle.counter_bound.specs.Change.{AreAdded};
ghost use Rattle.counter_bound.specs.Counts.{HasNest};
ghost use Rattle.counter_bound.specs.declared.change.Change.TheVariants.{Add};

use abs_state::{AbsState, HeadBound};
use bt_base::{Graph, Want};
use counter_bound::{Change, head_bound};
use graph_rows::all_are_led_to;
use loop_nest::{LoopNest, NestRefusal, nest};
use std::alloc::Global;

/// Why a loop wasn't asked about.
#[derive(Clone, Copy, Debug, PartialEq, Eq)]
pub enum AskRefusal {
    /// Memory is wanting.
    Want,
    /// A condition of the call doesn't hold.
    Condition,
    /// There is no nest.
    Nest(NestRefusal),
}

impl From<Want> for AskRefusal {
    fn from(_: Want) -> AskRefusal {
        AskRefusal::Want
    }
}

/// Whether what is added to is a cell, but not cell 0.
fn is_added(change: Change) -> bool
    ensures { IsTrue result → (cell : ℕ) (k : ℤ) → change ≡ Add cell k → (1 ≤ cell) × (cell < 48) }
{
    match change {
        Change::Add { cell, k: _ } => 1 <= cell && cell < 48,
        Change::Other(_) => true,
    }
}

/// Whether all that is added to are cells, but not cell 0.
fn are_added(changes: &[Change]) -> bool
    ensures { IsTrue result → AreAdded changes.now }
{
    for change in changes {
        if !is_added(*change) {
            return false;
        }
    }
    true
}

/// The nest of a graph from its first node on, to each other of which an edge leads from one before it.
fn nest_of(alloc: Global, graph: &Graph) -> Result<LoopNest, AskRefusal>
    ensures { IfOk result (HasNest graph.now) }
{
    if !all_are_led_to(alloc, graph)? {
        return Err(AskRefusal::Condition);
    }
    match nest(alloc, graph, 0) {
        Ok(nest) => Ok(nest),
        Err(refused) => Err(AskRefusal::Nest(refused)),
    }
}

/// The bound of a loop's head in a graph from its first node on, to each other of which an edge leads from one before it.
pub fn ask_bound(
    alloc: Global,
    graph: &Graph,
    number: u32,
    changes: &[Change],
    head: &AbsState,
) -> Result<Option<HeadBound>, AskRefusal> {
    let nest = nest_of(alloc, graph)?;
    let count = nest.loops().len();
    if number as usize >= count || changes.len() != graph.count() as usize {
        return Err(AskRefusal::Condition);
    }
    if !are_added(changes) {
        return Err(AskRefusal::Condition);
    }
    Ok(head_bound(alloc, graph, &nest, number, changes, head)?)
}
