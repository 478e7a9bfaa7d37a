ghost use Rattle.std.specs.Prelude.{◌≡◌, ◌+◌, ◌-◌, ◌/◌, ◌<◌, ◌≤◌, ℕ, true, Some, List, Bool, length, slice_get, slice_index, IfOk, IfSome};
ghost use Rattle.abs_state.specs.State.{cell_at};
ghost use Rattle.bt_base.specs.Graph.{has, is_edge};
ghost use Rattle.call_effects.specs.Mask.{has_cell};
ghost use Rattle.counter_bound.specs.Best.{AreCandidates, IsShortStep, better_of};
ghost use Rattle.counter_bound.specs.Body.{IsBodyGraph};
ghost use Rattle.counter_bound.specs.Change.{AreAdded, changes_of};
ghost use Rattle.counter_bound.specs.Counts.{HasNest, IsAdded, IsBestOrNone, IsBoundOrNone, signed, passes_by};
ghost use Rattle.loop_nest.specs.declared.natural_loop.Loop.{Loop as ALoop};
ghost use Rattle.path_bound.specs.Places.{loops_in};
ghost use Rattle.turn_sums.specs.Step.{IsStepOrNone, size_of};
ghost use Rattle.value_lattice.specs.Ends.{low_end, high_end};
ghost use Rattle.value_lattice.specs.Order.{number_at};

use crate::Change;
use crate::marking::inner_marks;
use crate::placing::{body_graph, place_in};
use crate::summing::{downs_of, ups_of};
use crate::touching::{Touched, all_touched};
use abs_state::{AbsState, HeadBound};
use bt_base::{Graph, Want};
use loop_nest::{Loop, LoopNest};
use std::alloc::Global;
use turn_sums::{TurnStep, turn_step};
use value_lattice::number_at_place;

/// The cells that may count in a loop.
fn candidates(
    alloc: Global,
    graph: &Graph,
    nest: &LoopNest,
    one: &Loop,
    changes: &[Change],
) -> Result<Touched, Want>
    requires nest { HasNest graph.now nest.now }
    requires number { (number : ℕ) × (slice_get nest.now number ≡ Some one.now) }
    requires changes { length changes.now ≡ length graph.now }
    requires added { AreAdded changes.now }
    ensures { IfOk result (AreCandidates (is_edge graph.now) (loops_in nest.now) one.now.head changes.now) }
{
    let _count = graph.count();
    let inner = inner_marks(alloc, nest.loops(), one.head, &one.body)?;
    Ok(all_touched(&one.body, changes, &inner))
}

/// The step by which all turns of a loop change a cell, if there is one: the cell is only added to, outside of the loops
/// inside. `small` is the graph of the body, and `at` the place of the head in it.
fn cell_step(
    alloc: Global,
    graph: &Graph,
    nest: &LoopNest,
    one: &Loop,
    small: &Graph,
    at: u32,
    changes: &[Change],
    cell: u8,
) -> Result<Option<TurnStep>, Want>
    requires nest { HasNest graph.now nest.now }
    requires number { (number : ℕ) × (slice_get nest.now number ≡ Some one.now) }
    requires changes { length changes.now ≡ length graph.now }
    requires small { IsBodyGraph (is_edge graph.now) one.now.body.items small.now }
    requires place { at < length one.now.body.items }
    requires head { slice_index one.now.body.items at ≡ one.now.head }
    requires added { IsAdded (loops_in nest.now) one.now.head changes.now cell }
    ensures step { IfOk result (λ step. IsStepOrNone (is_edge graph.now) ((loops_in nest.now).body one.now.head) one.now.head (changes_of changes.now cell) step) }
    ensures short { IfOk result (λ step. IfSome step IsShortStep) }
{
    let _count = graph.count();
    let _places = small.count();
    let ups = ups_of(alloc, &one.body, changes, cell)?;
    let downs = downs_of(alloc, &one.body, changes, cell)?;
    turn_step(alloc, small, at, &ups, &downs)
}

/// A step with the sign of its turns.
fn signed(step: TurnStep) -> i64
    requires { IsShortStep step }
    ensures { result ≡ signed step }
{
    match step {
        TurnStep::Rises(by) => by as i64,
        TurnStep::Falls(by) => (-(by as i128)) as i64,
    }
}

/// The size of a step.
fn size_of(step: TurnStep) -> u128
    ensures { result ≡ size_of step }
{
    match step {
        TurnStep::Rises(by) => by,
        TurnStep::Falls(by) => by,
    }
}

/// How often a head is passed at most where a cell counts by a step of this size between two ends.
fn passes_between(low: u32, high: u32, size: u128) -> u64
    requires rises { low ≤ high }
    requires size { 1 ≤ size }
    ensures { result ≡ (high - low) / size + 1 }
{
    let turns = u128::from(high - low) / size;
    turns as u64 + 1
}

/// The bound that a cell gives which counts by a step.
fn cell_bound(head: &AbsState, cell: u8, step: TurnStep) -> HeadBound
    requires cell { cell < 48 }
    requires step { IsShortStep step }
    ensures cell { result.cell ≡ cell }
    ensures step { result.step ≡ signed step }
    ensures lo { result.lo ≡ number_at (low_end (cell_at head.now cell)) }
    ensures hi { result.hi ≡ number_at (high_end (cell_at head.now cell)) }
    ensures passes { result.passes ≡ passes_by head.now cell step }
{
    let (low, high) = head.get(cell).ends();
    HeadBound {
        cell,
        step: signed(step),
        lo: number_at_place(low),
        hi: number_at_place(high),
        passes: passes_between(low, high, size_of(step)),
    }
}

/// The better of two bounds, where the second has the greater cell: that with fewer passes, then the first.
fn better(best: Option<HeadBound>, bound: HeadBound) -> Option<HeadBound>
    ensures { result ≡ better_of best bound }
{
    match best {
        None => Some(bound),
        Some(old) => {
            if bound.passes < old.passes {
                Some(bound)
            } else {
                Some(old)
            }
        }
    }
}

/// The best bound of the cells gone through, with one more cell.
fn with_cell(
    alloc: Global,
    graph: &Graph,
    nest: &LoopNest,
    one: &Loop,
    small: &Graph,
    at: u32,
    changes: &[Change],
    head: &AbsState,
    touched: &Touched,
    cell: u8,
    best: Option<HeadBound>,
) -> Result<Option<HeadBound>, Want>
    requires nest { HasNest graph.now nest.now }
    requires number { (number : ℕ) × (slice_get nest.now number ≡ Some one.now) }
    requires changes { length changes.now ≡ length graph.now }
    requires small { IsBodyGraph (is_edge graph.now) one.now.body.items small.now }
    requires place { at < length one.now.body.items }
    requires head { slice_index one.now.body.items at ≡ one.now.head }
    requires touched { AreCandidates (is_edge graph.now) (loops_in nest.now) one.now.head changes.now touched.now }
    requires cell { cell < 48 }
    requires best { IsBestOrNone (is_edge graph.now) (loops_in nest.now) one.now.head changes.now head.now cell best }
    ensures { IfOk result (IsBestOrNone (is_edge graph.now) (loops_in nest.now) one.now.head changes.now head.now (cell + 1)) }
{
    if !touched.adds.has(cell) || touched.spoilt.has(cell) {
        return Ok(best);
    }
    let step = cell_step(alloc, graph, nest, one, small, at, changes, cell)?;
    match step {
        None => Ok(best),
        Some(step) => Ok(better(best, cell_bound(head, cell, step))),
    }
}

/// The best bound of all cells.
fn best_of(
    alloc: Global,
    graph: &Graph,
    nest: &LoopNest,
    one: &Loop,
    small: &Graph,
    at: u32,
    changes: &[Change],
    head: &AbsState,
    touched: &Touched,
) -> Result<Option<HeadBound>, Want>
    requires nest { HasNest graph.now nest.now }
    requires number { (number : ℕ) × (slice_get nest.now number ≡ Some one.now) }
    requires changes { length changes.now ≡ length graph.now }
    requires small { IsBodyGraph (is_edge graph.now) one.now.body.items small.now }
    requires place { at < length one.now.body.items }
    requires head { slice_index one.now.body.items at ≡ one.now.head }
    requires touched { AreCandidates (is_edge graph.now) (loops_in nest.now) one.now.head changes.now touched.now }
    ensures { IfOk result (IsBoundOrNone (is_edge graph.now) (loops_in nest.now) one.now.head changes.now head.now) }
{
    let mut best = None;
    for cell in 0..48 {
        best = with_cell(
            alloc, graph, nest, one, small, at, changes, head, touched, cell, best,
        )?;
    }
    Ok(best)
}

/// How often the head of a loop is passed at most, from one entry into the loop's body to the next, by the cells that count
/// there: the fewest passes, then the least cell; None exactly where no cell counts.
///
/// The loops are those of the graph's nest, and `number` is the place of one of them. `changes` has what each node changes,
/// and `head` is what is known at the loop's head. A cell counts where each change of it in the body adds a number to it,
/// none of these is in a loop inside, and all turns of the loop raise it, or all lower it; the least size of a turn's sum is
/// the step. The passes are the distance of its ends at the head, read with sign, divided by the step and rounded down, and
/// one more. The work is linear in the bodies of the loop and the loops inside, and for each cell that may count in the body
/// and its edges.
pub fn head_bound(
    alloc: Global,
    graph: &Graph,
    nest: &LoopNest,
    number: u32,
    changes: &[Change],
    head: &AbsState,
) -> Result<Option<HeadBound>, Want>
    requires nest { HasNest graph.now nest.now }
    requires number { number < length nest.now }
    requires changes { length changes.now ≡ length graph.now }
    requires added { AreAdded changes.now }
    ensures { IfOk result (λ bound. (one : ALoop) → slice_get nest.now number ≡ Some one
        → IsBoundOrNone (is_edge graph.now) (loops_in nest.now) one.head changes.now head.now bound) }
{
    let _count = graph.count();
    let one = &nest.loops()[number as usize];
    let touched = candidates(alloc, graph, nest, one, changes)?;
    let small = body_graph(alloc, graph, &one.body)?;
    let at = place_in(&one.body, one.head);
    best_of(alloc, graph, nest, one, &small, at, changes, head, &touched)
}
