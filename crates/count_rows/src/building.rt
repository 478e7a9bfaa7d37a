//! Graphs, changes and states of small rows.

use crate::{AskRefusal, ask_bound};
use abs_state::{AbsState, HeadBound};
use bt_base::{Graph, Want};
use call_effects::Mask;
use counter_bound::Change;
use std::alloc::Global;
use value_lattice::{Thresholds, cover};

/// What a node does.
#[derive(Clone, Copy, Debug)]
pub(crate) enum Does {
    /// It changes no cell.
    Nothing,
    /// It adds a number to a cell.
    Adds(u8, i32),
    /// It changes cell 8 in another way.
    Else,
}

/// A bound: its cell, its step, the ends of the cell at the head, and the passes.
pub(crate) type Told = (u8, i64, i32, i32, u64);

/// A row: what the four nodes of a loop do, the ends of cells 8 and 9 at the head, and the bound.
pub(crate) struct Row {
    pub does: [Does; 4],
    pub eight: (i32, i32),
    pub nine: (i32, i32),
    pub bound: Option<Told>,
}

/// A graph of some edges; an edge of another node is left out.
pub(crate) fn graph_of(alloc: Global, count: u32, edges: &[(u32, u32)]) -> Result<Graph, Want> {
    let mut graph = Graph::new(alloc, count)?;
    for (from, to) in edges {
        if *from < graph.count() && *to < graph.count() {
            graph.add(*from, *to)?;
        }
    }
    Ok(graph)
}

/// What a node changes.
fn change_of(does: Does) -> Change {
    match does {
        Does::Nothing => Change::Other(Mask::none()),
        Does::Adds(cell, k) => Change::Add { cell, k },
        Does::Else => Change::Other(Mask::none().with(8)),
    }
}

/// What the nodes change.
fn changes_of(alloc: Global, does: &[Does]) -> Result<Vec<Change>, Want> {
    let mut changes = Vec::new(alloc);
    for one in does {
        changes.push(change_of(*one))?;
    }
    Ok(changes)
}

/// What is known at a head where cells 8 and 9 have one of two words each, read with sign.
fn state_of(alloc: Global, eight: (i32, i32), nine: (i32, i32)) -> Result<AbsState, Want> {
    let t = Thresholds::make(alloc, &[])?;
    let mut state = AbsState::entry(alloc)?;
    let ends = [eight.0.cast_unsigned(), eight.1.cast_unsigned()];
    state.set(8, cover(alloc, &ends, &t)?);
    let ends = [nine.0.cast_unsigned(), nine.1.cast_unsigned()];
    state.set(9, cover(alloc, &ends, &t)?);
    Ok(state)
}

/// Whether a bound is as told.
pub(crate) fn is_bound(found: Option<HeadBound>, told: Option<Told>) -> bool {
    match (found, told) {
        (Some(bound), Some((cell, step, lo, hi, passes))) => {
            bound.cell == cell
                && bound.step == step
                && bound.lo == lo
                && bound.hi == hi
                && bound.passes == passes
        }
        (None, None) => true,
        _ => false,
    }
}

/// Whether the bound of a loop is that of its row.
pub(crate) fn is_row(
    alloc: Global,
    graph: &Graph,
    number: u32,
    row: &Row,
) -> Result<bool, AskRefusal> {
    let changes = changes_of(alloc, &row.does)?;
    let head = state_of(alloc, row.eight, row.nine)?;
    let found = ask_bound(alloc, graph, number, &changes, &head)?;
    Ok(is_bound(found, row.bound))
}
