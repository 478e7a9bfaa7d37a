//! The calls inside call cycles.
ghost use Rattle.std.specs.Prelude.{◌≡◌, ◌<◌, ◌↔◌, ◌^◌, ◌++◌, [], ◌∷◌, ℕ, true, Contains, IfOk, IfSome, OnOk, Some, length, replicate, slice_set, vec_len};
ghost use Rattle.std.specs.List.Sorted.{IsStrictlyIncreasing};
ghost use Rattle.bt_base.specs.Graph.{has, rows_of};
ghost use Rattle.cyclic_parts.specs.Parts.{name_of};
ghost use Rattle.graph_view.specs.CallGraph.{IsCallGraph};
ghost use Rattle.graph_view.specs.Cycles.{AreCycles, AreGathered, AreInOne, AreInside, AreRisen, IsInCycle, IsRisenAt, PutsCall, cycle_row, row_of};
ghost use Rattle.graph_view.specs.Need.{AreCallers};

use crate::call_graph::place_of;
use crate::lists::Calling;
use crate::sites::address_of;
use bt_base::{Graph, Want, put_in_order};
use cyclic_parts::parts_of;
use std::alloc::Global;

/// The call cycles of subprograms.
#[derive(Debug, Drop)]
pub struct Cycles {
    /// For each subprogram the name of its call cycle, if it is in one.
    pub names: Vec<Option<u32>>,
    /// For each name the addresses of the calls inside this cycle, rising.
    pub calls: Vec<Vec<u32>>,
}

/// The name of the call cycle of a subprogram, if it is listed and in one.
fn cycle_of(subs: &[u32], names: &[Option<u32>], sub: u32) -> Option<u32>
    requires rising { IsStrictlyIncreasing subs.now }
    requires counted { length subs.now < 2 ^ 32 }
    requires count { length names.now ≡ length subs.now }
    ensures is { IfSome result (IsInCycle subs.now names.now sub) }
    ensures all { (name : ℕ) → IsInCycle subs.now names.now sub name → result ≡ Some name }
{
    match place_of(subs, sub) {
        Some(number) => names[number as usize],
        None => None,
    }
}

/// The name of the call cycle that a caller and its callee are both in.
fn cycle_round(subs: &[u32], names: &[Option<u32>], caller: u32, callee: u32) -> Option<u32>
    requires rising { IsStrictlyIncreasing subs.now }
    requires counted { length subs.now < 2 ^ 32 }
    requires count { length names.now ≡ length subs.now }
    ensures is { IfSome result (AreInside subs.now names.now caller callee) }
    ensures all { (name : ℕ) → AreInside subs.now names.now caller callee name → result ≡ Some name }
{
    let Some(from) = cycle_of(subs, names, caller) else {
        return None;
    };
    let Some(to) = cycle_of(subs, names, callee) else {
        return None;
    };
    if from == to { Some(from) } else { None }
}

/// Appends a number to a row.
fn push_at(rows: &mut Vec<Vec<u32>>, row: u32, number: u32) -> Result<(), Want>
    requires { row < vec_len rows.old }
    ensures count { vec_len rows.new ≡ vec_len rows.old }
    ensures pushed { OnOk result (rows_of rows.new.items ≡ slice_set (rows_of rows.old.items) row (row_of (rows_of rows.old.items) row ++ number ∷ [])) }
{
    let numbers = &mut rows[row as usize];
    numbers.push(number)?;
    Ok(())
}

/// Puts the address of a call into the row of the call cycle that it is inside of, if there is one.
fn put_call(
    rows: &mut Vec<Vec<u32>>,
    subs: &[u32],
    names: &[Option<u32>],
    calling: &Calling,
) -> Result<(), Want>
    requires rising { IsStrictlyIncreasing subs.now }
    requires counted { length subs.now < 2 ^ 32 }
    requires count { length names.now ≡ length subs.now }
    requires within { (n name : ℕ) → name_of names.now n ≡ Some name → name < vec_len rows.old }
    ensures count { vec_len rows.new ≡ vec_len rows.old }
    ensures puts { OnOk result (PutsCall subs.now names.now calling.now (rows_of rows.old.items) (rows_of rows.new.items)) }
{
    match cycle_round(subs, names, calling.from.sub, calling.callee) {
        Some(name) => push_at(rows, name, address_of(calling)),
        None => Ok(()),
    }
}

/// So many empty rows.
fn empty_rows(alloc: Global, count: usize) -> Result<Vec<Vec<u32>>, Want>
    ensures { IfOk result (λ rows. rows_of rows.items ≡ replicate count []) }
{
    let mut rows = Vec::with_capacity(alloc, count)?;
    for _ in 0..count {
        rows.push(Vec::new(alloc))?;
    }
    Ok(rows)
}

/// The addresses of the calls inside each call cycle, in the order of the calls.
fn gather(
    alloc: Global,
    subs: &[u32],
    names: &[Option<u32>],
    callings: &[Calling],
) -> Result<Vec<Vec<u32>>, Want>
    requires rising { IsStrictlyIncreasing subs.now }
    requires counted { length subs.now < 2 ^ 32 }
    requires count { length names.now ≡ length subs.now }
    requires within { (n name : ℕ) → name_of names.now n ≡ Some name → name < length subs.now }
    ensures count { IfOk result (λ rows. vec_len rows ≡ length subs.now) }
    ensures gathered { IfOk result (λ rows. AreGathered subs.now names.now callings.now (rows_of rows.items)) }
{
    let mut rows = empty_rows(alloc, subs.len())?;
    for calling in callings {
        put_call(&mut rows, subs, names, calling)?;
    }
    Ok(rows)
}

/// Puts one row in order.
fn put_row_in_order(rows: &mut Vec<Vec<u32>>, row: usize)
    requires { row < vec_len rows.old }
    ensures count { vec_len rows.new ≡ vec_len rows.old }
    ensures risen { IsRisenAt (rows_of rows.old.items) row (rows_of rows.new.items) }
{
    let numbers = &mut rows[row];
    put_in_order(numbers);
}

/// Puts each row in order.
fn put_rows_in_order(rows: &mut Vec<Vec<u32>>)
    ensures count { vec_len rows.new ≡ vec_len rows.old }
    ensures risen { AreRisen (rows_of rows.old.items) (vec_len rows.old) (rows_of rows.new.items) }
{
    for row in 0..rows.len() {
        put_row_in_order(rows, row);
    }
}

/// The call cycles of listed subprograms, which rise, from the graph of their calls.
///
/// An order of the graph's nodes makes it fast, and changes nothing else.
pub(crate) fn cycles_of(
    alloc: Global,
    subs: &[u32],
    callings: &[Calling],
    graph: &Graph,
    order: &[u32],
) -> Result<Cycles, Want>
    requires callers { AreCallers callings.now subs.now }
    requires counted { length subs.now < 2 ^ 32 }
    requires graph { IsCallGraph subs.now callings.now graph.now }
    requires order { (n : ℕ) → has order.now n ≡ true → n < length graph.now }
    ensures { IfOk result (AreCycles subs.now callings.now) }
{
    let names = parts_of(alloc, graph, order)?;
    let mut calls = gather(alloc, subs, &names, callings)?;
    put_rows_in_order(&mut calls);
    Ok(Cycles { names, calls })
}

impl Cycles {
    /// The addresses of the calls inside the call cycle of the subprogram with this number.
    pub(crate) fn of(&self, number: usize) -> &[u32]
        requires number { number < vec_len self.now.names }
        requires within { (n name : ℕ) → name_of self.now.names.items n ≡ Some name → name < vec_len self.now.calls }
        ensures { result.now ≡ cycle_row (rows_of self.now.calls.items) (name_of self.now.names.items number) }
    {
        match self.names[number] {
            Some(name) => &self.calls[name as usize],
            None => &[],
        }
    }

    /// Whether two subprograms, of which those that are listed rise, are in one call cycle.
    pub(crate) fn has_both(&self, subs: &[u32], caller: u32, callee: u32) -> bool
        requires rising { IsStrictlyIncreasing subs.now }
        requires counted { length subs.now < 2 ^ 32 }
        requires count { vec_len self.now.names ≡ length subs.now }
        ensures { (result ≡ true) ↔ AreInOne subs.now self.now.names.items caller callee }
    {
        cycle_round(subs, &self.names, caller, callee).is_some()
    }
}
