ghost use Rattle.std.specs.Prelude.{◌≡◌, ◌<◌, ◌||◌, true, false, Some, None, IfOk, IfSome, if◌then◌else◌};
ghost use Rattle.value_lattice.specs.Test.{is_over_or_none as is_value_over};
ghost use Rattle.value_lattice.specs.Value.{IsValue, is_ret, is_some_ret};
ghost use Rattle.value_refine.specs.Refinement.{refine};
ghost use Rattle.abs_state.specs.State.{cell_at, is_state_over, may_name, may_speak};
ghost use Rattle.transfer_rules.specs.Lawful.{is_over_or_none};
ghost use Rattle.transfer_values.specs.Source.{operand};
ghost use Rattle.transfer_values.specs.Test.{with_part, left_with, asks_result, spares_right, with_right, refined, tested};

use crate::operands::{CELLS, cell, operand};
use abs_state::{AbsState, Flags, Right};
use bt_base::Want;
use std::alloc::Global;
use transfer_rules::Test;
use value_lattice::{Thresholds, Value};
use value_refine::{mirror, refine};

/// Writes what is left of a cell: its content is what it was, and so the flags stay.
fn keep_part(state: &mut AbsState, c: u8, v: Value)
    requires value { IsValue v }
    requires words { is_ret v ≡ false }
    ensures { state.new ≡ with_part state.old c v }
{
    let flags = state.flags();
    if c < CELLS {
        state.set(c, v);
        state.set_flags(flags);
    }
}

/// The same, where anything is left. Whether there is.
pub(crate) fn keep(state: &mut AbsState, c: u8, left: Option<Value>) -> bool
    requires value { IfSome left IsValue }
    requires words { is_some_ret left ≡ false }
    ensures { (if result then Some state.new else None) ≡ left_with c state.old left }
{
    match left {
        None => false,
        Some(v) => {
            keep_part(state, c, v);
            true
        }
    }
}

/// What is left of a cell of which flags may speak, where a condition between it and an operand is true, or is false.
fn refined_cell(
    alloc: Global,
    t: &Thresholds,
    condition: u8,
    truth: bool,
    state: &AbsState,
    c: u8,
    other: Right,
) -> Result<Option<Value>, Want>
    requires condition { condition < 16 }
    requires over { is_state_over t.now state.now ≡ true }
    requires named { may_name state.now.cells c ≡ true }
    ensures value { IfOk result (λ r. r ≡ refine t.now condition truth (cell_at state.now c) (operand state.now other)) }
    ensures values { IfOk result (λ r. IfSome r IsValue) }
    ensures words { IfOk result (λ r. is_some_ret r ≡ false) }
{
    t.are_thresholds();
    let left = cell(alloc, state, c)?;
    let right = operand(alloc, state, other)?;
    refine(alloc, condition, truth, &left, &right, t)
}

/// Whether the sign and the zero of a result decide a condition: e, ne, neg and pos.
fn asks_result(condition: u8) -> bool
    ensures { result ≡ asks_result condition }
{
    condition % 8 == 1 || condition % 8 == 6
}

/// Refines the right cell of a comparison too, by the values before, unless it is the left one. Whether anything is left.
fn refine_right(
    alloc: Global,
    t: &Thresholds,
    condition: u8,
    truth: bool,
    before: &AbsState,
    left: u8,
    right: Right,
    state: &mut AbsState,
) -> Result<bool, Want>
    requires condition { condition < 16 }
    requires over { is_state_over t.now before.now ≡ true }
    requires named { may_speak before.now.cells (Flags.Cmp left right) ≡ true }
    ensures { IfOk result (λ some. (if some then Some state.new else None) ≡ with_right t.now condition truth before.now left right state.old) }
{
    match right {
        Right::Word(_) => Ok(true),
        Right::Cell(c) => {
            let mirrored = mirror(condition);
            if mirrored == 8 || c == left {
                return Ok(true);
            }
            let part = refined_cell(alloc, t, mirrored, truth, before, c, Right::Cell(left))?;
            Ok(keep(state, c, part))
        }
    }
}

/// What is left of a state where a condition over a comparison is true, or is false.
fn compared(
    alloc: Global,
    t: &Thresholds,
    condition: u8,
    truth: bool,
    state: &AbsState,
    left: u8,
    right: Right,
) -> Result<Option<AbsState>, Want>
    requires condition { condition < 16 }
    requires over { is_state_over t.now state.now ≡ true }
    requires named { may_speak state.now.cells (Flags.Cmp left right) ≡ true }
    ensures { IfOk result (λ r. r ≡ refined t.now condition truth state.now (Flags.Cmp left right)) }
{
    let part = refined_cell(alloc, t, condition, truth, state, left, right)?;
    let mut next = state.copy(alloc)?;
    if !keep(&mut next, left, part) {
        return Ok(None);
    }
    if !refine_right(alloc, t, condition, truth, state, left, right, &mut next)? {
        return Ok(None);
    }
    Ok(Some(next))
}

/// What is left of a state where a condition over the result in a cell is true, or is false.
fn resulted(
    alloc: Global,
    t: &Thresholds,
    condition: u8,
    truth: bool,
    state: &AbsState,
    c: u8,
) -> Result<Option<AbsState>, Want>
    requires condition { condition < 16 }
    requires over { is_state_over t.now state.now ≡ true }
    requires named { may_name state.now.cells c ≡ true }
    ensures { IfOk result (λ r. r ≡ refined t.now condition truth state.now (Flags.Res c)) }
{
    let mut next = state.copy(alloc)?;
    if !asks_result(condition) {
        return Ok(Some(next));
    }
    let part = refined_cell(alloc, t, condition, truth, state, c, Right::Word(0))?;
    if !keep(&mut next, c, part) {
        return Ok(None);
    }
    Ok(Some(next))
}

/// What is left of a state where a condition over its flags is true, or is false.
fn refined(
    alloc: Global,
    t: &Thresholds,
    condition: u8,
    truth: bool,
    state: &AbsState,
) -> Result<Option<AbsState>, Want>
    requires condition { condition < 16 }
    requires over { is_state_over t.now state.now ≡ true }
    ensures { IfOk result (λ r. r ≡ refined t.now condition truth state.now state.now.flags) }
{
    match state.flags() {
        Flags::Unknown => Ok(Some(state.copy(alloc)?)),
        Flags::Cmp { left, right } => compared(alloc, t, condition, truth, state, left, right),
        Flags::Res { cell } => resulted(alloc, t, condition, truth, state, cell),
    }
}

/// What is left of a state where a branch takes a direction, over thresholds: the cells of which the flags speak are
/// refined, each by the values before, and the flags stay. None exactly where no run takes it.
pub fn tested(
    alloc: Global,
    t: &Thresholds,
    test: Test,
    state: &AbsState,
) -> Result<Option<AbsState>, Want>
    requires { is_state_over t.now state.now ≡ true }
    ensures value { IfOk result (λ r. r ≡ tested t.now test state.now) }
    ensures over { IfOk result (λ r. is_over_or_none t.now r ≡ true) }
{
    t.are_thresholds();
    match test {
        Test::Always => Ok(Some(state.copy(alloc)?)),
        Test::When { condition, truth } => refined(alloc, t, condition % 16, truth, state),
    }
}
