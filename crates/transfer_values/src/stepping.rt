ghost use Rattle.std.specs.Prelude.{◌≡◌, ◌<◌, true, false, ◌&&◌, Some, None, IfOk, IfSome, if◌then◌else◌};
ghost use Rattle.value_lattice.specs.Value.{IsOver, IsValue, is_ret};
ghost use Rattle.abs_state.specs.State.{State, cell_at, is_state_over, with_cell};
ghost use Rattle.transfer_rules.specs.Lawful.{is_over_or_none};
ghost use Rattle.transfer_values.specs.Source.{source_value};
ghost use Rattle.transfer_values.specs.Step.{is_writable, put, written, freed, freed_right, freed_for, with_spoken, flagged, outcome, PutsValue, stepped};

use crate::operands::CELLS;
use crate::sources::source_value;
use abs_state::{AbsState, Flags, Right};
use bt_base::Want;
use bt_image::Image;
use std::alloc::Global;
use transfer_rules::{Step, Write};
use value_lattice::{Thresholds, Value};

/// Writes a cell; what goes to r0 changes nothing.
fn put(state: &mut AbsState, c: u8, v: Value)
    requires { IsValue v }
    ensures { put c state.old (Some v) ≡ Some state.new }
{
    if 0 < c && c < CELLS {
        state.set(c, v);
    }
}

/// What a write does, once its value is known.
#[derive(Debug, Drop)]
enum Outcome {
    /// Nothing.
    Stays,
    /// No run goes on.
    Stops,
    /// A value goes into a cell.
    Puts {
        /// The cell.
        cell: u8,
        /// The value.
        value: Value,
    },
}

/// What a write does, with a value of the state before the step.
fn outcome_of(
    alloc: Global,
    t: &Thresholds,
    image: &Image,
    before: &AbsState,
    write: Option<Write>,
) -> Result<Outcome, Want>
    requires { is_state_over t.now before.now ≡ true }
    ensures value { IfOk result PutsValue }
    ensures outcome { IfOk result (λ o. (s : State) → outcome o s ≡ written t.now image.now before.now write s) }
{
    t.are_thresholds();
    match write {
        None => Ok(Outcome::Stays),
        Some(w) => match source_value(alloc, t, image, before, w.source)? {
            None => Ok(Outcome::Stops),
            Some(value) => Ok(Outcome::Puts {
                cell: w.cell,
                value,
            }),
        },
    }
}

/// Does what a write does. Whether a run goes on behind it.
fn write(state: &mut AbsState, done: Outcome) -> bool
    requires { PutsValue done }
    ensures { (if result then Some state.new else None) ≡ outcome done state.old }
{
    match done {
        Outcome::Stays => true,
        Outcome::Stops => false,
        Outcome::Puts { cell, value } => {
            put(state, cell, value);
            true
        }
    }
}

/// Whether a cell is the return address.
fn is_link(state: &AbsState, c: u8) -> bool
    ensures value { result ≡ is_ret (cell_at state.now c) }
    ensures cell { result ≡ true → c < 48 }
{
    let _flags = state.flags();
    c < CELLS && matches!(state.get(c), Value::Ret)
}

/// Makes a cell any word where it is the return address.
fn free(state: &mut AbsState, c: u8)
    ensures { state.new ≡ freed c state.old }
{
    if is_link(state, c) {
        state.set(c, Value::top());
    }
}

/// The same of a right side.
fn free_right(state: &mut AbsState, right: Right)
    ensures { state.new ≡ freed_right right state.old }
{
    match right {
        Right::Cell(c) => free(state, c),
        Right::Word(_) => {}
    }
}

/// Makes the cells of which flags are to speak any word where they are the return address.
fn free_for(state: &mut AbsState, flags: Flags)
    ensures { state.new ≡ freed_for flags state.old }
{
    match flags {
        Flags::Unknown => {}
        Flags::Cmp { left, right } => {
            free(state, left);
            free_right(state, right);
        }
        Flags::Res { cell } => free(state, cell),
    }
}

/// Says what the condition codes are those of, where that speaks of nothing but cells.
fn speak(state: &mut AbsState, flags: Flags)
    ensures { state.new ≡ with_spoken flags state.old }
{
    if state.may_speak(flags) {
        state.set_flags(flags);
    } else {
        state.set_flags(Flags::Unknown);
    }
}

/// Says what the condition codes are those of, where they are changed.
fn flag(state: &mut AbsState, flags: Option<Flags>)
    ensures { state.new ≡ flagged flags state.old }
{
    match flags {
        None => {}
        Some(f) => {
            free_for(state, f);
            speak(state, f);
        }
    }
}

/// The state behind a step, over thresholds. The cells are written, one after the other, with values of the state before;
/// then those of which the new flags speak become any word where they are the return address; then the flags are set.
/// None exactly where no run goes on: where a word is loaded from an address that is no multiple of 4.
pub fn stepped(
    alloc: Global,
    t: &Thresholds,
    image: &Image,
    step: Step,
    mut state: AbsState,
) -> Result<Option<AbsState>, Want>
    requires { is_state_over t.now state ≡ true }
    ensures value { IfOk result (λ r. r ≡ stepped t.now image.now step state) }
    ensures over { IfOk result (λ r. is_over_or_none t.now r ≡ true) }
{
    t.are_thresholds();
    let first = outcome_of(alloc, t, image, &state, step.first)?;
    let second = outcome_of(alloc, t, image, &state, step.second)?;
    if !write(&mut state, first) {
        return Ok(None);
    }
    if !write(&mut state, second) {
        return Ok(None);
    }
    flag(&mut state, step.flags);
    Ok(Some(state))
}
