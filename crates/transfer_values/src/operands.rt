ghost use Rattle.std.specs.Prelude.{◌≡◌, ◌%◌, ◌^◌, true, IfOk};
ghost use Rattle.value_lattice.specs.Value.{IsOver};
ghost use Rattle.value_ops.specs.Operation.{apply};
ghost use Rattle.abs_state.specs.State.{cell_at, is_state_over};
ghost use Rattle.transfer_values.specs.Source.{operand};

use abs_state::{AbsState, Right};
use bt_base::Want;
use std::alloc::Global;
use value_lattice::{Thresholds, Value};
use value_ops::{Op, apply};

/// How many cells a state has.
pub(crate) const CELLS: u8 = 48;

/// What is known of a cell: of what is no cell, that it is any word.
pub(crate) fn cell(alloc: Global, state: &AbsState, c: u8) -> Result<Value, Want>
    ensures { IfOk result (λ v. v ≡ cell_at state.now c) }
{
    let _flags = state.flags();
    if c < CELLS {
        state.get(c).copy(alloc)
    } else {
        Ok(Value::top())
    }
}

/// What is known of an operand.
pub(crate) fn operand(alloc: Global, state: &AbsState, right: Right) -> Result<Value, Want>
    ensures { IfOk result (λ v. v ≡ operand state.now right) }
{
    match right {
        Right::Cell(c) => cell(alloc, state, c),
        Right::Word(w) => Value::word(w),
    }
}

/// What is known of the result of an operation on two operands.
pub(crate) fn applied(
    alloc: Global,
    t: &Thresholds,
    op: Op,
    state: &AbsState,
    left: Right,
    right: Right,
) -> Result<Value, Want>
    requires { is_state_over t.now state.now ≡ true }
    ensures value { IfOk result (λ v. v ≡ apply t.now op (operand state.now left) (operand state.now right)) }
    ensures over { IfOk result (IsOver t.now) }
{
    t.are_thresholds();
    let a = operand(alloc, state, left)?;
    let b = operand(alloc, state, right)?;
    apply(alloc, op, &a, &b, t)
}
