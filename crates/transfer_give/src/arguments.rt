//! The arguments that a call hands on.
ghost use Rattle.std.specs.Prelude.{◌≡◌, ◌<◌, IfOk, All};
ghost use Rattle.abs_state.specs.State.{cell_at};
ghost use Rattle.call_effects.specs.Cell.{cell_of};
ghost use Rattle.value_lattice.specs.Value.{IsValue};
ghost use Rattle.transfer_give.specs.Handed.{entered_from, handed_in, handed_on};
ghost use Rattle.transfer_rules.specs.Give.{handed, with_each};

use abs_state::{AbsState, Args};
use bt_base::Want;
use call_effects::cell_of;
use std::alloc::Global;
use transfer_rules::Fact;
use value_lattice::Value;

/// The registers of the arguments: %o0 to %o5 and %g1 to %g7 (System V ABI, SPARC supplement, "Function Calling
/// Sequence").
const REGISTERS: [u8; 13] = [8, 9, 10, 11, 12, 13, 1, 2, 3, 4, 5, 6, 7];

/// A value as another frame sees it: the return address of one frame is any word for another.
fn handed(alloc: Global, v: &Value) -> Result<Value, Want>
    requires { IsValue v.now }
    ensures value { IfOk result (λ u. u ≡ handed v.now) }
    ensures valid { IfOk result IsValue }
{
    match v {
        Value::Ret => Ok(Value::top()),
        Value::Words(_) => v.copy(alloc),
        Value::Range { .. } => v.copy(alloc),
    }
}

/// The argument in a register of the window at a depth.
fn argument(alloc: Global, depth: u8, r: u8, s: &AbsState) -> Result<Value, Want>
    requires depth { depth < 2 }
    requires register { r < 32 }
    ensures value { IfOk result (λ u. u ≡ handed (cell_at s.now (cell_of depth r))) }
    ensures valid { IfOk result IsValue }
{
    handed(alloc, s.get(cell_of(depth, r)))
}

/// The arguments in some registers.
fn handed_in(alloc: Global, registers: &[u8], depth: u8, s: &AbsState) -> Result<Vec<Value>, Want>
    requires depth { depth < 2 }
    requires registers { All (λ r. r < 32) registers.now }
    ensures { IfOk result (λ list. list.items ≡ handed_in registers.now depth s.now) }
{
    let mut list = Vec::with_capacity(alloc, registers.len())?;
    for r in registers {
        list.push(argument(alloc, depth, *r, s)?)?;
    }
    Ok(list)
}

/// A state with the arguments written into some registers, one after the other.
fn enter_with(
    alloc: Global,
    mut entry: AbsState,
    registers: &[u8],
    depth: u8,
    s: &AbsState,
) -> Result<AbsState, Want>
    requires depth { depth < 2 }
    requires registers { All (λ r. r < 32) registers.now }
    ensures { IfOk result (λ state. state ≡ with_each entry registers.now (handed_in registers.now depth s.now)) }
{
    for r in registers {
        entry.set(*r, argument(alloc, depth, *r, s)?);
    }
    Ok(entry)
}

/// The arguments that a call at a depth hands on.
pub fn handed_on(alloc: Global, depth: u8, s: &AbsState) -> Result<Fact, Want>
    requires { depth < 2 }
    ensures { IfOk result (λ fact. fact ≡ handed_on depth s.now) }
{
    let list = handed_in(alloc, &REGISTERS, depth, s)?;
    Ok(Fact::Args(Args { list }))
}

/// The state at the entry of a subprogram that is called at a depth.
pub fn entered_from(alloc: Global, depth: u8, s: &AbsState) -> Result<Fact, Want>
    requires { depth < 2 }
    ensures { IfOk result (λ fact. fact ≡ entered_from depth s.now) }
{
    let entry = AbsState::entry(alloc)?;
    let entered = enter_with(alloc, entry, &REGISTERS, depth, s)?;
    Ok(Fact::State(entered))
}
