//! The state at the entry of a context.
ghost use Rattle.std.specs.Prelude.{◌≡◌, ◌<◌, All, IfOk, length};
ghost use Rattle.transfer_rules.specs.Give.{entered_with, with_each};
ghost use Rattle.value_lattice.specs.Value.{IsValue};

use abs_state::AbsState;
use bt_base::Want;
use std::alloc::Global;
use value_lattice::Value;

/// The registers of the arguments: %o0 to %o5 and %g1 to %g7 (System V ABI, SPARC supplement, "Function Calling
/// Sequence").
const REGISTERS: [u8; 13] = [8, 9, 10, 11, 12, 13, 1, 2, 3, 4, 5, 6, 7];

/// A state with values written into some registers, one after the other.
fn written(
    alloc: Global,
    mut state: AbsState,
    registers: &[u8],
    args: &[Value],
) -> Result<AbsState, Want>
    requires registers { All (λ r. r < 32) registers.now }
    requires count { length args.now ≡ length registers.now }
    requires values { All IsValue args.now }
    ensures { IfOk result (λ s. s ≡ with_each state registers.now args.now) }
{
    for (i, r) in registers.iter().enumerate() {
        state.set(*r, args[i].copy(alloc)?);
    }
    Ok(state)
}

/// The state at the entry of a subprogram that is called with these arguments.
pub fn entered_with(alloc: Global, args: &[Value]) -> Result<AbsState, Want>
    requires count { length args.now ≡ 13 }
    requires values { All IsValue args.now }
    ensures { IfOk result (λ s. s ≡ entered_with args.now) }
{
    let state = AbsState::entry(alloc)?;
    written(alloc, state, &REGISTERS, args)
}
