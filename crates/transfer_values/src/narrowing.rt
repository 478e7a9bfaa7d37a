ghost use Rattle.std.specs.Prelude.{◌≡◌, ◌<◌, true, false, Some, None, IfOk, if◌then◌else◌};
ghost use Rattle.assert_bind.specs.Binding.{range};
ghost use Rattle.abs_state.specs.State.{is_state_over};
ghost use Rattle.transfer_rules.specs.Lawful.{is_over_or_none};
ghost use Rattle.transfer_values.specs.Narrow.{narrowed_to, narrowed};

use crate::operands::cell;
use crate::testing::keep;
use abs_state::{AbsState, Place};
use assert_bind::Binding;
use bt_base::Want;
use call_effects::cell_of;
use std::alloc::Global;
use value_lattice::Thresholds;
use value_refine::within;

/// Narrows a cell to a range, if there is one. Whether anything is left.
fn narrow(
    alloc: Global,
    t: &Thresholds,
    range: Option<(i32, i32)>,
    c: u8,
    state: &mut AbsState,
) -> Result<bool, Want>
    requires { is_state_over t.now state.old ≡ true }
    ensures value { IfOk result (λ some. (if some then Some state.new else None) ≡ narrowed_to t.now range c state.old) }
    ensures over { IfOk result (λ some. some ≡ true → is_state_over t.now state.new ≡ true) }
{
    t.are_thresholds();
    match range {
        None => Ok(true),
        Some((lo, hi)) => {
            let whole = cell(alloc, state, c)?;
            let part = within(alloc, &whole, lo, hi, t)?;
            Ok(keep(state, c, part))
        }
    }
}

/// What is left of a state at a place where the assertions on its registers hold, over thresholds: each asserted range
/// narrows the cell of its register in the window at the place's depth, and the flags stay. None exactly where nothing is
/// left of a cell.
pub fn narrowed(
    alloc: Global,
    t: &Thresholds,
    binding: &Binding,
    place: Place,
    state: &AbsState,
) -> Result<Option<AbsState>, Want>
    requires depth { place.depth < 2 }
    requires over { is_state_over t.now state.now ≡ true }
    ensures value { IfOk result (λ r. r ≡ narrowed t.now binding.now place state.now) }
    ensures over { IfOk result (λ r. is_over_or_none t.now r ≡ true) }
{
    t.are_thresholds();
    let mut next = state.copy(alloc)?;
    for r in 1..32 {
        let range = binding.range(place.pc, r);
        if !narrow(alloc, t, range, cell_of(place.depth, r), &mut next)? {
            return Ok(None);
        }
    }
    Ok(Some(next))
}
