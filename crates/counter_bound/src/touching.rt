ghost use Rattle.std.specs.Prelude.{◌≡◌, ◌||◌, ◌<◌, ◌≤◌, ℕ, ℤ, true, length, slice_get, slice_index, Some};
ghost use Rattle.bt_base.specs.Graph.{has};
ghost use Rattle.call_effects.specs.Mask.{has_cell};
ghost use Rattle.counter_bound.specs.Body.{adds_outside, spoils, AreTouched};
ghost use Rattle.counter_bound.specs.Change.{AreAdded};
ghost use Rattle.counter_bound.specs.declared.change.Change.TheVariants.{Add};

use crate::Change;
use call_effects::Mask;

/// The cells that the nodes of a loop's body add to outside of the loops inside, and those that can't count, because a
/// node changes them otherwise, or in a loop inside.
#[derive(Clone, Copy, Debug)]
pub(crate) struct Touched {
    pub adds: Mask,
    pub spoilt: Mask,
}

/// The cells with those that one more node changes.
fn touch(touched: Touched, change: Change, inner: bool) -> Touched
    requires { (cell : ℕ) (k : ℤ) → change ≡ Add cell k → (1 ≤ cell) × (cell < 48) }
    ensures adds { (c : ℕ) → has_cell result.adds c ≡ (has_cell touched.adds c || adds_outside change inner c) }
    ensures spoilt { (c : ℕ) → has_cell result.spoilt c ≡ (has_cell touched.spoilt c || spoils change inner c) }
{
    let Touched { adds, spoilt } = touched;
    match change {
        Change::Add { cell, k: _ } => {
            if inner {
                Touched {
                    adds,
                    spoilt: spoilt.with(cell),
                }
            } else {
                Touched {
                    adds: adds.with(cell),
                    spoilt,
                }
            }
        }
        Change::Other(mask) => Touched {
            adds,
            spoilt: spoilt.join(mask),
        },
    }
}

/// The cells that the nodes of a loop's body change; `inner` says which of them are in loops inside.
pub(crate) fn all_touched(body: &[u32], changes: &[Change], inner: &[bool]) -> Touched
    requires nodes { (n : ℕ) → has body.now n ≡ true → n < length changes.now }
    requires inner { length inner.now ≡ length body.now }
    requires added { AreAdded changes.now }
    ensures { AreTouched body.now changes.now inner.now (length body.now) result }
{
    let mut touched = Touched {
        adds: Mask::none(),
        spoilt: Mask::none(),
    };
    for place in 0..body.len() {
        touched = touch(touched, changes[body[place] as usize], inner[place]);
    }
    touched
}
