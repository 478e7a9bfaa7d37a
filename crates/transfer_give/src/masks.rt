//! The cells that a step writes.
ghost use Rattle.std.specs.Prelude.{◌≡◌};
ghost use Rattle.transfer_rules.specs.Give.{mask_of, mask_of_write};

use call_effects::Mask;
use transfer_rules::{Step, Write};

/// The cell of a write too.
fn with_write(write: Option<Write>, mask: Mask) -> Mask
    ensures { result ≡ mask_of_write write mask }
{
    match write {
        None => mask,
        Some(w) => {
            if w.cell != 0 && w.cell < 48 {
                mask.with(w.cell)
            } else {
                mask
            }
        }
    }
}

/// The cells that a step writes.
pub fn mask_of(step: Step) -> Mask
    ensures { result ≡ mask_of step }
{
    with_write(step.second, with_write(step.first, Mask::none()))
}
