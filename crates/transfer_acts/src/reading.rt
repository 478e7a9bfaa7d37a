//! What is read off an image and a binding besides.
ghost use Rattle.std.specs.Prelude.{◌≡◌};
ghost use Rattle.transfer_acts.specs.Reading.{is_skip, is_stub, skips};

use crate::places::instruction_at;
use abs_state::Place;
use assert_bind::Binding;
use bt_image::Image;
use sparc_decode::{Instr, Second};

/// Whether a stub has this entry.
pub fn is_stub(binding: &Binding, entry: u32) -> bool
    ensures { result ≡ is_stub binding.now entry }
{
    binding.stub(entry).is_some()
}

/// Whether a return skips the word behind the call's delay instruction.
fn is_skip(i: &Option<Instr>) -> bool
    ensures { result ≡ is_skip i.now }
{
    match i {
        Some(
            Instr::Jmpl {
                second: Second::Imm(n),
                ..
            },
        ) => *n == 12,
        _ => false,
    }
}

/// Whether the delay instruction of a return at a place is that of one that skips a word.
pub fn skips(image: &Image, p: Place) -> bool
    ensures { result ≡ skips image.now p }
{
    is_skip(&instruction_at(image, p.pc.wrapping_sub(4)))
}
