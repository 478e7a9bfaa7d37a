//! What is read off an image and the facts.
ghost use Rattle.std.specs.Prelude.{◌≡◌, IfSome};
ghost use Rattle.abs_state.specs.Key.{compare};
ghost use Rattle.flow_system.specs.Facts.{fact_at};
ghost use Rattle.sparc_decode.specs.Instr.{InRange};
ghost use Rattle.sparc_machine.specs.Straight.{code_instruction};
ghost use Rattle.stack_laws.specs.Standing.{no_effects, summary_in};

use abs_state::Key;
use bt_image::Image;
use call_effects::{Mask, Summary};
use flow_system::Facts;
use sparc_decode::{Instr, decode};
use transfer_rules::Fact;

/// The instruction of code at an address.
pub fn instruction_at(image: &Image, a: u32) -> Option<Instr>
    ensures value { result ≡ code_instruction image.now a }
    ensures fields { IfSome result InRange }
{
    if !image.code(a) {
        return None;
    }
    match image.word_at(a) {
        None => None,
        Some(word) => Some(decode(word)),
    }
}

/// What nothing does.
fn no_effects() -> Summary
    ensures { result ≡ no_effects }
{
    Summary {
        returns: false,
        skips: false,
        written: Mask::none(),
    }
}

/// What a subprogram may do to its caller: nothing where the facts have no summary of it.
pub fn summary_in(facts: &Facts<Key, Fact>, sub: u32) -> Summary
    ensures { result ≡ summary_in (fact_at compare facts.now) sub }
{
    match facts.get(Key::Summary { sub }) {
        Some(Fact::Sum(effects)) => *effects,
        _ => no_effects(),
    }
}
