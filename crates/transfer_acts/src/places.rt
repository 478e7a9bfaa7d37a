ghost use Rattle.std.specs.Prelude.{◌≡◌, ◌<◌, IfSome};
ghost use Rattle.sparc_decode.specs.Instr.{InRange};
ghost use Rattle.sparc_machine.specs.Frame.{instruction_at};
ghost use Rattle.sparc_machine.specs.Straight.{code_instruction};
ghost use Rattle.transfer_acts.specs.Act.{act_at};

use crate::acting::act_of;
use crate::branching::behind;
use crate::reading::is_stub;
use abs_state::{GapKind, Place};
use assert_bind::Binding;
use bt_image::Image;
use sparc_decode::{Instr, decode};
use transfer_rules::Act;

/// The instruction at an address of read-only memory.
pub fn instruction_at(image: &Image, a: u32) -> Option<Instr>
    ensures { result ≡ instruction_at image.now a }
{
    match image.word_at(a) {
        None => None,
        Some(word) => Some(decode(word)),
    }
}

/// The instruction at an address of code.
fn code_instruction(image: &Image, a: u32) -> Option<Instr>
    ensures value { result ≡ code_instruction image.now a }
    ensures fields { IfSome result InRange }
{
    if !image.code(a) {
        return None;
    }
    match image.word_at(a) {
        None => None,
        Some(word) => Some(decode(word)),
    }
}

/// What the instruction of a place does: nothing where its address isn't one of code or is asserted never to be
/// reached; it isn't followed at the entry of a stub, where it isn't modelled, or where it would be a transfer in a delay
/// slot; else it sets cells, and control goes on. Multiplications and divisions are followed where `eight` is true.
pub fn act_at(image: &Image, binding: &Binding, eight: bool, p: Place) -> Act
    requires { p.depth < 2 }
    ensures { result ≡ act_at image.now binding.now eight p }
{
    if binding.never(p.pc) {
        return Act::Dead;
    }
    let Some(instruction) = code_instruction(image, p.pc) else {
        return Act::Dead;
    };
    if is_stub(binding, p.pc) {
        return Act::Open(GapKind::Jump);
    }
    let delay = instruction_at(image, behind(p.pc, 4));
    act_of(eight, p, &delay, &instruction)
}
