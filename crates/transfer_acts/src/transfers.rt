//! Calls, returns and other jumps.
ghost use Rattle.std.specs.Prelude.{◌≡◌, ◌<◌};
ghost use Rattle.call_effects.specs.Cell.{cell_of};
ghost use Rattle.sparc_decode.specs.Instr.{AreOperands, IsOperand};
ghost use Rattle.sparc_machine.specs.Frame.{is_return, lets_call};
ghost use Rattle.sparc_machine.specs.Straight.{leaves_link};
ghost use Rattle.transfer_acts.specs.Act.{call_to, calling, is_save, jump_to, linked, sum_of};
ghost use Rattle.transfer_acts.specs.Step.{nothing};

use crate::branching::{behind, open_instruction};
use crate::operands::{operand, register};
use crate::steps::{nothing, sets};
use abs_state::Place;
use call_effects::cell_of;
use sparc_decode::{Instr, Second, writes};
use transfer_rules::{Act, Aim, Candidates, Source, Way};

/// Whether the instruction behind a call is a SAVE.
fn is_save(delay: &Option<Instr>) -> bool
    ensures { result ≡ is_save delay.now }
{
    matches!(delay, Some(Instr::Save { .. }))
}

/// Whether an instruction leaves r15.
fn leaves_link(i: &Instr) -> bool
    ensures { result ≡ leaves_link i.now }
{
    writes(i) & 0x8000 == 0
}

/// Whether the instruction behind a call lets it be one.
fn lets_call(delay: &Option<Instr>) -> bool
    ensures { result ≡ lets_call delay.now }
{
    match delay {
        None => true,
        Some(Instr::Save { .. }) => false,
        Some(Instr::Restore { .. }) => false,
        Some(i) => leaves_link(i),
    }
}

/// Whether a jump is a return: to eight or twelve bytes behind r15 or r31, leaving no address.
fn is_return(rd: u8, rs1: u8, second: Second) -> bool
    ensures { result ≡ is_return rd rs1 second }
{
    match second {
        Second::Reg(_) => false,
        Second::Imm(n) => rd == 0 && ((n == 8 || n == 12) && (rs1 == 15 || rs1 == 31)),
    }
}

/// A transfer that leaves its address in a register.
fn linked(p: Place, rd: u8, way: Way) -> Act
    requires depth { p.depth < 2 }
    requires register { rd < 32 }
    ensures { result ≡ linked p rd way }
{
    Act::Acts {
        step: sets(p.depth, rd, Source::Exactly(p.pc), None),
        way,
    }
}

/// How control goes on behind a transfer that leaves its address in r15.
fn calling(p: Place, delay: &Option<Instr>, call: Aim, jump: Aim) -> Act
    requires { p.depth < 2 }
    ensures { result ≡ calling p delay.now call jump }
{
    if is_save(delay) {
        open_instruction()
    } else if lets_call(delay) {
        linked(p, 15, Way::CallsTo(call))
    } else {
        linked(p, 15, Way::JumpsTo(jump))
    }
}

/// CALL.
pub fn call_to(p: Place, delay: &Option<Instr>, target: u32) -> Act
    requires { p.depth < 2 }
    ensures { result ≡ call_to p delay.now target }
{
    if target == behind(p.pc, 8) {
        open_instruction()
    } else {
        calling(p, delay, Aim::Fixed(target), Aim::Fixed(target))
    }
}

/// The sum that a jump goes to.
fn sum_of(p: Place, rs1: u8, second: Second, candidates: Candidates) -> Aim
    requires depth { p.depth < 2 }
    requires register { rs1 < 32 }
    requires operand { IsOperand second }
    ensures { result ≡ sum_of p rs1 second candidates }
{
    Aim::Computed {
        left: register(p.depth, rs1),
        right: operand(p.depth, second),
        candidates,
    }
}

/// A return.
fn return_by(p: Place, rs1: u8) -> Act
    requires depth { p.depth < 2 }
    requires register { rs1 < 32 }
    ensures { result ≡ Act.Acts (nothing p.depth) (Way.ReturnsBy (cell_of p.depth rs1)) }
{
    Act::Acts {
        step: nothing(p.depth),
        way: Way::ReturnsBy(cell_of(p.depth, rs1)),
    }
}

/// JMPL.
pub fn jump_to(p: Place, delay: &Option<Instr>, rd: u8, rs1: u8, second: Second) -> Act
    requires depth { p.depth < 2 }
    requires operands { AreOperands rd rs1 second }
    ensures { result ≡ jump_to p delay.now rd rs1 second }
{
    if rd == 15 {
        let call = sum_of(p, rs1, second, Candidates::Functions);
        calling(p, delay, call, sum_of(p, rs1, second, Candidates::Labels))
    } else if is_return(rd, rs1, second) {
        return_by(p, rs1)
    } else {
        let aim = sum_of(p, rs1, second, Candidates::Labels);
        linked(p, rd, Way::JumpsTo(aim))
    }
}
